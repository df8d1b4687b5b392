//! A feed.
ghost use Rattle.std.specs.Prelude.{◌≡◌, ◌∷◌, [], ◌++◌, IfOk, OnOk, OnErr};

use crate::feed_reader::FeedReader;
use crate::packed::Packed;
use join_base::{Items, Message, NoMemory, Posts};
use std::alloc::Global;
use std::marker::Model;

// How many bytes of posts stand whole, by their weight.
const ROOM: usize = 3 << 20;

/// The posts of a feed in their order. The first ones stand whole, some 3 MB of them, and cost nothing to pack. Those
/// behind them are packed, and take little room.
#[derive(Drop)]
pub struct Feed {
    whole: Vec<(u32, Message)>,
    packed: Packed,
    // How much more weight may stand whole.
    room: usize,
}

impl Model for Feed {
    ghost use Rattle.std.specs.Prelude.{List, ◌++◌};
    ghost use Rattle.feed_store.specs.Kept.{Post};

    ghost Value = { List Post };

    ghost view = { λ a. a.whole.items ++ a.packed };
}

// Some of the bytes that a post takes which stands whole. No clause rests on it.
#[inline]
fn weight(message: &Message) -> usize {
    let values = message.fields.len();
    if values <= 1 { 48 } else { 48 + 32 * values }
}

impl Feed {
    pub fn new(alloc: Global) -> Feed
        ensures empty { result ≡ [] }
    {
        Feed {
            whole: Vec::new(alloc),
            packed: Packed::new(alloc),
            room: ROOM,
        }
    }

    /// A feed without a post, with room for so many whole ones.
    pub fn with_room(alloc: Global, posts: usize) -> Result<Feed, NoMemory>
        ensures empty { IfOk result (λ feed. feed ≡ []) }
    {
        let whole = Vec::with_capacity(alloc, posts)?;
        Ok(Feed {
            whole,
            packed: Packed::new(alloc),
            room: ROOM,
        })
    }

    /// Appends a post. Without memory nothing changes.
    #[inline(always)]
    pub fn push(&mut self, target: u32, message: Message) -> Result<(), NoMemory>
        ensures ok { OnOk result (self.new ≡ self.old ++ (target, message) ∷ []) }
        ensures err { OnErr result (self.new ≡ self.old) }
    {
        let weight = weight(&message);
        let fits = weight <= self.room && self.packed.is_empty();
        if !fits {
            return self.packed.push(target, &message);
        }
        self.whole.push((target, message))?;
        self.room -= weight;
        Ok(())
    }

    /// All posts, to be read from the first on.
    pub fn reader(&self) -> FeedReader<'_>
        ensures same { result ≡ self.now }
    {
        FeedReader::new(self.whole.as_slice(), self.packed.reader())
    }

    /// The posts that stand whole, and those behind them.
    pub fn into_parts(self) -> (Vec<(u32, Message)>, Packed)
        ensures same { self ≡ result.0.items ++ result.1 }
    {
        let Feed { whole, packed, .. } = self;
        (whole, packed)
    }

    /// The feed of these posts.
    pub fn packed(alloc: Global, posts: &[(u32, Message)]) -> Result<Feed, NoMemory>
        ensures same { IfOk result (λ feed. feed ≡ posts.now) }
    {
        let mut feed = Feed::new(alloc);
        for post in posts {
            feed.push(post.0, post.1.copy(alloc)?)?;
        }
        Ok(feed)
    }

    /// The posts of the feed as a list.
    pub fn unpacked(&self, alloc: Global) -> Result<Posts, NoMemory>
        ensures same { IfOk result (λ posts. posts ≡ self.now) }
    {
        let mut posts = Vec::new(alloc);
        let mut rest = self.reader();
        'posts: while let Some(post) = rest.next(alloc)? {
            posts.push(post)?;
        }
        Ok(Posts::from_vec(posts))
    }
}

/// The feeds of a run.
pub type Feeds = Items<Feed>;
