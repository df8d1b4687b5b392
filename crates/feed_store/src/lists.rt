//! Feeds as lists of posts.
ghost use Rattle.std.specs.Prelude.{◌≡◌, IfOk};

use crate::feed::{Feed, Feeds};
use join_base::{FeedList, NoMemory};
use std::alloc::Global;

/// The feeds of these lists of posts.
pub fn packed_all(alloc: Global, lists: &FeedList) -> Result<Feeds, NoMemory>
    ensures same { IfOk result (λ feeds. feeds ≡ lists.now) }
{
    let mut feeds = Feeds::new(alloc);
    for posts in lists.as_slice() {
        feeds.push(Feed::packed(alloc, posts.as_slice())?)?;
    }
    Ok(feeds)
}

/// The posts of each feed as a list.
pub fn unpacked_all(alloc: Global, feeds: &Feeds) -> Result<FeedList, NoMemory>
    ensures same { IfOk result (λ lists. lists ≡ feeds.now) }
{
    let mut lists = FeedList::new(alloc);
    for feed in feeds.as_slice() {
        lists.push(feed.unpacked(alloc)?)?;
    }
    Ok(lists)
}
