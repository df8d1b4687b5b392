//! The posts of a feed, read one after the other.
ghost use Rattle.std.specs.Prelude.{◌≡◌, ◌∷◌, [], ◌++◌, IfOk, OnErr, MatchOption};
ghost use Rattle.join_base.specs.declared.message.Message.{Message};

use crate::packed_reader::PackedReader;
use join_base::{Message, NoMemory};
use std::alloc::Global;
use std::marker::Model;

/// The posts that are left, from the first on.
#[derive(Drop)]
pub struct FeedReader<'a> {
    whole: &'a [(u32, Message)],
    packed: PackedReader<'a>,
}

impl<'a> Model for FeedReader<'a> {
    ghost use Rattle.std.specs.Prelude.{List, ◌++◌};
    ghost use Rattle.feed_store.specs.Kept.{Post};

    ghost Value = { List Post };

    ghost view = { λ a. a.whole.now ++ a.packed };
}

impl<'a> FeedReader<'a> {
    /// Whole posts, and packed ones behind them.
    pub(crate) fn new(whole: &'a [(u32, Message)], packed: PackedReader<'a>) -> FeedReader<'a>
        ensures same { result ≡ whole.now ++ packed.entry }
    {
        FeedReader { whole, packed }
    }

    /// The next post. Without memory nothing changes.
    pub fn next(&mut self, alloc: Global) -> Result<Option<(u32, Message)>, NoMemory>
        ensures post { IfOk result (λ next. MatchOption next ((self.old ≡ []) × (self.new ≡ [])) (λ post. self.old ≡ post ∷ self.new)) }
        ensures err { OnErr result (self.new ≡ self.old) }
    {
        let Some((post, rest)) = self.whole.split_first() else {
            return self.packed.next(alloc);
        };
        let message = post.1.copy(alloc)?;
        let target = post.0;
        self.whole = rest;
        Ok(Some((target, message)))
    }

    /// The actor that the next post is for, and passes over the post.
    pub fn next_target(&mut self) -> Option<u32>
        ensures { MatchOption result ((self.old ≡ []) × (self.new ≡ []))
            (λ target. (message : Message) × (self.old ≡ (target, message) ∷ self.new)) }
    {
        let Some((post, rest)) = self.whole.split_first() else {
            return self.packed.next_target();
        };
        let target = post.0;
        self.whole = rest;
        Some(target)
    }
}
