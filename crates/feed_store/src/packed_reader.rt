//! Packed posts, read one after the other.
ghost use Rattle.std.specs.Prelude.{◌≡◌, ◌∷◌, [], IfOk, OnErr, MatchOption};
ghost use Rattle.join_base.specs.declared.message.Message.{Message};
ghost use Rattle.feed_store.specs.Kept.{IsKept, posts_of};
ghost use Rattle.feed_store.specs.First.{IsFirst};

use crate::kept::{Head, Mark};
use crate::reading::{all_behind, values_of};
use join_base::{Message, NoMemory};
use std::alloc::Global;
use std::marker::Model;

/// The packed posts that are left, from the first on.
#[derive(Drop)]
pub struct PackedReader<'a> {
    heads: &'a [Head],
    marks: &'a [Mark],
    integers: &'a [i64],
    words: &'a [u8],
}

impl<'a> Model for PackedReader<'a> {
    ghost use Rattle.std.specs.Prelude.{List};
    ghost use Rattle.feed_store.specs.Kept.{IsKept, Post, posts_of};

    ghost Value = { List Post };

    ghost view = { λ a. posts_of a.heads.now a.marks.now a.integers.now a.words.now };

    ghost invariant = { λ a. IsKept (posts_of a.heads.now a.marks.now a.integers.now a.words.now) a.heads.now a.marks.now
        a.integers.now a.words.now };
}

/// The first post where it is kept, and the others.
#[derive(Drop)]
pub(crate) struct First<'a> {
    head: Head,
    // The marks of its values alone.
    marks: &'a [Mark],
    integers: &'a [i64],
    words: &'a [u8],
    rest: PackedReader<'a>,
}

impl<'a> PackedReader<'a> {
    /// The posts that are kept so.
    pub(crate) fn new(
        heads: &'a [Head],
        marks: &'a [Mark],
        integers: &'a [i64],
        words: &'a [u8],
    ) -> PackedReader<'a>
        requires kept { IsKept (posts_of heads.now marks.now integers.now words.now) heads.now marks.now integers.now words.now }
        ensures same { result ≡ posts_of heads.now marks.now integers.now words.now }
    {
        PackedReader {
            heads,
            marks,
            integers,
            words,
        }
    }

    #[inline]
    fn first(&self) -> Option<First<'a>>
        ensures { IsFirst self.now result }
    {
        let Some((head, heads)) = self.heads.split_first() else {
            return None;
        };
        let (marks, others) = self.marks.split_at(head.count as usize);
        let (integers, words) = all_behind(marks, self.integers, self.words);
        let rest = PackedReader {
            heads,
            marks: others,
            integers,
            words,
        };
        Some(First {
            head: *head,
            marks,
            integers: self.integers,
            words: self.words,
            rest,
        })
    }

    /// The next post. Without memory nothing changes.
    pub fn next(&mut self, alloc: Global) -> Result<Option<(u32, Message)>, NoMemory>
        ensures post { IfOk result (λ next. MatchOption next ((self.old ≡ []) × (self.new ≡ [])) (λ post. self.old ≡ post ∷ self.new)) }
        ensures err { OnErr result (self.new ≡ self.old) }
    {
        let Some(first) = self.first() else {
            return Ok(None);
        };
        let fields = values_of(alloc, first.marks, first.integers, first.words)?;
        let First { head, rest, .. } = first;
        *self = rest;
        let message = Message {
            kind: head.kind,
            fields,
        };
        Ok(Some((head.target, message)))
    }

    /// The actor that the next post is for, and passes over the post.
    pub fn next_target(&mut self) -> Option<u32>
        ensures { MatchOption result ((self.old ≡ []) × (self.new ≡ []))
            (λ target. (message : Message) × (self.old ≡ (target, message) ∷ self.new)) }
    {
        let Some(First { head, rest, .. }) = self.first() else {
            return None;
        };
        *self = rest;
        Some(head.target)
    }
}
