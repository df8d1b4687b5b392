//! Posts in little room.
ghost use Rattle.std.specs.Prelude.{◌≡◌, ◌∷◌, [], ◌++◌, true, OnOk, OnErr};

use crate::kept::{Head, Stock, push_values};
use crate::packed_reader::PackedReader;
use join_base::{Message, NoMemory};
use std::alloc::Global;
use std::marker::Model;

/// Posts in their order, in little room: 12 bytes a post, 2 a value, 8 an integer, and the bytes of texts.
#[derive(Drop)]
pub struct Packed {
    heads: Vec<Head>,
    stock: Stock,
}

impl Model for Packed {
    ghost use Rattle.std.specs.Prelude.{List};
    ghost use Rattle.feed_store.specs.Kept.{IsKept, Post, posts_of};

    ghost Value = { List Post };

    ghost view = { λ a. posts_of a.heads.items a.stock.marks.items a.stock.integers.items a.stock.words.items };

    ghost invariant = { λ a. IsKept (posts_of a.heads.items a.stock.marks.items a.stock.integers.items a.stock.words.items)
        a.heads.items a.stock.marks.items a.stock.integers.items a.stock.words.items };
}

impl Packed {
    pub fn new(alloc: Global) -> Packed
        ensures empty { result ≡ [] }
    {
        let heads = Vec::new(alloc);
        let marks = Vec::new(alloc);
        let integers = Vec::new(alloc);
        let words = Vec::new(alloc);
        let stock = Stock {
            marks,
            integers,
            words,
        };
        Packed { heads, stock }
    }

    /// Appends a post of a copy of the message. Without memory nothing changes.
    pub fn push(&mut self, target: u32, message: &Message) -> Result<(), NoMemory>
        ensures ok { OnOk result (self.new ≡ self.old ++ (target, message.now) ∷ []) }
        ensures err { OnErr result (self.new ≡ self.old) }
    {
        let values = message.fields.len() as u8;
        self.heads.reserve(1)?;
        push_values(&mut self.stock, &message.fields)?;
        self.heads.push_reserved(Head {
            target,
            kind: message.kind,
            count: values,
        });
        Ok(())
    }

    #[inline]
    pub fn is_empty(&self) -> bool
        ensures empty { result ≡ true → self.now ≡ [] }
    {
        self.heads.is_empty()
    }

    /// All posts, to be read from the first on.
    pub fn reader(&self) -> PackedReader<'_>
        ensures same { result ≡ self.now }
    {
        let heads = self.heads.as_slice();
        let marks = self.stock.marks.as_slice();
        let integers = self.stock.integers.as_slice();
        let words = self.stock.words.as_slice();
        PackedReader::new(heads, marks, integers, words)
    }
}
