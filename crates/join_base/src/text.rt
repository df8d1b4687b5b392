//! Bytes, names, words and texts. Contracts see each of them as a list of bytes.
ghost use Rattle.std.specs.Prelude.{◌≡◌, [], ◌++◌, ◌<◌, ◌≤◌, length, slice_index, take, IfOk, OnOk, OnErr, ◌↔◌, Err, true};
ghost use Rattle.std.specs.Str.{IsUtf8};
ghost use Rattle.join_base.specs.Text.{IsText, is_name};

use crate::items::{Items, NoMemory};
use crate::stored::Stored;
use std::alloc::Global;
use std::marker::Model;
use thiserror::Error;

/// The byte at a place, counted from 0, or 0 past the end.
pub fn byte_at(bytes: &[u8], place: usize) -> u8
    ensures { result ≡ slice_index bytes.now place }
{
    if place < bytes.len() { bytes[place] } else { 0 }
}

/// Bytes that grow at their end.
#[derive(Drop)]
pub struct Bytes {
    bytes: Vec<u8>,
}

impl Model for Bytes {
    ghost use Rattle.std.specs.Prelude.{ℕ, List};

    ghost Value = { List ℕ };

    ghost view = { λ a. a.bytes.items };
}

impl Bytes {
    pub fn new(alloc: Global) -> Bytes
        ensures empty { result ≡ [] }
    {
        Bytes {
            bytes: Vec::new(alloc),
        }
    }

    /// These bytes. It takes no memory.
    pub fn from_vec(bytes: Vec<u8>) -> Bytes
        ensures same { result ≡ bytes.items }
    {
        Bytes { bytes }
    }

    pub fn bytes(&self) -> &[u8]
        ensures same { result.now ≡ self.now }
    {
        self.bytes.as_slice()
    }

    /// Keeps the first bytes, as many as `count`.
    pub fn truncate(&mut self, count: usize)
        ensures { self.new ≡ take count self.old }
    {
        self.bytes.truncate(count);
    }

    pub fn copy(&self, alloc: Global) -> Result<Bytes, NoMemory>
        ensures equal { IfOk result (λ b. b ≡ self.now) }
    {
        let bytes = self.bytes.as_slice().to_vec(alloc)?;
        Ok(Bytes { bytes })
    }

    /// Appends the piece. Without memory the bytes are as they were.
    pub fn push_all(&mut self, piece: &[u8]) -> Result<(), NoMemory>
        ensures ok { OnOk result (self.new ≡ self.old ++ piece.now) }
        ensures err { OnErr result (self.new ≡ self.old) }
    {
        self.bytes.extend_from_slice(piece)?;
        Ok(())
    }
}

/// Why bytes are no text of a kind.
#[derive(Clone, Copy, PartialEq, Eq, Debug, Error)]
pub enum TextFault {
    /// They are not UTF-8.
    #[error("not UTF-8")]
    NotText,
    /// They are UTF-8, and too many.
    #[error("too long")]
    TooLong,
    #[error("out of memory")]
    NoMemory,
}

impl From<NoMemory> for TextFault {
    ghost use Rattle.std.specs.Prelude.{◌≡◌};
    ghost use Rattle.join_base.specs.declared.text.TextFault.TheVariants.{NoMemory};

    ghost from_gives = { λ _ e. e ≡ NoMemory };

    fn from(_: NoMemory) -> TextFault {
        TextFault::NoMemory
    }
}

/// UTF-8 of at most `BOUND` bytes. Up to `PLACE` of them stand in place, and more in a block of memory.
#[derive(Drop)]
pub struct BoundedText<const BOUND: usize, const PLACE: usize> {
    stored: Stored<PLACE>,
}

impl<const BOUND: usize, const PLACE: usize> Model for BoundedText<BOUND, PLACE> {
    ghost use Rattle.std.specs.Prelude.{ℕ, List};
    ghost use Rattle.join_base.specs.Text.{IsText};
    ghost use Rattle.join_base.specs.Stored.{stored_bytes};

    ghost Value = { List ℕ };

    ghost view = { λ a. stored_bytes a.stored };

    ghost invariant = { λ a. IsText BOUND (stored_bytes a.stored) };
}

impl<const BOUND: usize, const PLACE: usize> BoundedText<BOUND, PLACE> {
    /// The most bytes of such a text.
    pub const MAX: usize = BOUND;

    pub fn from_bytes(alloc: Global, bytes: &[u8]) -> Result<Self, TextFault>
        ensures ok { IfOk result (λ t. t ≡ bytes.now) }
        ensures not_text { (result ≡ Err TextFault.NotText) ↔ (¬ IsUtf8 bytes.now) }
        ensures too_long { (result ≡ Err TextFault.TooLong) ↔ (IsUtf8 bytes.now × (BOUND < length bytes.now)) }
    {
        match std::str::from_utf8(bytes) {
            Err(_) => Err(TextFault::NotText),
            Ok(_) => {
                if bytes.len() > BOUND {
                    return Err(TextFault::TooLong);
                }
                Ok(BoundedText::from_text(alloc, bytes)?)
            }
        }
    }

    /// The text of these bytes, which are one.
    pub fn from_text(alloc: Global, bytes: &[u8]) -> Result<Self, NoMemory>
        requires is_text { IsText BOUND bytes.now }
        ensures same { IfOk result (λ t. t ≡ bytes.now) }
    {
        let stored = Stored::from_slice(alloc, bytes)?;
        Ok(BoundedText { stored })
    }

    #[inline]
    pub fn bytes(&self) -> &[u8]
        ensures same { result.now ≡ self.now }
        ensures is_text { IsText BOUND self.now }
    {
        self.stored.as_slice()
    }

    pub fn copy(&self, alloc: Global) -> Result<Self, NoMemory>
        ensures equal { IfOk result (λ t. t ≡ self.now) }
    {
        BoundedText::from_text(alloc, self.bytes())
    }
}

/// The value of a text field, or a text of a script: UTF-8 of at most 120 bytes. It takes 16 bytes, and a block where
/// it has more than 14.
pub type Text = BoundedText<120, 14>;

const _: () = prove!(size_of::<Text>() == 16);

/// What a body prints: UTF-8 of at most 1,920 bytes. It takes 40 bytes, as a message does, and a block where it has
/// more than 38.
pub type Line = BoundedText<1920, 38>;

const _: () = prove!(size_of::<Line>() == 40);

/// The name of an actor, a kind, a field or a variable: 1 to 64 ASCII messages, digits and `_`, the first no digit. It
/// is no keyword of a script, and not `_` alone.
#[derive(Drop)]
pub struct Name {
    bytes: Vec<u8>,
}

impl Model for Name {
    ghost use Rattle.std.specs.Prelude.{◌≡◌, ℕ, List, true};
    ghost use Rattle.join_base.specs.Text.{is_name};

    ghost Value = { List ℕ };

    ghost view = { λ a. a.bytes.items };

    ghost invariant = { λ a. is_name a.bytes.items ≡ true };
}

impl Name {
    pub fn from_bytes(alloc: Global, bytes: &[u8]) -> Result<Name, NoMemory>
        requires is_name { is_name bytes.now ≡ true }
        ensures same { IfOk result (λ n. n ≡ bytes.now) }
    {
        let bytes = bytes.to_vec(alloc)?;
        Ok(Name { bytes })
    }

    pub fn bytes(&self) -> &[u8]
        ensures same { result.now ≡ self.now }
        ensures is_name { is_name self.now ≡ true }
    {
        self.bytes.as_slice()
    }

    pub fn copy(&self, alloc: Global) -> Result<Name, NoMemory>
        ensures equal { IfOk result (λ n. n ≡ self.now) }
        ensures is_name { is_name self.now ≡ true }
    {
        let bytes = self.bytes.as_slice().to_vec(alloc)?;
        Ok(Name { bytes })
    }
}

/// A word of the command line: UTF-8 of any length.
#[derive(Drop)]
pub struct Word {
    text: String,
}

impl Model for Word {
    ghost use Rattle.std.specs.Prelude.{ℕ, List, string_bytes};

    ghost Value = { List ℕ };

    ghost view = { λ a. string_bytes a.text };
}

impl Word {
    pub fn from_text(alloc: Global, text: &str) -> Result<Word, NoMemory>
        ensures same { IfOk result (λ w. w ≡ text.now) }
    {
        let text = String::from_str(alloc, text)?;
        Ok(Word { text })
    }

    pub fn as_str(&self) -> &str
        ensures same { result.now ≡ self.now }
    {
        self.text.as_str()
    }
}

/// The words of a command line.
pub type WordList = Items<Word>;
