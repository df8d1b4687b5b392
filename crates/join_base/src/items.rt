//! A list of any type, seen as a list.
ghost use Rattle.std.specs.Prelude.{◌≡◌, ◌∷◌, [], ◌++◌, ◌<◌, length, slice_get, Some, OnOk, OnErr, MatchOption};
ghost use Rattle.std.specs.Borrow.{sem};
ghost use Rattle.join_base.specs.Lending.{LendsItem};

use std::alloc::{AllocError, AllocFailed, Global};
use std::marker::Model;
use thiserror::Error;

/// There was no memory.
#[derive(Clone, Copy, PartialEq, Eq, Debug, Error)]
#[error("out of memory")]
pub struct NoMemory;

impl From<AllocError> for NoMemory {
    fn from(_: AllocError) -> NoMemory {
        NoMemory
    }
}

impl<T: Drop> From<AllocFailed<T>> for NoMemory {
    fn from(_: AllocFailed<T>) -> NoMemory {
        NoMemory
    }
}

/// A list that grows at its end. Each list type of the crates above is an alias of it.
#[derive(Drop)]
pub struct Items<T> {
    rows: Vec<T>,
}

impl<T> Model for Items<T> {
    ghost use Rattle.std.specs.Prelude.{List};

    ghost Value = { List T };

    ghost view = { λ a. a.rows.items };
}

impl<T> Items<T> {
    pub fn new(alloc: Global) -> Self
        ensures empty { result ≡ [] }
    {
        Items {
            rows: Vec::new(alloc),
        }
    }

    /// The list of these rows. It takes no memory, and nor does the way back.
    pub fn from_vec(rows: Vec<T>) -> Self
        ensures same { result ≡ rows.items }
    {
        Items { rows }
    }

    pub fn into_vec(self) -> Vec<T>
        ensures same { result.items ≡ self }
    {
        let Items { rows } = self;
        rows
    }

    pub fn len(&self) -> usize
        ensures count { result ≡ length self.now }
    {
        self.rows.len()
    }

    pub fn as_slice(&self) -> &[T]
        ensures same { result.now ≡ self.now }
    {
        self.rows.as_slice()
    }

    /// The item at a place, counted from 0.
    pub fn at(&self, place: usize) -> &T
        requires within { place < length self.now }
        ensures item { slice_get self.now place ≡ Some result.now }
    {
        &self.rows[place]
    }

    /// The item at a place. When the borrow ends, the list has what was left there.
    pub fn at_mut(&mut self, place: usize) -> &mut T
        requires within { place < length self.old }
        ensures* writes_back { sem 𝓛 (LendsItem T.row self.entry place result) }
        ensures item { slice_get self.old place ≡ Some result.now }
    {
        &mut self.rows[place]
    }

    /// Takes the last item. `None` exactly where the list is empty.
    pub fn pop(&mut self) -> Option<T>
        ensures last { MatchOption result ((self.old ≡ []) × (self.new ≡ [])) (λ x. self.old ≡ self.new ++ x ∷ []) }
    {
        self.rows.pop()
    }
}

impl<T: Drop> Items<T> {
    /// Appends an item. Without memory the item is dropped and the list is as it was.
    pub fn push(&mut self, item: T) -> Result<(), NoMemory>
        ensures ok { OnOk result (self.new ≡ self.old ++ item ∷ []) }
        ensures err { OnErr result (self.new ≡ self.old) }
    {
        self.rows.push(item)?;
        Ok(())
    }
}
