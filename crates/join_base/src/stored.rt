//! Bytes that stand in place where they are few.
ghost use Rattle.std.specs.Prelude.{◌≡◌, IfOk, IfSome};
ghost use Rattle.join_base.specs.Stored.{stored_bytes};

use crate::items::NoMemory;
use std::alloc::Global;
use std::marker::Model;

/// At most `PLACE` bytes, and no more than 255.
#[derive(Drop)]
pub(crate) struct InPlace<const PLACE: usize> {
    count: u8,
    cells: [u8; PLACE],
}

impl<const PLACE: usize> Model for InPlace<PLACE> {
    ghost use Rattle.std.specs.Prelude.{◌≡◌, ◌≤◌, ℕ, List, length, take};

    ghost Value = { List ℕ };

    ghost view = { λ a. take a.count a.cells };

    ghost invariant = { λ a. (a.count ≤ PLACE) × (length a.cells ≡ PLACE) };
}

impl<const PLACE: usize> InPlace<PLACE> {
    /// These bytes, where they are few.
    #[inline]
    fn from_slice(bytes: &[u8]) -> Option<Self>
        ensures same { IfSome result (λ few. few ≡ bytes.now) }
    {
        let count = bytes.len();
        if count > PLACE || count > 255 {
            return None;
        }
        let mut cells = [0; PLACE];
        cells[..count].copy_from_slice(bytes);
        Some(InPlace {
            count: count as u8,
            cells,
        })
    }

    #[inline]
    fn as_slice(&self) -> &[u8]
        ensures same { result.now ≡ self.now }
    {
        &self.cells[..self.count as usize]
    }
}

/// Bytes in place, or in a block that has no more of them.
#[derive(Drop)]
pub(crate) enum Stored<const PLACE: usize> {
    InPlace(InPlace<PLACE>),
    Block(Box<Vec<u8>>),
}

impl<const PLACE: usize> Stored<PLACE> {
    /// These bytes. Few of them take no memory.
    #[inline]
    pub(crate) fn from_slice(alloc: Global, bytes: &[u8]) -> Result<Self, NoMemory>
        ensures same { IfOk result (λ stored. stored_bytes stored ≡ bytes.now) }
    {
        match InPlace::from_slice(bytes) {
            Some(few) => Ok(Stored::InPlace(few)),
            None => {
                let own = bytes.to_vec(alloc)?;
                Ok(Stored::Block(Box::new(alloc, own)?))
            }
        }
    }

    #[inline]
    pub(crate) fn as_slice(&self) -> &[u8]
        ensures same { result.now ≡ stored_bytes self.now }
    {
        match self {
            Stored::InPlace(few) => few.as_slice(),
            Stored::Block(own) => own.as_slice(),
        }
    }
}
