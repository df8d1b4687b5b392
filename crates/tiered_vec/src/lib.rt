//! A list of numbers, out of whose middle one goes at a cost that stays small however many there are: a tiered vector
//! (Goodrich and Kloss, "Tiered Vectors", 1999).
//!
//! `TieredVec::new` has no number and takes no memory. `push_back` puts one at the end, `at` reads one, and `remove`
//! takes one out. In numbers that rise, `first_from` finds the first that is at least so great.
//!
//! The numbers stand in blocks, each of which is a ring buffer. All blocks but the first and the last have 2048 of
//! them, so that a place is found by one division. Where a number goes out, the shorter side of its own block moves.
//! Where that is not the last block, one number of each block before it moves to the next. A block whose last number
//! goes is given back.
//!
//! A contract sees a `TieredVec` as the list of its numbers, and the proof the blocks (specs/Tiers).
//! Not claimed: what a call costs.
#![tactic(auto)]

ghost use Rattle.std.specs.Prelude.{ℕ, ◌≡◌, ◌<◌, ◌≤◌, ◌++◌, ◌∷◌, [], List, length, slice_index, OnOk, OnErr};
ghost use Rattle.std.specs.List.{concat, remove};
ghost use Rattle.tiered_vec.specs.Tiers.{IsBegun, IsTiered};

mod block;
mod tiers;

use block::Block;
use join_base::NoMemory;
use std::alloc::Global;
use std::marker::Model;
use tiers::{block_from, numbers_before, place_in, push_in, take_out};

/// A list of numbers. A contract sees the list.
#[derive(Drop)]
pub struct TieredVec {
    blocks: Vec<Block>,
    len: usize,
}

impl Model for TieredVec {
    ghost Value = { List ℕ };

    ghost view = { λ v. concat v.blocks.items };

    ghost invariant = { λ v. (v.len ≡ length (concat v.blocks.items))
        × (IsTiered v.blocks.items × IsBegun v.blocks.items) };
}

impl TieredVec {
    /// A list without a number. It takes no memory.
    pub fn new(alloc: Global) -> TieredVec
        ensures { result ≡ [] }
    {
        TieredVec {
            blocks: Vec::new(alloc),
            len: 0,
        }
    }

    /// How many numbers there are.
    #[inline]
    pub fn len(&self) -> usize
        ensures { result ≡ length self.now }
    {
        self.len
    }

    /// The number at a place.
    pub fn at(&self, place: usize) -> u32
        requires { place < length self.now }
        ensures { result ≡ slice_index self.now place }
    {
        let at = place_in(&self.blocks, place);
        self.blocks[at.block].at(at.within)
    }

    /// Puts a number at the end.
    pub fn push_back(&mut self, alloc: Global, number: u32) -> Result<(), NoMemory>
        ensures ok { OnOk result (self.new ≡ self.old ++ number ∷ []) }
        ensures err { OnErr result (self.new ≡ self.old) }
    {
        let Some(len) = self.len.checked_add(1) else {
            return Err(NoMemory);
        };
        push_in(&mut self.blocks, alloc, number)?;
        self.len = len;
        Ok(())
    }

    /// Takes the number at a place out.
    pub fn remove(&mut self, place: usize)
        requires within { place < length self.old }
        ensures { self.new ≡ remove self.old place }
    {
        take_out(&mut self.blocks, place);
        self.len -= 1;
    }

    /// In numbers that rise, the first place whose number is at least so great, or the end.
    pub fn first_from(&self, number: u32) -> usize
        requires rise { (i j : ℕ) → i < j → j < length self.now → slice_index self.now i < slice_index self.now j }
        ensures within { result ≤ length self.now }
        ensures less { (i : ℕ) → i < result → slice_index self.now i < number }
        ensures reached { result < length self.now → number ≤ slice_index self.now result }
    {
        let len = self.len();
        let block = block_from(&self.blocks, number);
        if block == self.blocks.len() {
            return len;
        }
        numbers_before(&self.blocks, block) + self.blocks[block].first_from(number)
    }
}
