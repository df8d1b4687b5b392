//! One block of numbers.
ghost use Rattle.std.specs.Prelude.{ℕ, ◌≡◌, suc, ◌-◌, ◌<◌, ◌≤◌, ◌++◌, ◌∷◌, [], List, length, slice_index, IfOk, OnOk, OnErr};
ghost use Rattle.std.specs.List.{remove};

use join_base::NoMemory;
use std::alloc::Global;
use std::collections::VecDeque;
use std::marker::Model;

/// Numbers in a ring buffer. A contract sees the list of them.
#[derive(Drop)]
pub struct Block {
    numbers: VecDeque<u32>,
}

impl Model for Block {
    ghost Value = { List ℕ };

    ghost view = { λ b. b.numbers.items };
}

impl Block {
    /// A block with one number, and with room for so many.
    pub fn with_first(alloc: Global, room: usize, number: u32) -> Result<Block, NoMemory>
        ensures { IfOk result (λ b. b ≡ number ∷ []) }
    {
        let mut numbers = VecDeque::with_capacity(alloc, room)?;
        numbers.push_back(number)?;
        Ok(Block { numbers })
    }

    /// How many numbers it has.
    #[inline]
    pub fn len(&self) -> usize
        ensures { result ≡ length self.now }
    {
        self.numbers.len()
    }

    /// The number at a place.
    #[inline]
    pub fn at(&self, place: usize) -> u32
        requires { place < length self.now }
        ensures { result ≡ slice_index self.now place }
    {
        self.numbers[place]
    }

    /// Puts a number at the end.
    pub fn push_back(&mut self, number: u32) -> Result<(), NoMemory>
        ensures ok { OnOk result (self.new ≡ self.old ++ number ∷ []) }
        ensures err { OnErr result (self.new ≡ self.old) }
    {
        self.numbers.push_back(number)?;
        Ok(())
    }

    /// Takes the last number out.
    pub fn take_last(&mut self) -> u32
        requires { 0 < length self.old }
        ensures { self.old ≡ self.new ++ result ∷ [] }
    {
        match self.numbers.pop_back() {
            Some(last) => last,
            None => 0,
        }
    }

    /// Takes the last number out and puts one at the front.
    pub fn shift(&mut self, number: u32) -> u32
        requires { 0 < length self.old }
        ensures { self.new ++ result ∷ [] ≡ number ∷ self.old }
    {
        match self.numbers.pop_back() {
            Some(last) => {
                self.numbers.push_front_reserved(number);
                last
            }
            None => number,
        }
    }

    /// Takes the number at a place out.
    pub fn remove(&mut self, place: usize)
        requires { place < length self.old }
        ensures { self.new ≡ remove self.old place }
    {
        let _ = self.numbers.remove(place);
    }

    /// Takes the number at a place out and puts one at the front.
    pub fn replace(&mut self, place: usize, number: u32)
        requires { place < length self.old }
        ensures { self.new ≡ number ∷ remove self.old place }
    {
        if let Some(_) = self.numbers.remove(place) {
            self.numbers.push_front_reserved(number);
        }
    }

    /// A place whose number is at least so great, and behind one that is less: by halves.
    pub fn first_from(&self, number: u32) -> usize
        ensures within { result ≤ length self.now }
        ensures less { (i : ℕ) → suc i ≡ result → slice_index self.now i < number }
        ensures reached { result < length self.now → number ≤ slice_index self.now result }
    {
        let mut from = 0;
        let mut end = self.numbers.len();
        while from < end {
            let middle = from + (end - from) / 2;
            if self.numbers[middle] < number {
                from = middle + 1;
            } else {
                end = middle;
            }
        }
        from
    }
}
