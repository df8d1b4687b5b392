//! The numbers of the unconsumed arrivals.
ghost use Rattle.std.specs.Prelude.{◌≡◌, ◌+◌, ◌<◌, ◌≤◌, [], ◌∷◌, ◌++◌, true, All, OnOk, length};
ghost use Rattle.std.specs.List.Sorted.{IsStrictlyIncreasing};
ghost use Rattle.join_base.specs.Taken.{contains_number, without};

use join_base::{Items, NoMemory};
use std::alloc::Global;
use std::marker::Model;

/// The numbers from 1 up to a count, without those that were taken out. Any of them is found and taken out at its
/// place, and the list of those that are left is made without memory.
#[derive(Drop)]
pub struct LiveNumbers {
    // The cell at place n - 1 has n, or 0 once n was taken out.
    cells: Vec<u32>,
    // So many cells at the front are 0. `clear` goes on behind them, and so fills each cell once at most.
    cleared: usize,
}

impl Model for LiveNumbers {
    ghost use Rattle.mailbox_core.specs.Live.{Live, IsKept, live_of};

    ghost Value = { Live };

    ghost view = { live_of };

    ghost invariant = { IsKept };
}

impl LiveNumbers {
    pub fn new(alloc: Global) -> LiveNumbers
        ensures none { result.count ≡ 0 }
        ensures empty { result.numbers ≡ [] }
    {
        LiveNumbers {
            cells: Vec::new(alloc),
            cleared: 0,
        }
    }

    /// Makes room for one more number.
    pub fn reserve_one(&mut self) -> Result<(), NoMemory>
        ensures ok { OnOk result (1 ≤ self.new.room) }
        ensures count { self.new.count ≡ self.old.count }
        ensures numbers { self.new.numbers ≡ self.old.numbers }
        ensures kept { self.old.room ≤ self.new.room }
    {
        self.cells.reserve(1)?;
        Ok(())
    }

    /// Puts the next number behind the others.
    pub fn push(&mut self) -> u32
        requires room { 1 ≤ self.old.room }
        requires few { self.old.count < 1000000 }

        ensures number { result ≡ self.old.count + 1 }
        ensures count { self.new.count ≡ self.old.count + 1 }
        ensures numbers { self.new.numbers ≡ self.old.numbers ++ (self.old.count + 1) ∷ [] }
        ensures room { self.old.room ≤ self.new.room + 1 }
    {
        let number = self.cells.len() as u32 + 1;
        self.cells.push(number).unwrap();
        number
    }

    /// Takes the last number back, which is there.
    pub fn pop(&mut self)
        requires last { contains_number self.old.numbers self.old.count ≡ true }

        ensures count { self.old.count ≡ self.new.count + 1 }
        ensures numbers { self.old.numbers ≡ self.new.numbers ++ self.old.count ∷ [] }
        ensures room { self.new.room ≡ self.old.room + 1 }
    {
        self.cells.pop();
    }

    pub fn contains(&self, number: u32) -> bool
        ensures { result ≡ contains_number self.now.numbers number }
    {
        let cells = self.cells.as_slice();
        if number == 0 || number as usize > cells.len() {
            return false;
        }
        cells[(number - 1) as usize] == number
    }

    /// Takes out a number, if it is there.
    pub fn remove(&mut self, number: u32)
        requires some { 1 ≤ number }
        requires within { number ≤ self.old.count }

        ensures count { self.new.count ≡ self.old.count }
        ensures numbers { self.new.numbers ≡ without self.old.numbers (number ∷ []) }
        ensures room { self.new.room ≡ self.old.room }
    {
        self.cells[(number - 1) as usize] = 0;
    }

    /// Takes out these numbers.
    pub fn remove_all(&mut self, numbers: &[u32])
        requires within { All (λ n. (1 ≤ n) × (n ≤ self.old.count)) numbers.now }

        ensures count { self.new.count ≡ self.old.count }
        ensures numbers { self.new.numbers ≡ without self.old.numbers numbers.now }
        ensures room { self.new.room ≡ self.old.room }
    {
        for number in numbers {
            self.remove(*number);
        }
    }

    /// Takes out every number.
    pub fn clear(&mut self)
        ensures count { self.new.count ≡ self.old.count }
        ensures numbers { self.new.numbers ≡ [] }
        ensures room { self.new.room ≡ self.old.room }
    {
        self.cells[self.cleared..].fill(0);
        self.cleared = self.cells.len();
    }

    /// What is true of the numbers of every list. It does nothing.
    pub fn law(&self)
        ensures recorded { All (λ n. (1 ≤ n) × (n ≤ self.now.count)) self.now.numbers }
        ensures ascending { IsStrictlyIncreasing self.now.numbers }
    {
        let _ = &self.cells;
    }

    /// The numbers that are left, in ascending order.
    pub fn into_items(self) -> Items<u32>
        ensures left { result ≡ self.numbers }
    {
        let LiveNumbers { mut cells, .. } = self;
        cells.retain(|cell| *cell != 0);
        Items::from_vec(cells)
    }
}
