//! A board: the totals of each actor.
ghost use Rattle.std.specs.Prelude.{◌≡◌, ◌≤◌, [], IfOk, length, take};
ghost use Rattle.live_board.specs.Folding.{board_of, with_record};

use crate::record::Record;
use crate::totals::{NO_TOTALS, Totals};
use join_base::NoMemory;
use std::alloc::Global;
use std::marker::Model;

/// The totals of actors, in order. Contracts see a list.
#[derive(Drop)]
pub struct Board {
    rows: Vec<Totals>,
}

impl Model for Board {
    ghost use Rattle.std.specs.Prelude.{List};
    ghost use Rattle.live_board.specs.declared.totals.Totals.{Totals as OneTotals};

    ghost Value = { List OneTotals };

    ghost view = { λ b. b.rows.items };
}

impl Board {
    /// The board of so many actors of which no record was made: all totals are zero.
    pub fn new(alloc: Global, actors: u32) -> Result<Board, NoMemory>
        ensures opening { IfOk result (λ board. board ≡ board_of actors []) }
        ensures rows { IfOk result (λ board. length board ≡ actors) }
    {
        let rows = Vec::from_elem(alloc, NO_TOTALS, actors as usize)?;
        Ok(Board { rows })
    }

    /// The totals of each actor, in order.
    pub fn rows(&self) -> &[Totals]
        ensures same { result.now ≡ self.now }
    {
        self.rows.as_slice()
    }

    // How many actors it has.
    pub(crate) fn len(&self) -> usize
        ensures same { result ≡ length self.now }
    {
        self.rows.len()
    }

    // All totals are zero again.
    pub(crate) fn clear(&mut self)
        ensures opening { self.new ≡ board_of (length self.old) [] }
    {
        self.rows.as_mut_slice().fill(NO_TOTALS);
    }

    // The first of these totals, one for each actor.
    pub(crate) fn copy_from(&mut self, totals: &[Totals; 32])
        requires few { length self.old ≤ 32 }
        ensures first { self.new ≡ take (length self.old) totals.now }
    {
        let count = self.rows.len();
        self.rows.as_mut_slice().copy_from_slice(&totals[..count]);
    }

    // The record replaces its actor's totals.
    pub(crate) fn enter(&mut self, item: Record)
        ensures entered { self.new ≡ with_record self.old item }
    {
        let place = item.actor as usize;
        if place < self.rows.len() {
            self.rows[place] = item.totals;
        }
    }
}
