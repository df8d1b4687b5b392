//! Serving one of the cells of a plan.
ghost use Rattle.std.specs.Prelude.{◌≡◌, ◌<◌, length};
ghost use Rattle.actor_cells.specs.AllLawful.{AreLawful};
ghost use Rattle.actor_cells.specs.Prepared.{IsServedAt, cells_of};

use crate::cell::Cell;
use crate::cells::Cells;
use crate::serving::Turned;
use join_base::{NoMemory, Steps};
use std::alloc::Global;
use std::sync::ledger::Ledger;

impl Cells {
    /// How many cells there are.
    pub fn len(&self) -> usize
        ensures { result ≡ length (cells_of self.now) }
    {
        self.cells.len()
    }

    /// Serves the cell of an actor, as `Cell::serve` does. The other cells stay as they are.
    pub fn serve<L: Ledger>(
        &mut self,
        alloc: Global,
        actor: u32,
        steps: &mut Steps<L>,
    ) -> Result<Turned, NoMemory>
        requires exists { actor < length (cells_of self.old) }
        requires lawful { AreLawful (cells_of self.old) }
        ensures served { IsServedAt actor (cells_of self.old) (cells_of self.new) result }
        ensures lawful { AreLawful (cells_of self.new) }
    {
        let cell = &mut self.cells[actor as usize];
        cell.serve(alloc, steps)
    }

    /// The cells, in order. It takes no memory.
    pub fn into_cells(self) -> Vec<Cell>
        ensures { result.items ≡ cells_of self }
    {
        let Cells { cells } = self;
        cells
    }
}
