//! A turn in hand.
ghost use Rattle.std.specs.Prelude.{◌≡◌};
ghost use Rattle.std.specs.Borrow.{sem};
ghost use Rattle.turn_lock.specs.Lending.{LendsCell, cell_of};

/// A turn at one cell, with the cell. It is no `Drop`, so it can't be let go: only `Turns::release` takes it back.
pub struct Held<C> {
    pub(crate) index: u32,
    pub(crate) cell: C,
}

impl<C> Held<C> {
    /// The cell. When the borrow ends, the turn has the cell that was left there.
    ///
    /// It makes no atomic step, takes no memory and does not wait.
    pub fn cell(&mut self) -> &mut C
        ensures* writes_back { sem 𝓛 (LendsCell C.row self.entry result) }
        ensures value { result.now ≡ cell_of self.old }
    {
        &mut self.cell
    }
}
