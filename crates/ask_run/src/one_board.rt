//! An answerer that is known to be of one board.
ghost use Rattle.std.specs.Prelude.{ℕ, []};
ghost use Rattle.ask_board.specs.Rows.{Rows};

use answerer::Answerer;
use std::marker::{Brand, PhantomData};

/// A board, by the names of its cells.
pub(crate) trait OneBoard {
    ghost cells: { Rows ℕ };
}

impl OneBoard for Brand {
    ghost cells = { [] };
}

/// An answerer, which as long as it fits is of that board.
#[derive(Drop)]
pub(crate) struct Teller<'a, K: OneBoard> {
    pub(crate) answerer: Answerer<'a>,
    pub(crate) of: PhantomData<K>,
}
