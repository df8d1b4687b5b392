//! The cells of a plan.

use crate::cell::Cell;

/// The cells of the actors of a plan, in order. Contracts see them by `cells_of`.
#[derive(Drop)]
pub struct Cells {
    pub(crate) cells: Vec<Cell>,
}
