//! The lock. It stands in a file alone, since the words on it import this file.
ghost use Rattle.std.specs.Prelude.{◌≡◌, ◌<◌};

use crate::cell::TurnCell;
use crate::plays::Ruled;
use crate::view::View;
use atomic_table::Table;
use std::alloc::Global;
use std::snapshot::Snapshot;

/// Cells, each under a lock of its own: one word, and one slot where the cell lies while nobody has its turn.
///
/// After each atomic step, however threads are scheduled, the words, the slots and the views of all seats fit together
/// as the turn rule says.
#[derive(Drop)]
pub struct Turns<C: TurnCell> {
    pub(crate) table: Table<
        Option<C>,
        View<C::Tag, C::Entry, C::Tally>,
        Snapshot<Vec<C>>,
        Ruled<C>,
        Global,
    >,
    ghost sized: { table.shared.table_id.words ≡ table.shared.table_id.slots },
    ghost some: { 0 < table.shared.table_id.slots },
}
