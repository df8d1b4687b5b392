//! What lies under a turn, and lists of it.
ghost use Rattle.std.specs.Prelude.{List};

use join_base::Items;

/// Cells, in order, which contracts see as a list. It goes into a lock and comes out of it.
pub type CellList<C> = Items<C>;

/// What a lock keeps: a value that is had by one thread at a time and whose history only grows.
///
/// The trait has no calls. Its members say what a cell means, for contracts alone. Tags, entries and tallies are read
/// in clauses and never made, so a type of them may say what has no value in Rust.
pub trait TurnCell: Drop {
    /// What stays of a cell, as its settings. No turn changes it.
    type Tag;

    /// An item of the history.
    type Entry;

    /// What is noted of a cell when its turn is got and when it is given back, as its counts.
    type Tally;

    ghost tag: { Self → Self.Tag };

    // The cell is as its tag asks.
    ghost lawful: { Self → Type 0 };

    // What happened to the cell, the oldest first. Each turn leaves a list that begins with the one it found.
    ghost history: { Self → List Self.Entry };

    ghost tally: { Self → Self.Tally };
}
