//! What a seat knows. Contracts read these types, and no value of them is ever made.

use std::collections::LinkedList;

/// A seat has no turn, or the turn of one cell, whose history it found.
pub enum Turn<E> {
    Free,
    /// The number of the cell, and its history when the turn was got.
    Has(u64, LinkedList<E>),
}

/// What part a seat has in its lock.
pub enum Role {
    /// The seat that came with the lock. It knows how many seats are out.
    First(u64),
    /// A seat that was split off.
    Other,
    /// A seat that was joined away.
    Spent,
}

/// How often the steps of seats changed the bits FLAG and QUEUED of one word. A step that finds a bit as it leaves it
/// does not count here.
pub struct Changes {
    /// Flags that found no FLAG.
    pub flag_set: u64,
    /// Clears that found FLAG.
    pub flag_cleared: u64,
    /// Marks that found no QUEUED.
    pub mark_set: u64,
    /// Unmarks that found QUEUED.
    pub mark_cleared: u64,
}

/// The view of a seat: what its thread knows of the lock, and what it did there. Each list has one place for each cell.
pub struct View<G, E, L> {
    pub role: Role,
    /// The tags of the cells.
    pub tags: LinkedList<G>,
    /// For each cell, the beginning of its history that was seen.
    pub seen: LinkedList<LinkedList<E>>,
    /// For each cell, the shorter of the two lists seen at the latest join. Empty before the first.
    pub met: LinkedList<LinkedList<E>>,
    pub turn: Turn<E>,
    /// How many claims, releases and marks the seat made.
    pub tries: u64,
    /// How many claims alone.
    pub claims: u64,
    /// The cell of the latest try, and the word that it found.
    pub latest: Option<(u64, u64)>,
    /// For each cell, how often the seat flagged it.
    pub flags: LinkedList<u64>,
    /// For each cell, how often the seat took its mark away.
    pub unmarks: LinkedList<u64>,
    /// For each cell, how often the seat cleared its FLAG, which each turn does once.
    pub clears: LinkedList<u64>,
    /// For each cell, what this seat and those that were joined to it changed in its word.
    pub changes: LinkedList<Changes>,
    /// For each cell, how often its FLAG had been set, by all seats, when this seat's latest turn of it began, and once
    /// that turn was given back, when it ended.
    pub requests: LinkedList<u64>,
    /// The tally of the cell when a turn was last got, as a list of one. Empty before the first turn.
    pub found: LinkedList<L>,
    /// The tally of the cell when a turn was last given back, as a list of one. Empty before the first.
    pub left: LinkedList<L>,
}
