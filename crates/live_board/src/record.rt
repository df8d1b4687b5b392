//! A record of the board.

use crate::totals::Totals;
use join_base::Items;

/// The totals of one actor, as they stood when the record was made.
#[derive(Clone, Copy, PartialEq, Eq, Debug)]
pub struct Record {
    /// The actor, counted from 0.
    pub actor: u32,
    pub totals: Totals,
}

/// Records, the oldest first. Contracts see a list.
pub type RecordList = Items<Record>;
