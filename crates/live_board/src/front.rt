//! A beginning of a history. It stands in a file alone, since the words on it import this file.
ghost use Rattle.std.specs.Prelude.{◌≡◌, length};

use crate::history_rule::HistoryRule;
use crate::record::Record;
use logbook::{Seen, Word};

/// The length of the history, in one word.
#[derive(Drop)]
pub struct Head {
    pub(crate) word: Word<Record, u64, HistoryRule>,
}

/// A beginning of the history, and its length.
#[derive(Drop)]
pub struct Front {
    pub(crate) count: u64,
    pub(crate) seen: Seen<Record, u64, HistoryRule>,
    ghost counted: { count ≡ length seen.log },
}
