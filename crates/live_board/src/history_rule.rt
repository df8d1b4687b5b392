//! The rule of a board's history, and its one step. The history is a book of `logbook`: it stands in proofs alone.

use crate::record::Record;
use logbook::{Gain, Plain, Play, Rule};

/// The rule of the book: its word is the length of the history.
pub struct HistoryRule;

impl Rule<Record, u64> for HistoryRule {
    ghost use Rattle.std.specs.Prelude.{[]};
    ghost use base.Fml.{ftrue};
    ghost use Rattle.live_board.specs.HistoryRule.{IsCounted};

    ghost holds = { IsCounted };

    ghost first = { [] };

    ghost hinted = { λ n log. Unit {0} };

    ghost shows = { λ log. [] };

    ghost keeps = { λ names log. ftrue };

    ghost moves = { λ ask before after answer. Unit {0} };
}

/// Nobody trades anything.
pub struct Nothing;

impl Gain<Record, u64> for Nothing {
    ghost use base.Fml.{ftrue};

    ghost after = { λ names about answer. ftrue };
}

/// A step that adds a record.
pub struct Add;

impl Play<Record, u64> for Add {
    ghost use Rattle.live_board.specs.HistoryRule.{Adds};

    ghost then = { Adds };
}

impl Plain<Record, Record, u64> for Add {
    ghost use Rattle.std.specs.Prelude.{None};

    ghost ask = { λ item. item };

    ghost state = { λ item. None };
}
