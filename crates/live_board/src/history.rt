//! The history of a board: the records that were made for it, in order. A thread has a beginning of it, with its
//! length. Of two beginnings of one history the shorter begins the longer.
ghost use Rattle.std.specs.Prelude.{◌≡◌, ◌++◌, ◌∷◌, [], MatchBool};
ghost use mathlib.Core.List.{IsPrefix};
ghost use Rattle.live_board.specs.History.{front_book, front_records, head_of};

use crate::front::{Front, Head};
use crate::history_rule::{Add, HistoryRule, Nothing};
use crate::record::Record;
use logbook::{Offer, Seen, Start, Word};

/// A new history, in which nothing stands.
pub(crate) fn open() -> (Head, Front)
    ensures head { result.0.word ≡ head_of (front_book result.1) }
    ensures empty { front_records result.1 ≡ [] }
{
    let (seen, mut first, _second) = Seen::open(Start::alone(), 0, 0);
    let head = Head {
        word: Word::tracked(0, &mut first),
    };
    (head, Front { count: 0, seen })
}

impl Front {
    /// A copy.
    pub(crate) fn again(&self) -> Front
        ensures same { result ≡ self.now }
    {
        Front {
            count: self.count,
            seen: self.seen.again(),
        }
    }

    /// Whether this one begins the other. Else the other begins this one.
    pub(crate) fn begins(&self, other: &Front) -> bool
        requires book { front_book other.now ≡ front_book self.now }
        ensures begins { MatchBool result (IsPrefix (front_records self.now) (front_records other.now))
            (IsPrefix (front_records other.now) (front_records self.now)) }
    {
        // Both begin what they have seen together.
        let mut both = self.seen.again();
        both.learn(&other.seen);
        self.count <= other.count
    }

    /// Adds a record to the history behind this beginning, which is the whole then. False where the history was longer,
    /// or can't be counted further.
    pub(crate) fn add(&mut self, head: &Head, item: Record) -> bool
        requires head { head.now.word ≡ head_of (front_book self.old) }
        ensures book { front_book self.new ≡ front_book self.old }
        ensures added { MatchBool result (front_records self.new ≡ front_records self.old ++ item ∷ [])
            (front_records self.new ≡ front_records self.old) }
    {
        if self.count == u64::MAX {
            return false;
        }
        let mut seen = self.seen.again();
        let mut offer: Offer<Record, u64, HistoryRule, Nothing> = seen.plain::<
            Nothing,
            Record,
            Add,
        >(&item);
        let mut pen = seen.no_pen();
        let count = self.count;
        let found = head
            .word
            .compare_exchange::<Add, Nothing>(count, count + 1, &mut seen, &mut offer, &mut pen);
        if found != count {
            return false;
        }
        *self = Front {
            count: count + 1,
            seen,
        };
        true
    }
}
