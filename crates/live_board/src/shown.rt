//! How the board is published, and its rule.
ghost use Rattle.std.specs.Prelude.{◌≡◌, [], ◌∷◌, ◌++◌, IfSome};
ghost use Rattle.live_board.specs.History.{front_book, front_records, head_of};

use crate::front::{Front, Head};
use crate::record::Record;
use crate::snapshot::Snapshot;
use crate::totals::NO_TOTALS;
use atomic_table::{Join, Split};
use crossbeam_utils::rule::{Outcome, Protocol};
use left_right::Absorb;
use std::alloc::AllocError;
use std::collections::LinkedList;

/// What a seat has seen of the board, the latest first. No value of it is made.
pub type Sights = LinkedList<Snapshot>;

/// What was published is replaced whole.
impl Absorb<Snapshot> for Snapshot {
    ghost use Rattle.live_board.specs.declared.snapshot.Snapshot.{Snapshot as Whole};

    type State = Snapshot;

    ghost state = { λ whole. whole };

    ghost applied = { λ before next. next };

    ghost never_fails = { Unit {0} };

    fn absorb_first(&mut self, operation: &Snapshot, _other: &Snapshot) -> Result<(), AllocError> {
        *self = operation.again();
        Ok(())
    }
}

/// The board's rule: what any seat has seen begins what is published.
pub struct BoardRule;

impl Protocol<Snapshot, Sights> for BoardRule {
    ghost use Rattle.std.specs.Prelude.{[]};
    ghost use Rattle.live_board.specs.BoardRule.{AllBegin};

    ghost holds = { AllBegin };

    ghost first = { [] };
}

/// A seat sees what is published, or publishes it.
pub struct Sees;

impl Outcome<Snapshot, Sights> for Sees {
    ghost use Rattle.live_board.specs.BoardRule.{SeesNext};

    ghost then = { SeesNext };
}

/// The writer tells a reader all that it has seen.
pub struct Tells;

impl Split<Sights> for Tells {
    ghost left = { λ v. v };

    ghost right = { λ v. v };
}

impl Join<Sights> for Tells {
    ghost use Rattle.std.specs.Prelude.{[], ◌++◌};

    ghost both = { λ v w. v ++ w };

    ghost spent = { [] };
}

impl Snapshot {
    /// The board of a history in which nothing stands.
    pub(crate) fn opening(front: Front) -> Snapshot
        requires empty { front_records front ≡ [] }
        ensures front { result.front ≡ front }
    {
        Snapshot {
            totals: [NO_TOTALS; 32],
            front,
        }
    }

    /// A copy.
    pub(crate) fn again(&self) -> Snapshot
        ensures same { result ≡ self.now }
    {
        Snapshot {
            totals: self.totals,
            front: self.front.again(),
        }
    }

    /// The next board, with a record more, which comes to the history. None where the history is longer.
    pub(crate) fn next(&self, head: &Head, item: Record) -> Option<Snapshot>
        requires head { head.now.word ≡ head_of (front_book self.now.front) }
        ensures book { IfSome result (λ next. front_book next.front ≡ front_book self.now.front) }
        ensures next { IfSome result (λ next. front_records next.front ≡ front_records self.now.front ++ item ∷ []) }
    {
        let mut front = self.front.again();
        if !front.add(head, item) {
            return None;
        }
        let mut totals = self.totals;
        let place = item.actor as usize;
        if place < 32 {
            totals[place] = item.totals;
        }
        Some(Snapshot { totals, front })
    }
}
