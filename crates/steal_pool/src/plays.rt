//! The rule of a deque, and what its kinds of step do to a view. These types are for proofs alone.
ghost use Rattle.std.specs.Prelude.{◌≡◌};
ghost use Rattle.steal_pool.specs.View.{new_view, with_put, with_taken, with_none};
ghost use Rattle.steal_pool.specs.Moments.{WasAt, WasEmpty};
ghost use Rattle.steal_pool.specs.Rule.{DequeRule};

use crate::view::DequeView;
use crossbeam_deque::protocol::{Outcome, Protocol, Split};
use std::marker::PhantomData;

/// The rule that the tickets gone and then those that wait are the tickets put.
pub struct InOrder;

impl Protocol<u32, DequeView> for InOrder {
    ghost holds = { DequeRule };

    ghost first = { new_view };

    ghost guest = { new_view };
}

// A ticket is put.
pub(crate) struct Put;

impl Outcome<u32, DequeView> for Put {
    ghost then = { λ v xs w. w ≡ with_put xs v };
}

// The ticket in front is taken. Where there is none, the rule held of an empty deque.
pub(crate) struct Take<P> {
    rule: PhantomData<P>,
}

impl<P: Protocol<u32, DequeView>> Outcome<u32, DequeView> for Take<P> {
    ghost then = { λ v xs w. (w ≡ with_taken xs v) × WasAt P.holds v xs };

    ghost empty = { WasEmpty P.holds };
}

// A take that found none in any deque is counted. The pass that this makes too is let go.
pub(crate) struct CountNone;

impl Split<DequeView> for CountNone {
    ghost left = { with_none };

    ghost right = { λ _. new_view };
}
