//! The rule of the table below the lock, and its kinds of atomic step.
ghost use Rattle.std.specs.Prelude.{map};
ghost use Rattle.turn_lock.specs.View.{first_view, with_one_more, new_view, joining, spent_view};
ghost use Rattle.turn_lock.specs.Rule.{TurnRule};
ghost use Rattle.turn_lock.specs.Kinds.{FlagTells, MarkTells, UnmarkTells, ClearTells, ClaimTells, ReleaseTells, SettleTells};

use crate::cell::TurnCell;
use crate::view::View;
use atomic_table::{Join, Play, Split, TableRule};
use std::marker::PhantomData;
use std::snapshot::Snapshot;

/// The turn rule, for the tags of the cells that the table was made with.
pub struct Ruled<C> {
    cell: PhantomData<C>,
}

impl<C: TurnCell> TableRule<Option<C>, View<C::Tag, C::Entry, C::Tally>, Snapshot<Vec<C>>>
    for Ruled<C> {
    ghost holds = { λ key. TurnRule C.tag C.lawful C.history (map C.tag key.value.items) };

    ghost first = { λ key. first_view (map C.tag key.value.items) };
}

// FLAG is set in one word.
pub(crate) struct Flag;

impl<S, G, E, L> Play<Option<S>, View<G, E, L>> for Flag {
    ghost then = { FlagTells };
}

// QUEUED is set in one word.
pub(crate) struct Mark;

impl<S, G, E, L> Play<Option<S>, View<G, E, L>> for Mark {
    ghost then = { MarkTells };
}

// QUEUED goes from one word.
pub(crate) struct Unmark;

impl<S, G, E, L> Play<Option<S>, View<G, E, L>> for Unmark {
    ghost then = { UnmarkTells };
}

// FLAG goes from the word of the turn that was just got.
pub(crate) struct Clear;

impl<S, G, E, L> Play<Option<S>, View<G, E, L>> for Clear {
    ghost then = { ClearTells };
}

// RUNNING is set in one word. Where it was not set before, the slot goes to the seat, which has the turn.
pub(crate) struct Claim;

impl<C: TurnCell> Play<Option<C>, View<C::Tag, C::Entry, C::Tally>> for Claim {
    ghost then = { ClaimTells C.tag C.lawful C.history C.tally };
}

// RUNNING goes from the word of the turn, and its slot goes home.
pub(crate) struct Release;

impl<C: TurnCell> Play<Option<C>, View<C::Tag, C::Entry, C::Tally>> for Release {
    ghost then = { ReleaseTells C.history C.tally };
}

// A load of word 0 after a join. It tells that a seat was out, and that what was met begins what was seen.
pub(crate) struct Settle;

impl<S, G, E, L> Play<Option<S>, View<G, E, L>> for Settle {
    ghost then = { SettleTells };
}

// A seat is split off the first one. It loads word 0.
pub(crate) struct Parting;

impl<G, E, L> Split<View<G, E, L>> for Parting {
    ghost left = { with_one_more };

    ghost right = { new_view };
}

// A seat is joined to the first one. It loads word 0.
pub(crate) struct Meeting;

impl<G, E, L> Join<View<G, E, L>> for Meeting {
    ghost both = { joining };

    ghost spent = { spent_view };
}
