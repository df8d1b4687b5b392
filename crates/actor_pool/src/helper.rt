//! A helper. It stands in a file alone, since the words on it import this file.

use actor_cells::{ActorSet, Cell};
use ready_queue::TicketPass;
use turn_lock::TurnSeat;

/// What one thread takes turns and tickets with. Contracts see the view of its seat (`seat_of`) and that of its pass
/// (`pass_of`).
///
/// The first helper comes from `Pool::new`, and the others from `Helper::split`. It may be sent to another thread.
#[derive(Drop)]
pub struct Helper {
    pub(crate) seat: TurnSeat<Cell>,
    pub(crate) pass: TicketPass,
    pub(crate) noted: Noted,
}

/// What the latest turn of a helper left to be announced: nothing, where another seat was at the actor. No clause
/// speaks of it.
#[derive(Clone, Copy)]
pub(crate) struct Noted {
    // The actor of the turn.
    pub(crate) actor: u32,
    // The actors that the turn sent something to.
    pub(crate) moved: ActorSet,
    // The actor may have more to do.
    pub(crate) again: bool,
    // The actor has a post whose link was full.
    pub(crate) held: bool,
    // The actor took some messages.
    pub(crate) brought: bool,
    // The actors that waited for room, where it took some.
    pub(crate) roomy: ActorSet,
}
