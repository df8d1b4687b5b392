//! The pool. It stands in a file alone, since the words on it import this file.
ghost use Rattle.std.specs.Prelude.{◌≡◌, ◌≤◌};
ghost use Rattle.turn_lock.specs.Seats.{cell_count};
ghost use Rattle.ready_queue.specs.Passes.{ticket_count};

use actor_cells::Cell;
use ready_queue::Tickets;
use std::sync::atomic::AtomicU64;
use turn_lock::Turns;

/// The actors of a plan, each behind its lock, and the tickets of those that are ready. All threads share it.
#[derive(Drop)]
pub struct Pool {
    pub(crate) turns: Turns<Cell>,
    pub(crate) tickets: Tickets,
    // How many feeds have ended. No clause rests on it.
    pub(crate) ended: AtomicU64,
    // 1 once a thread found no memory. No clause rests on it.
    pub(crate) failed: AtomicU64,
    // The actors that wait for room on a link, as the bits of an `ActorSet`. No clause rests on it.
    pub(crate) waiting: AtomicU64,
    pub(crate) feeds: u32,
    pub(crate) actors: u32,
    ghost few: { actors ≤ 32 },
    ghost counted: { cell_count turns ≡ actors },
    ghost ticketed: { ticket_count tickets ≡ actors },
}
