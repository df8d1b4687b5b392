//! A pass. It stands in a file alone, since the words on it import this file.
ghost use Rattle.std.specs.Prelude.{◌≡◌, ◌≤◌};
ghost use Rattle.crossbeam_deque.specs.Handles.{worker_flavor, worker_port};

use crate::plays::InOrder;
use crate::thief::Thief;
use crate::view::DequeView;
use crossbeam_deque::Worker;
use crossbeam_deque::protocol::Protocol;
use join_base::Items;
use std::alloc::Global;

/// What one worker puts and takes tickets with: it owns a deque, and steals from each other one. A ticket is a number
/// below the number that the deques were made for.
///
/// Passes come from `deques`. A pass may be sent to another thread.
#[derive(Drop)]
pub struct StealPass<P: Protocol<u32, DequeView> = InOrder> {
    pub(crate) own: Worker<u32, Global, DequeView, P>,
    // From the deque with the next number upwards.
    pub(crate) others: Vec<Thief<P>>,
    pub(crate) actors: u32,
    // Whether a worker looks into the pool's queue first, the next time.
    pub(crate) queue_first: bool,
    ghost fifo: { worker_flavor own ≡ 0 },
    ghost owner: { worker_port own ≡ 0 },
    ghost few: { actors ≤ 32 },
}

/// Passes, in the order of the numbers of their deques.
pub type StealPassList<P> = Items<StealPass<P>>;
