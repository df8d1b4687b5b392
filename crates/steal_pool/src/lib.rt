//! Deques of tickets, one for each worker: its owner puts tickets at the back, and any worker takes them at the front.
//!
//! `deques` makes a pass for each worker. `StealPass::put` adds a ticket at the back of the pass's own deque.
//! `StealPass::take` takes the one in front of it, or else steals that of another deque, or finds none in any. A pass
//! is a `TicketSource` of `actor_pool`, and `work_stealing` is a worker of a pool that has its tickets there. By turns
//! it looks into the deques first and into the pool's queue first. So no ticket waits for ever behind those of actors
//! that stay ready.
//!
//! A contract sees of a pass its views (`views_of`), one for each deque, its own first: the tickets that it put there
//! and those that it took, in order. A pass is made for a rule on deques, `P`, of which the calls know nothing. Who
//! puts or takes shows that the rule is kept (`MayPut`, `MayTakeAny`), and is told what it says at a moment of the
//! call. So an answer needs a look: that a deque was empty is only known from the rule at an empty deque. By the rule
//! in use, `InOrder`, the tickets gone and then those that wait are the tickets put, and each that is gone was taken
//! once (`DequeRule`). `deque_law` says of a family of queues, as lists, what first in, first out comes to.
//!
//! Only tested, by `thread_tests`: that the calls answer `Ok` where memory is ample, and that between two threads no
//! ticket is lost. Not said: that `take` and `work_stealing` return, or that a ticket is ever taken.
#![tactic(auto)]

mod law;
mod making;
mod pass;
mod plays;
mod putting;
mod stealing;
mod taking;
mod thief;
mod view;

pub use law::deque_law;
pub use making::deques;
pub use pass::{StealPass, StealPassList};
pub use plays::InOrder;
pub use stealing::work_stealing;
pub use view::DequeView;
