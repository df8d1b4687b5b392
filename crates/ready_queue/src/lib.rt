//! Tickets: numbers that any number of threads put into one queue and take out of it, first in, first out, each once.
//!
//! Calls: `Tickets::new` makes a queue and its first pass. `put` adds a ticket at the back, or finds the queue full,
//! and `take` takes the one in front, or finds none. `split_pass` makes a pass for another thread, and `join_pass`
//! takes it back. `put` and `take` may wait for other threads, and after `new` no call takes memory.
//!
//! A contract sees of a pass its view (`view_of`): its role, the tickets that it put and those that it took, in order,
//! and how often it was refused. Whatever the threads do, what all passes put is what they took and what waits
//! (`TicketRule`). As long as no other pass was made, the queue is first in, first out by its clauses, and refuses a
//! put only where it is full and a take only where it is empty. `ticket_law` says of a queue as a list what first in,
//! first out comes to.
//!
//! With others, a refusal and the ticket that is taken are told of a moment of the call. `put` and `take` are generic
//! in the rule of the queue, `P`, of which they know only what the caller shows: that it is kept by this pass in this
//! state (`MayPut`, `MayTake`). They are told what it says at that moment. So no answer can be made up without the step
//! that tells it. The rule in use is `Balance`, and its callers show it in one line.
//!
//! Only tested, by `thread_tests`: that `new` and `split_pass` answer `Ok` where memory is ample, and that between two
//! threads no ticket is lost. Not said: that `put` and `take` return, or that a ticket is ever taken.
#![tactic(auto)]

mod pass;
mod plays;
mod queue;
mod tickets;
mod view;

pub use pass::TicketPass;
pub use plays::Balance;
pub use queue::{Full, ticket_law};
pub use tickets::Tickets;
pub use view::{PassRole, PassView};
