//! The pool: the actors of a plan, each behind its lock, on any number of threads.
//!
//! `Pool::new` makes the pool of a plan, a `Poster` for each feed and the first `Helper`; `Helper::split` and `join`
//! make further helpers and take them back. `Poster::post` sends a message to an actor and flags it. `turn` tries once
//! for the turn of an actor, serves it and gives the turn back; none of these waits. `announce` puts the ticket of an
//! actor that is ready. `feed` posts all of a feed, and `work` takes tickets and turns, past a `Gate`, until the feeds
//! have ended; these three may wait. `Pool::close` gives the cells back.
//!
//! `turn_beside`, `feed_beside` and `work_beside` do the same with a `Beside`, which is shown each actor that they take
//! a turn at; `turn`, `feed` and `work` are these calls with `Nobody`. `work_from` is `work` with a `TicketSource`:
//! tickets of its own, beside the pool's queue (`PoolQueue`). `work_from_beside` has both, and is the one loop of all
//! workers. Who writes a source has `take_ticket`, `mark_only` and `unmark_only`, the parts of what `work` does with
//! the queue, and `Pool::actors`, `due` and `feeds_ended`.
//!
//! A contract sees of a helper the view of its seat (`seat_of`) and of its pass (`pass_of`), and of a poster its links,
//! their tag and the view of its seat. A helper goes on (`HelperGoesOn`): it sees no less, and its tries, claims and
//! empty takes don't fall. A turn shows by the tallies that were found and left what it answers; a worker made at least
//! as many claims as it took tickets of actors. What a `Beside` keeps of each actor fits what the helper has seen of it
//! (`FitsSeen`). Between any two atomic steps, in every schedule, a cell that nobody has the turn of is lawful, by the
//! rule of the lock.
//!
//! Not said: that the calls answer `Ok` where memory is ample, that a turn is ever got, who announces whom, or that
//! `feed`, `work` and `announce` return. Its tests are those of `thread_tests`.
#![tactic(auto)]

mod announcing;
mod beside;
mod closing;
mod failing;
mod feeding;
mod gate;
mod helper;
mod making;
mod marking;
mod nobody;
mod opening;
mod pool;
mod poster;
mod posting;
mod room;
mod sharing;
mod source;
mod taking;
mod turning;
mod working;

pub use announcing::{announce, due};
pub use beside::Beside;
pub use feeding::{feed, feed_beside};
pub use gate::{FreeGate, Gate};
pub use helper::Helper;
pub use marking::{mark_only, unmark_only};
pub use nobody::Nobody;
pub use pool::Pool;
pub use poster::Poster;
pub use source::{PoolQueue, TicketSource};
pub use taking::take_ticket;
pub use turning::{TurnFault, turn, turn_beside};
pub use working::{feeds_ended, work, work_beside, work_from, work_from_beside};
