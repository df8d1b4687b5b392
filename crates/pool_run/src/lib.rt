//! Running a plan on threads: one for each feed, and workers.
//!
//! `run_with` makes the pool of a plan (`actor_pool`), gives each feed and each worker a thread, waits until all have
//! ended, and finishes. Each thread has something beside the pool (`Beside`), which comes back, and each worker has a
//! source of tickets (`TicketSource`). `run_pool` is that call with nobody beside and the pool's queue alone, and
//! `run_stealing` with a deque for each worker (`steal_pool`). `finish` closes a pool that has all its parts, brings
//! what still waits to the actors (`pool_settling`), and gives the run that they show. It does not wait.
//!
//! A contract sees of these three runs what `actor_system` says of a run on one thread: the run is linked to the feeds,
//! and it is that of one schedule of single steps. What stood beside fits, of each actor, what arrived at it in the run
//! (`FitsRun`). `finish` says of its run that it is linked to whatever the posters sent, and that each actor's arrivals
//! go on from what the helper had seen of it, with the stamps that they carried.
//!
//! Only tested, by `thread_tests`: that the calls answer `Ok` where memory is ample, with no worker and with several,
//! and that two workers are at their turns at once. Not said: that a run returns, that a thread is ever started, or
//! that a worker gets a turn.
#![tactic(auto)]

mod finishing;
mod handing;
mod parts;
mod running;
mod stealing;
mod threads;

pub use finishing::finish;
pub use running::{run_pool, run_with};
pub use stealing::run_stealing;
