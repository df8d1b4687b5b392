//! Many actors on one thread: every waiting message is brought to its actor, and the runs of all are linked.
//!
//! `System::new` makes the actors of a plan, with the posts of the feeds waiting; `step` brings the first post of each
//! link, which is an actor and a source that sends to it, to its actor; `run_to_end` steps until nothing waits, which
//! it always comes to, since a step leaves less work (`work_law` of `schedule_law`); `finish` gives the run. A contract
//! sees a system as a `Serving`: the plan, the limits, all posts of the feeds, how far each actor has come in each, and
//! the actors with their outboxes. `system_in` is the system of a schedule that it stands at. So `step` is some steps
//! of a schedule, in the order of `links_of`, and the run of `finish` is the one that the last system shows, and is
//! linked to the feeds that `new` was given.
//!
//! No waiting list is copied or moved: a feed's posts stay where they are, and each actor has a place among them.
//!
//! Only tested: that `new`, `step` and `run_to_end` don't answer `NoMemory` with ample memory.
#![tactic(auto)]

mod feed;
mod opening;
mod runs;
mod source;
mod system;

pub use system::System;
