//! Whatever the schedule of single steps, it ends, and a system at which nothing waits shows a linked run.
//!
//! - `schedule_law` is a law on a function without a body, over every system that some schedule reaches from the
//!   opening states with the feeds waiting (`IsReached`, specs/Reached).
//! - `work_law` says that each step of such a schedule leaves less work (specs/WorkLeft), so there is an end.
//! - `given_law` says the same of a system that no schedule is known to reach, where each actor did the fair steps of
//!   what it was given, and nothing that went over a link is lost (specs/Given).
//!
//! All ask for a plan and feeds that a system can be made of (`IsServable`), and the first and the last that nothing
//! waits for an actor of the plan in the end (`NothingWaits`). There is no code here, and no test.
#![tactic(auto)]

mod law;

pub use law::{given_law, schedule_law, work_law};
