//! What a run that was read should be, by the fair semantics.
//!
//! - `check_log` checks bytes as the log of a run of the plan. It answers the number of arrivals, or that the bytes are
//!   no log, with the line at fault, or the first line in fault of a log.
//! - `replay` gives the expected run of a run that was read: what its log should have said.
//! - `entry_size` and `section_size` are how many lines an entry and a section take.
//! - `lines_law` and `text_law` are laws of lines and log text, `expected_law` and `accepted_law` of runs that are
//!   linked, `linked_law` and `converse_law` of runs that are accepted, and `fits_law` says that an expected run fits
//!   the plan.
//!
//! A contract says by `Checks` (specs/Check) what an answer means, by `expected_run` (specs/Expected) what is expected,
//! and by `IsAccepted` and `IsFirstInFault` (specs/Fault) which lines are in fault. Steps are counted as in
//! `actor_turn`, and no clause bounds them here. Beside the bytes and the run that was read, the memory of `check_log`
//! is that of one actor at a time, of what differs, and, as text, of one entry or of the lines behind an actor's
//! entries. Where each actor records its arrivals as they were read, an actor and its section share their messages and
//! effects. Beside the run that was read, the memory of `replay` is that of the run that it gives. The program
//! `worked_examples` replays whole logs, and `check_logs` replays changed ones and compares expected runs.
#![tactic(auto)]

mod apart;
mod check;
mod expected;
mod fault;
mod handed;
mod kept;
mod law;
mod refusal;
mod replaying;
mod section;
mod settling;
mod shared;

pub use check::check_log;
pub use expected::replay;
pub use kept::{entry_size, section_size};
pub use law::{
    accepted_law, converse_law, expected_law, fits_law, lines_law, linked_law, text_law,
};
pub use refusal::LogRefusal;
