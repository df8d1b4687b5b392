//! A log as the run whose text it is.
//!
//! - `read_log` gives the run whose log the bytes are, or the line at fault where they are the log of no run of the
//!   plan.
//! - `line_at` gives the line at a place of a text.
//! - `one_run` says that two runs with one log are equal, and `one_fault` that bytes have one line at fault.
//!
//! A contract says by `Answers` (specs/Log) what an answer means: a run that fits the plan and has the bytes as its log
//! text, the exact line at fault, or want of memory. Whether actors would run so is a matter of `log_replay`. Only
//! tested: that `read_log` answers where memory is ample, and the text of a fault (`reading_tests`).
#![tactic(auto)]

mod draft;
mod fault;
mod line;
mod read;

pub use fault::LogFault;
pub use line::line_at;
pub use read::{one_fault, one_run, read_log};
