//! Whether a log is that of some feeds.
//!
//! - `audit` checks bytes as the log of a run of the plan, as `check_log` of `log_replay` does, and then against the
//!   posts of feeds. It answers the number of arrivals, or why the log is not theirs: the first line that differs, with
//!   the feed and its row.
//!
//! A contract says by `Audits` (specs/Audit) what an answer means: an audited log is that of a run which is linked to
//! these feeds, and at every other answer but want of memory it is not. By `first_difference` (specs/Wrong) it says
//! which line differs first. The log is read twice, and each section of it is gone through once for each feed. Only
//! tested: that `audit` answers where memory is ample.
#![tactic(auto)]

mod answer;
mod refusal;
mod rows;
mod wrong;

pub use answer::audit;
pub use refusal::{AuditRefusal, Difference};
