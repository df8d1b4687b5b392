//! The line that should stand in a log.
//!
//! - `expected_text` gives the log of the expected run of the run whose log some bytes are.
//! - `expected_line` gives the line at a place of that log.
//!
//! A contract says by `IsExpectedText` and `IsExpectedLine` (specs/Line) which these are: the log text of the run that
//! `log_replay` expects, and one of `lines_of` of that run. Where `check_log` answers that a log differs, it compared
//! its line with this one. Beside the bytes, the memory is that of both runs and of the log of the expected one. Only
//! tested: that both answer where memory is ample (`reading_tests`, `check_logs`).
#![tactic(auto)]

mod line;

pub use line::{expected_line, expected_text};
