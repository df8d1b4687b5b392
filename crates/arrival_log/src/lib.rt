//! The text of a run, which is its log.
//!
//! - `print_log` appends the log text of a run that fits its plan, in the run's version. Without memory the bytes are
//!   as they were.
//! - `write_head` and `write_actor` append its first line and the section of an actor, and `write_heading`,
//!   `write_entry` and `write_last_lines` the parts of a section, for a caller that wants the text piece by piece.
//!   Without memory what stood before stays, and some of a piece may stay appended.
//! - `write_message` and `write_value` append a message and a value, for texts that show them as a log does.
//! - `needs_no_escape` says whether a text is its own quoted form but for the quotes.
//!
//! A contract sees the text as a function of the plan and the run, `log_text` (specs/LogText), and its pieces as
//! `head_line`, `actor_lines` and the parts of these. That it reads back as that run is a matter of `log_reader`. Whole
//! log texts stand in proofs/Examples, computed by `log_text`. Only tested: that `print_log` answers `Ok` where memory
//! is ample (`reading_tests`).
#![tactic(auto)]

mod lines;
mod parts;
mod print;
mod room;
mod whole;

pub use lines::{write_actor, write_entry, write_head, write_heading, write_last_lines};
pub use parts::{write_message, write_value};
pub use print::print_log;
pub use room::needs_no_escape;
