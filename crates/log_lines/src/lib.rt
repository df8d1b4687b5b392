//! The lines of a log, read one by one.
//!
//! - `read_head` gives the first line of a log, and `read_line` any line behind it, or they say that the text is none.
//! - `cut_line` gives the first line that an LF ends, and what stands behind it, or none.
//! - `one_line` says that no text is two lines.
//!
//! A contract says by `IsHead` and `IsLine` (specs/Forms) which line a text is: the line is within its bounds, and the
//! text is its text. Where a line may stand in a log is a matter of `log_reader`. The tests of
//! logs in `reading_tests` read lines of each form.
#![tactic(auto)]

mod fault;
mod line;
mod list;
mod message;
mod number;
mod parts;
mod read;
mod replies;
mod value;

pub use fault::LineFault;
pub use line::{Arrival, Head, LogLine};
pub use parts::cut_line;
pub use read::{one_line, read_head, read_line};
