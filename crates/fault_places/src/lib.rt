//! Messages for people on faults: the place, the line with a mark under it, and a sentence.
//!
//! - `place_of` gives line and column of a byte, `line_around` what its line has in front of it and from it on, and
//!   `line_start` where the line of a number begins.
//! - `refusal_note` is the message on the script, the feed or the log that a written line refuses. `refusal_note_by`
//!   has more of a feed, where the script is at hand. `differing_note` has more of a log that differs
//!   (`differing_line`), where the line that should stand there is at hand. `unseen_note` is for a file that can't be
//!   read again.
//! - `words_note` names the word of the command line that is at fault, and has the commands (`USAGE`).
//! - `EndWatch` looks at a log while it is written, and names the actors that ended at a limit.
//! - `push_tie` and `feed_remark` are notes on what is no fault: patterns that keep each other's messages, and a quote
//!   that is never closed.
//! - `read_note`, `long_note` and `write_note` are the messages on a fault of the system.
//!
//! What is told is a list of parts (`Part`), which one function appends. The causes of a refusal are read by their
//! names (`RowCause`, `LogCause`).
//!
//! A contract sees lines as what line feeds end, and a column as the number of characters in front of it on the line,
//! and 1. Only tested: the texts, that a refusal's line is read, that the row and the quote are those that csv reads,
//! and which actors the watch tells of.
#![tactic(auto)]

mod cause;
mod ended;
mod field;
mod note;
mod part;
mod place;
mod quote;
mod refusal;
mod remark;
mod row;
mod sentence;
mod shown;
mod words;

pub use ended::EndWatch;
pub use note::{
    differing_note, long_note, read_note, refusal_note, refusal_note_by, unseen_note, write_note,
};
pub use place::{Place, line_around, line_start, place_of};
pub use refusal::differing_line;
pub use remark::{Tie, feed_remark, push_tie};
pub use sentence::{LIMITS, NO_MEMORY, USAGE};
pub use words::words_note;
