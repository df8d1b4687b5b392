//! The text of the reactions of a run.
//!
//! - `print_reactions` gives what the firings of a run printed and posted, of one actor or of all, each with the rows
//!   of feeds that led to it.
//!
//! A reaction has a line `ACTOR ` with the log's line of its arrival, and behind it the log's lines of the firing and
//! of what it did. Then come the first nine rows that led to it, a line `row ACTOR ` with the log's line of each, and
//! where there are more, a line `more rows N`. A contract says by `IsReactionsText` (specs/ReactionText) that the text
//! is that of the reactions which `feed_causes` finds. Only tested: that `print_reactions` answers where memory is
//! ample.
#![tactic(auto)]

mod text;

pub use text::print_reactions;
