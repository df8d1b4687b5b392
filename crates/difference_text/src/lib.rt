//! What stands in a log where it is not that of its feeds, and what should have come there.
//!
//! - `print_difference` gives the line of the log at which it differs first, and the row of the feed behind it.
//!
//! A contract says by `difference_text` (specs/Text) which text that is. Only tested: that `print_difference` answers
//! where memory is ample.
#![tactic(auto)]

mod text;

pub use text::print_difference;
