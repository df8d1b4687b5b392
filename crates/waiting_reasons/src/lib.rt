//! Why messages wait at the end of a run.
//!
//! - `print_why` appends a line for each message that an actor has left, or all that is said of one of them. Of one
//!   that doesn't wait it says what became of it.
//! - `reasons_law` and `hindered_law` say that the reasons are true.
//!
//! A definition with a pattern of its kind doesn't take a message for one of three reasons. Its window has passed it,
//! or it fits no pattern, or the fullest assignment that has it leaves a pattern empty. A contract sees the text as a
//! function of the plan and the run, `why_text` (specs/Text), and a reason as `reason_of` (specs/Ways).
//!
//! By the laws (specs/Law) that assignment is one of unconsumed messages that the definition sees, with the message
//! among them, and makes each decided conjunct true. None that does so is fuller. Each message that the definition
//! sees, and that could stand at an empty pattern of it, makes a conjunct false there.
//!
//! All such assignments are listed. They are partial matches, but for those that leave no pattern empty. So beside the
//! run the memory is that of the partial matches with the message, and of a copy of the actor's messages.
//! Only tested: that `print_why` answers `Ok` where memory is ample.
#![tactic(auto)]

mod finding;
mod gone;
mod guards;
mod law;
mod lines;
mod messages;
mod notes;
mod patterns;
mod places;
mod reason;
mod slots;
mod values;
mod ways;
mod why;

pub use law::{hindered_law, reasons_law};
pub use why::print_why;
