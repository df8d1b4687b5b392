//! From the bytes of a script to its plan, or to a text of its plan.
//!
//! - `read_plan` gives the plan of a script's bytes, which is well typed (`IsTyped`), or their fault.
//! - `read_plan_text` gives the text of that plan, and `read_lint_text` what lint finds of it, without holding the plan.
//! - `checked_outline` gives the outline of a script without a fault, and `visit_script` hands the plan of such a script
//!   to a visitor, definition by definition.
//! - `one_answer` says that a tree has one plan or one fault, and never both, and `one_script` says it of bytes.
//!
//! A script is read three times: for its outline, for the first fault of its names and types, and for its plan. No
//! reading holds the tree of more than one definition. For the texts, a visitor takes the plan definition by definition:
//! one prints each, and one keeps those of one actor until they are looked at. No bound of memory is proved.
//!
//! A contract says by `ReadsPlan` what an answer means: the plan of a tree without faults, its fault, or want of
//! memory. `ReadsText` says it of the texts. `IsFaultless` says of an outline that it is that of a script without a
//! fault: `ChecksOutline` promises it, and `HasVisited` is what a visitor has taken of such a script. Only tested: which
//! cause comes at which place of a script, by tables.
#![tactic(auto)]

mod check;
mod linted;
mod printed;
mod script;

pub use check::{checked_outline, one_answer, visit_script};
pub use script::{one_script, read_lint_text, read_plan, read_plan_text};
