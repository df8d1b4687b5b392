//! Which definitions of a plan can never fire, and which kinds no other definition takes.
//!
//! - `lint` lists the findings of a plan: of each definition at most one, by the first that applies of *dead* (its
//!   guard is never true), *narrow* (its window is smaller than its number of patterns) and *shadowed* (an earlier
//!   definition of the actor takes each match first), and then the *idle* kinds, of which no definition without a
//!   finding has a pattern.
//! - `Linter` finds them actor by actor, and keeps no definition. `write_report` appends a line for each of a list of
//!   findings, and then their number; without memory some of it may stay appended.
//! - `lint_law`: in the fair semantics of the plan, over any messages whose integers are of 64 bits, no definition with
//!   a finding fires, and no message of an idle kind is taken.
//!
//! A contract sees the report as the list `findings plan` (specs/Findings), a `Linter` as what it knows of the actors so
//! far (specs/Looked), and the text as `report_text` (specs/LintText). A definition without a finding may be one
//! that never fires all the same: a guard is looked at conjunct by conjunct. Only tested: that `lint` succeeds where
//! memory is ample.
#![tactic(auto)]

mod bounds;
mod constant;
mod dead;
mod finding;
mod law;
mod lint_text;
mod linter;
mod report;
mod same;
mod shadow;

pub use finding::Finding;
pub use law::lint_law;
pub use lint_text::write_report;
pub use linter::{Linter, lint};
