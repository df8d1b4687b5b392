//! The text of a plan, as a script says it.
//!
//! - `print_plan` appends the text of a plan. Without memory the bytes are as they were.
//! - `write_kinds`, `write_actor_begin`, `write_rule` and `write_actor_end` append it part by part, so that no more than
//!   one definition is needed at a time. Without memory some of the text may stay appended.
//! - `write_conjunct` appends a conjunct, `write_pattern` a pattern and `write_variable` a variable. `row_of` has the
//!   variables of a pattern. Without memory some of the text may stay appended.
//!
//! A contract sees the text as a function of the plan (`plan_text`, specs/PlanText), with an empty name where a number
//! names nothing. Its parts are `pattern_text`, `condition_text` (specs/GuardText) and `variable_name`
//! (specs/PlanNames). Of the plan a definition's text takes the names alone (proofs/HeadLemmas).
//! That the text reads back as the plan is a law of `plan_law`.
#![tactic(auto)]

mod guards;
mod names;
mod print;
mod rules;
mod statements;
mod terms;

pub use guards::write_conjunct;
pub use names::{Row, row_of, write_variable};
pub use print::{print_plan, write_actor_begin, write_actor_end, write_kinds};
pub use rules::{write_pattern, write_rule};
