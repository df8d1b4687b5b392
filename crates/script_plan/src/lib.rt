//! The plan of a script: each name replaced by the number of its declaration.
//!
//! - `visit_plan` reads the tokens of a script that is small enough for a plan (`IsSmall`), and hands its plan to a
//!   `PlanVisitor`, definition by definition. The tree of a definition is made, planned and let go of before the next
//!   one, and what of its plan stays is the visitor's affair.
//! - `plan_at` collects the whole plan so. The names of the plan are names (`HasNames`).
//! - `plan_heads` gives the names of a plan from the outline alone.
//!
//! A contract sees the plan as a function of the tree that the tokens are (specs/PlanOf). It stands for something only
//! where the tree has no fault.
#![tactic(auto)]

mod body;
mod collector;
mod guard;
mod heads;
mod names;
mod plan;
mod script;
mod term;
mod visitor;

pub use heads::plan_heads;
pub use script::{plan_at, visit_plan};
pub use visitor::PlanVisitor;
