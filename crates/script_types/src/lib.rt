//! The plan of a script: names replaced by numbers of declaration.
//!
//! - `Plan` has the kinds and the actors, an actor its rules, and a rule its definition, its variables and its body.
//! - `Rule::copy` and those of its parts give equal ones.
//! - `write_kind_name` and `write_actor_name` append the name that a number stands for.
//! - `IsTyped` (specs/Typed) says what a plan of the checker keeps: each number names something, each place has the
//!   type that is wanted there, nothing is too many, and names are names that differ.
//!
//! A contract sees each type as the record of its fields, and lists as lists.
#![tactic(auto)]

mod copy;
mod names;
mod plan;

pub use copy::copy_variable;
pub use names::{write_actor_name, write_kind_name};
pub use plan::{ActorPlan, Item, Kind, Plan, Rule, Statement};
