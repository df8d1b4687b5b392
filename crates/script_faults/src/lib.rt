//! The faults of a script's names and types.
//!
//! - `first_fault_at` reads the tokens of a script once more, and gives the fault at the least place, and of those at
//!   one place the first cause; or none, where there is none. Nothing of a definition is kept but the types
//!   of its variables.
//!
//! A contract sees all faults of a tree as one list, `faults_of`, and the one reported as the first of it,
//! `first_fault`. A fault is noted where it stands, in the order of the text: the first of a list does not depend on
//! its order. `Notes` says of a function what it noted of the phrase that its tokens begin with.
#![tactic(auto)]

mod body;
mod declared;
mod first;
mod guard;
mod noter;
mod pattern;
mod placed;
mod post;
mod print;
mod reply;
mod rule;
mod script;
mod statement;
mod term;

pub use first::Fault;
pub use script::first_fault_at;
