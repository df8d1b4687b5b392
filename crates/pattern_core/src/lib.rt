//! Definitions of an actor, the assignments of a definition, and the choice.
//!
//! - `try_extend` says whether a message may stand at a pattern beside others, and counts one step; `complete` whether
//!   an assignment is a complete match; `has_kind` and `is_full` are parts of these.
//! - `oldest_seen` says from which arrival on a window shows the messages.
//! - `fair_cmp` is the order of candidates, and `better` the lesser of two.
//! - `choice_law` ties the choice to its words: a complete match, and none of any definition has a smaller key.
//!
//! A contract sees assignments as lists of optional numbers, and matches as lists that compute (`assignments`,
//! `complete_matches`, `choice`). A definition and an assignment have to suit the recorded messages (`DefinitionSuits`,
//! `SlotsSuit`).
#![tactic(auto)]

mod candidate;
mod definition;
mod extend;
mod key;
mod law;
mod window;

pub use candidate::Candidate;
pub use definition::Definition;
pub use extend::{complete, has_kind, is_full, try_extend};
pub use key::{better, fair_cmp};
pub use law::choice_law;
pub use window::oldest_seen;
