//! The posts that the entries of a log make, and what they make of the actor that they are for.
//!
//! - `same_entries` says whether entries are equal but for their stamps, `same_fired` whether firings are, and
//!   `same_message` whether messages are.
//! - A `Link` has the posts from one actor to another, and gives one after the other. `has_message` says whether a post
//!   is the one that arrived, `is_from` whether an arrival is from an actor, and `effects_of` what a firing did.
//! - `lates_made` makes the late counts of an actor and `stamps_in` the stamps of its arrivals, both by the links to
//!   it. `with_stamps` puts stamps in place of those of entries.
//!
//! A contract sees each answer as a function of entries and links (specs/Same, Posts, Lates and Stamps). Where memory
//! is wanted, `NoMemory` is the one refusal. The program `worked_examples` replays whole logs, and `check_logs`
//! changed ones.
#![tactic(auto)]

mod lates;
mod posts;
mod same;
mod stamps;

pub use lates::{is_from, lates_made};
pub use posts::{Link, Posted, effects_of, has_message};
pub use same::{same_entries, same_fired, same_message};
pub use stamps::{stamps_in, with_stamps};
