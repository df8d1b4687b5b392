//! The building that the command `load` runs: four halls, a feed for each, and a desk.
//!
//! - `load_plan` makes its plan, which is well typed. A hall joins a motion with a dim light or with a contact of the
//!   same room and minute, and posts to the desk, which prints.
//! - `load_feed` gives the posts of a hall, from 1 to 20,000, whose messages fit the plan; `load_feeds` those of all
//!   four.
//! - `summary` appends what a run came to: a line for the whole, and one for each actor.
//!
//! A contract sees all three as values of specs/: `load_plan` writes the kinds, the actors and the rules out,
//! `load_feed` each row by its place, and `summary_text` the lines.
//!
//! Only tested: that the plan is that of its script as text (`worked_examples`).
#![tactic(auto)]

mod feed;
mod parts;
mod plan;
mod totals;

pub use feed::{load_feed, load_feeds};
pub use plan::load_plan;
pub use totals::summary;
