//! What led to the reactions of a run: the rows of feeds, back through posts.
//!
//! - `arrivals_of` gives the arrivals of a run, actor by actor. An arrival is named by its place there.
//! - `reactions` gives the arrivals whose firing printed or posted something, of one actor or of all, each with the
//!   rows that led to it: the first nine, and how many more there are.
//! - `origin_law` says that in a linked run each arrival from an actor has an origin, whose firing posted it.
//!
//! A contract says by `LedTo` (specs/Causes) what led to a firing. The firing took it, or a firing took it which posted
//! an arrival that led there. `AreRows` says that some rows are these and no others, each once and in order, and
//! `AreReactions` (specs/Reactions) which reactions a run has. The origins are found by counting, and what led to a
//! reaction by a search of its own. So the time grows with the square of the number of arrivals. Only tested: that
//! `reactions` answers where memory is ample.
#![tactic(auto)]

mod arrivals;
mod law;
mod origins;
mod reaction;
mod rows;
mod search;
mod taken;
mod wanted;

pub use arrivals::{Arrival, arrivals_of};
pub use law::origin_law;
pub use reaction::{Reaction, reactions};
