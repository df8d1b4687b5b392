//! What an actor replies to a post of a feed, as a function of its history, and what answerers know of a run.
//!
//! Three laws, on functions without a body. The reply over a history is that of the entries that its fair steps make
//! (`reply_by`).
//!
//! - `reply_law`: a reply stays as the history goes on, and in a linked run it is the answer of the ask. An actor of a
//!   well typed plan replies at most once to each arrival.
//! - `agree_law`: what an answerer knows of an ask on its list is the answer of that ask in the run, where it fits what
//!   the ask's actor did there.
//! - `try_law`: an answerer that has tried what an actor replied in the run has tried the answer of each of its asks.
//!
//! There is no code here, and no test.
#![tactic(auto)]

mod law;

pub use law::{agree_law, reply_law, try_law};
