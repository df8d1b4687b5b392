//! The partial matches of one definition, kept between arrivals in a tree whose paths share their beginnings.
//!
//! `MatchTree::new` has the empty path alone. For each arrival an actor calls `reserve_for`, the one call besides `new`
//! that takes memory, then `expire`, and then, where `best_with` has found no match, `extend`; where a match fires,
//! `forget` and `prune` with its numbers. `clear` leaves the empty path alone, and `partials` counts the paths.
//!
//! Contracts see a `Tree`: its paths as assignments, of which none stands twice, and what a reserve has set aside.
//! `reserve_for` counts its tries, and each number of a row that it looks at and passes over: at most those of `tries`.
//! Behind that stand nodes, each with a row of later nodes for each pattern (`tree_rows`). No contract speaks of that.
//!
//! `reserve_for` gets an index of the messages' values, which has the numbers of the paths. Which nodes of a row it
//! visits is found by a screen of the row, or in the index (`row_screens`). `prune` looks a number up in the same way
//! (`by_value`): it stands behind a node of a first row only where it could be taken there, so that other nodes need no
//! walk. `reserve_for` takes back in this way too what it had added before it found a match.
//!
//! Tests show the calls of one arrival one behind the other: rows, and small scripts against a plain listing.
#![tactic(auto)]

mod at_leaf;
mod by_value;
mod pending;
mod reserve;
mod tree;
mod visit;

pub use tree::MatchTree;
