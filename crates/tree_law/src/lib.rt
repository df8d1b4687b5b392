//! The trees of an actor, one for each definition: their best match is the choice, and what they keep are its partial
//! matches.
//!
//! - `reserve_all` offers a number to all trees. It alone takes memory, and without memory the trees are as they were.
//!   It is given an index that has the numbers of their paths.
//! - `best_of` gives the least of the matches that the trees found.
//! - `expire_all`, `prune_all`, `clear_all` and `forget_all` do in each tree what the calls of `match_tree` do in one,
//!   `keep_all` expires and extends each, and `count_paths` counts the paths of all.
//! - `tries_law` and `prefix_law` are laws, on functions without a body: a number is tried at most as often as there
//!   are paths times patterns of its kind, and a prefix of a partial match, in the order of arrival, is one too.
//!
//! A contract sees the trees as a list of `Tree`, as `match_tree` does. That trees which hold the partial matches
//! (`HoldAll`, specs/Trees) hold them again after a step, and that the best match is the choice, are lemmas in proofs/,
//! which `actor_turn` cites. There are no tests here.
#![tactic(auto)]

mod law;
mod trees;

pub use law::{prefix_law, tries_law};
pub use trees::{
    best_of, clear_all, count_paths, expire_all, forget_all, keep_all, prune_all, reserve_all,
};
