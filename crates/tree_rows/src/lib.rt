//! The nodes of a tree whose paths are partial matches, and the rows in which they stand.
//!
//! A `Node` takes a number behind the path to it, and has a `Row` of later nodes for each pattern. Rows are ring buffers
//! in the order of their numbers, so that the oldest node goes at a constant cost, and only the nodes that go are
//! counted. A row whose nodes have nothing behind them holds their numbers alone, and many of them in tiers.
//!
//! A contract sees a row as a list of nodes, each with its number and the routes that lead on from it (`Routes`).
//! `prune_rows` leaves out the routes that take some numbers, and `drop_unseen` those that begin before the oldest
//! number that a definition sees. Both say how many routes went. What a number adds is a matter of the crates above.
#![tactic(auto)]

mod expire;
mod node;
mod prune;
mod row;
mod row_numbers;

pub use expire::drop_unseen;
pub use node::{Node, Shape};
pub use prune::{prune_node, prune_nodes, prune_rows, remove_numbers};
pub use row::{Nodes, Row, place_of_node};
pub use row_numbers::RowNumbers;
