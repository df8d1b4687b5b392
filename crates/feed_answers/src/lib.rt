//! The answers of the rows of feeds: what a run replied to the arrivals that they became.
//!
//! `print_answers` appends a line for each row that has an answer, feed by feed and row by row. A contract sees the
//! answer of a row as a function of the run and the feed (`row_answer`), and the text as one of the run and the feeds
//! (`answers_text`).
//!
//! - `replies_to_all`, `queues_of` and `write_feed` are the parts of `print_answers`, for those who find some of the
//!   answers elsewhere. They put these into the queues of a feed (`Queue::put`), and nothing else changes.
//! - `all_targets` keeps of the feeds what is needed once they have been run: the actor of each row.
//! - `numbered_law`: the arrivals of a right run have the numbers that `print_answers` asks for. `answers_law`: an
//!   answer stays as more arrives.
//!
//! Only tested: that it answers `Ok` where memory is ample.
#![tactic(auto)]

mod law;
mod print;
mod queues;
mod replies;

pub use law::{answers_law, numbered_law};
pub use print::{Targets, all_targets, print_answers, write_feed};
pub use queues::{Queue, queues_of, replies_to_all};
