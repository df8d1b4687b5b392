//! Asks: for each row of a feed a cell that is set at most once, to the value that its row was replied with.
//!
//! `AskBoard::new` makes the cells, and `view` a view of them that knows nothing. `answer` sets a cell or finds it set,
//! and `look` reads it; what they find, the view knows from then on. `has` tells whether there is an ask. Any number of
//! threads may share a board, each with a view of its own.
//!
//! A contract sees of a view what it knows of each ask (`known_of`), and whether it is a view of a board (`IsViewOf`).
//! What is known never changes, and two views of one board that know a value of an ask know the same (`learn`).
//!
//! Only tested: that `new` and `answer` answer something else than `NoMemory` where memory is ample, and that a `look`
//! finds what another view answered.
#![tactic(auto)]

mod board;
mod same;
mod view;

pub use board::{AnswerFault, AskBoard};
pub use view::{Ask, AskView};
