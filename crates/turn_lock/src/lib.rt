//! The turn lock: a lock for each of a list of cells, with turns that threads try for. Nobody waits for a turn.
//!
//! Calls: `Turns::new` makes a lock over cells and its first seat, and `close` gives the cells back. `try_turn` tries
//! for the turn of a cell and hands it out as a `Held`, and `release` takes it back and says whether another turn was
//! asked for meanwhile, which `flag` does. `mark` and `unmark` keep a mark at a cell. `split_seat` and `join_seat` make
//! a seat for another thread and take it back. `TurnCell` says what the cells mean.
//!
//! A contract sees of a seat its view (`view_of`): the histories that it has seen, its turn, its tries, and what it did
//! to FLAG and QUEUED. After each atomic step, however threads are scheduled, the views, the words and the slots fit
//! together as the turn rule says (`TurnRule`). So a cell that is handed out is lawful, has its tag, and has a history
//! that goes on from what the seat had seen.
//!
//! Only tested, by `thread_tests`: that calls answer `Ok` where memory is ample, and that two threads that append lose
//! nothing. Not said: that a turn is ever got, or that a flag or a mark is ever looked at.
#![tactic(auto)]

mod cell;
mod held;
mod lock;
mod plays;
mod seat;
mod turns;
mod view;

pub use cell::{CellList, TurnCell};
pub use held::Held;
pub use lock::Busy;
pub use seat::TurnSeat;
pub use turns::Turns;
pub use view::{Role, Turn, View};
