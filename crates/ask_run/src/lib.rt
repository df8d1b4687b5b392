//! A plan on threads, with an answerer beside each.
//!
//! `run_asking` runs a plan as `run_pool` does (`pool_run`), and puts on a board what actors reply in their turns. Any
//! number of threads may ask the board meanwhile. The answerers are joined when all threads have ended. The joined one
//! reads the run then, for what was replied when no thread was left.
//!
//! What it knows of an ask on its list, of an actor of the run, is the answer of that ask in the run (`KnowsAnswers`).
//! So whoever read that ask on the board read that answer. Each ask of the board that has an answer in the run is on
//! the list, or somebody gave it another value (`AnswersAll`).
//!
//! `print_told` appends the answers of the rows, and reads them on the board.
//!
//! Only tested: that an asker reads an answer where memory is ample, and that a worker's turn puts it on the board.
#![tactic(auto)]

mod one_board;
mod reading;
mod running;
mod showing;
mod tellers;
mod telling;

pub use running::run_asking;
pub use telling::print_told;
