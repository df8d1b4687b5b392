//! A run that is watched: a board shows what each actor has done so far, and monitors read it while the run goes on.
//!
//! `run_watched` is a run of `pool_run` with a `Publisher` of `live_board` beside each thread. Each monitor has a
//! thread of its own, which reads the board ten times a second until the run has ended, and shows it a `View`. The end
//! of the run ends its rest too. Then the totals of each actor's run are published, the board is closed, and the view
//! is shown it. `print_board` appends a line for each actor, and `write_totals` the counts of one.
//!
//! A contract sees the run, as `run_pool` of `pool_run` has it, and the board that comes to the totals of that run
//! (`totals_in`). Not said: what a monitor reads, how often, that one reads at all, what a view is shown, or that a
//! call returns.
#![tactic(auto)]

mod board_text;
mod crew;
mod reading;
mod view;
mod watching;

pub use board_text::{print_board, write_totals};
pub use view::{NoView, View};
pub use watching::run_watched;
