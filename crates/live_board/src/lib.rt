//! The live board: the totals of each actor of a run, while it goes on.
//!
//! `open_board` makes a board: its writer and its monitors. `BoardWriter::publish` appends a record to the published
//! list, `publish_all` one for each actor. `tell` gives a note of that list, and `close` the board that it comes to.
//! `Monitor::read` shows a board through a `Glass`, and `learn` lets a monitor know the list of a note. `LeftGlass`
//! shows what a writer has published, without a wait, and `StillGlass` a list in memory.
//!
//! A `Publisher` stands beside a pool. It publishes the totals of each actor that it is shown (`actor_totals`). It
//! keeps the note of that, which `Publisher::note` hands out. Publishers of several threads share a `SharedWriter`
//! behind a `Mutex`.
//!
//! A contract sees of a writer the list that it published (`published`), of a note the list that it knows (`noted`),
//! and of a publisher its notes (`notes_of`). A board is what `board_of` makes of a list: each record in turn replaces
//! its actor's totals. A read gives the board of a list that begins with all that the monitor had read or learnt, and
//! the monitor knows that list from then on (`Shows`). It was published at a moment of the read (`TookPublished`). What
//! any reader has seen begins what is published, however threads are scheduled (`AllBegin`). What monitors and notes
//! know are beginnings of one history, of which the shorter begins the longer.
//!
//! Not said: that a monitor ever reads, that `publish` returns, that calls answer `Ok` where memory is ample, and of
//! which board the note of a publisher is, since no clause says what lies behind a lock. Only tested: that a look is
//! refused only where the writer is gone. Its tests are those of `thread_tests`.
#![tactic(auto)]

mod beside;
mod board;
mod front;
mod glass;
mod history;
mod history_rule;
mod left_glass;
mod left_looking;
mod monitor;
mod note;
mod opening;
mod publisher;
mod publishing;
mod record;
mod shared_writer;
mod shown;
mod snapshot;
mod still_glass;
mod totals;
mod writer;

pub use board::Board;
pub use glass::{Glass, Refused};
pub use left_glass::LeftGlass;
pub use monitor::{Monitor, MonitorList, Unread};
pub use note::BoardNote;
pub use opening::open_board;
pub use publisher::Publisher;
pub use record::{Record, RecordList};
pub use shared_writer::SharedWriter;
pub use still_glass::StillGlass;
pub use totals::{Totals, TotalsList, actor_totals, run_totals};
pub use writer::BoardWriter;
