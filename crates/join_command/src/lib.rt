//! The top call: what the words of the command line and the files come to, over any inputs and any sink.
//!
//! - `join_main` carries out the command that the words are, writes its output and answers a `Status`. Its contract
//!   says that output and status are those of the verdict on the words and the files (specs/Verdict, specs/Answer),
//!   that only the files of the command were fetched, in order (specs/Top), and why a fault is answered.
//! - `Counted` of `counted_sink` is any sink with a count of its writes, as `join_main` takes it (`CountingSink`). By
//!   the count the contract says that no write is made behind one that failed, and at most one for each byte
//!   (specs/Counting).
//! - `command_of` gives the command that the words are, `write_all` writes bytes piece by piece, and `MAX_FILE` and
//!   `MAX_LOG` are the most bytes of a file, for what a program tells people besides.
//! - `refused_output` has the status and the line of a refusal, for other programs over the files of `script_files`.
//!
//! `join_main` runs a script on threads, past a `Gate`, and may wait for them.
//!
//! A contract sees the files and the bytes written where the inputs and the sink tell them (`Inputs`, `Sink` of
//! `join_base`), and of the words their bytes. Only tested: that the calls answer something else than `NoMemory` where
//! memory is ample, and that the log of a run is that of what its threads did.
#![tactic(auto)]

mod ask;
mod command;
mod count;
mod law;
mod output;
mod replay;
mod reply;
mod run;
mod status;
mod top;
mod watch;

pub use actor_pool::{FreeGate, Gate};
pub use command::command_of;
pub use count::write_count;
pub use counted_sink::{Counted, CountingSink, write_all};
pub use output::{accepted_line, refused_output, usage_line};
pub use replay::MAX_LOG;
pub use script_files::{LogCause, MAX_FILE, Refusal, Stop, fetch_stop, load_feeds, load_script};
pub use status::Status;
pub use top::{Unanswered, join_main};
pub use watch_run::{NoView, View};
