//! Scripts and feeds, fetched and read.
//!
//! - `load_script` fetches a script and reads its plan, and `load_feeds` does so with feeds, up to the first that gives
//!   no posts. `load_plan_text` and `load_lint_text` fetch a script and give the text of its plan, and that of what lint
//!   finds of it, and never hold the whole plan. Their contracts say that what they answer is the first refusal or what
//!   the files hold, which names were asked, and why a fault is answered (specs/Loading). `MAX_FILE` is the most bytes
//!   of a file.
//! - `Stop` is why there is no answer, and `Refusal` what of a file is refused. `fetch_stop` gives the stop of a fetch
//!   that gave nothing, for those that fetch other files.
//! - `Verdict` (specs/Verdict) is what the words and the files of a command come to. This crate says when it is that of
//!   a script or of feeds.
//!
//! A contract sees the files where the inputs tell them (`Inputs` of `join_base`).
#![tactic(auto)]

mod load;
mod stop;

pub use load::{MAX_FILE, fetch_stop, load_feeds, load_lint_text, load_plan_text, load_script};
pub use stop::{LogCause, Refusal, Stop};
