//! What actors do with the messages that they receive: the fair step, the fair semantics of a list of messages, and the
//! runs of several actors that are linked by their posts.
//!
//! A crate of definitions: its types are those of a run, from `Run` to `Effect`, and a contract sees each as the record
//! of its fields, but `Fired` as an optional firing, and `LogVersion` as the number in a log's first line. A run is
//! right where it is linked: each actor did the fair steps of what the others and the feeds sent it. What such a run
//! keeps is proved by a call with an empty body, `stamps_law`. Nothing is tested here; examples are computed.
#![tactic(auto)]

mod law;
mod run;

pub use law::stamps_law;
pub use run::{ActorRun, Effect, Ending, Entry, Fired, Firing, Limits, LogVersion, Outcome, Run};
