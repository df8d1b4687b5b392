//! What the fair semantics makes of messages: it fits the plan, and no match waits between two arrivals.
//!
//! Two laws, each on a function without a body:
//!
//! - `fits_law`: the run of an actor that was given messages fits the plan, and so does a run of all actors: numbers,
//!   sources, messages and stamps, firings with what their bodies print, post and reply, the live numbers, the partial
//!   matches and the late counts.
//! - `rest_law`: behind any messages no definition of an actor has a complete match among the messages that are left.
//!   So each firing took the newest message.
//!
//! For the first a message that is given has a source that exists and values in their ranges (`SentFits`,
//! specs/FitsLaw). Its kind and the types of its values need not fit. The second (specs/RestLaw) asks for a well typed
//! plan alone. There is no code here, and no test.
#![tactic(auto)]

mod law;

pub use law::{fits_law, rest_law};
