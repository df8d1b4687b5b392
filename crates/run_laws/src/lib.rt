//! What a run of a well typed plan shows: why an actor ended as spent, and how often an arrival is replied to.
//!
//! Two laws, each on a function without a body:
//!
//! - `spent_law`: an actor ends as spent only by a message that it may not take. In a run that is linked to feeds that
//!   fit, that is a message beyond the limit of arrivals, so the actor has as many arrivals as the limit allows.
//! - `reply_law`: each arrival of an actor is taken by at most one firing, and once there. A firing replies only to
//!   arrivals that it took, to each at most once, and to none that came later.
//!
//! The first stands on what `log_replay` proves of linked runs. There is no code here, and no test;
//! examples are computed.
#![tactic(auto)]

mod law;

pub use law::{reply_law, spent_law};
