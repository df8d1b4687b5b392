//! Settling a pool: from cells and posters, wherever serving left them, to the run that they come to.
//!
//! - `settle_with` takes cells and posters apart and lets both ends of each link meet. To each actor arrives what its
//!   links hold, then what is left of the feeds, and then what waits for it in outboxes, round by round until none
//!   holds a post. Then it shows the run.
//! - `settle` is the same where nothing is left of the feeds.
//! - `drain_links` is the first part of both: all that went over the links has arrived.
//!
//! No call waits, and each returns: a round that finds a post leaves less work, which is the posts in outboxes and 17
//! for each arrival that an actor may still record (`all_work`).
//!
//! A contract sees of the run that it is linked to each list of feeds that are what the posters sent and then the rest
//! (`AreFeedsWith`), that it is that of one schedule over them, and that each actor's arrivals, with the stamps that
//! they carried, begin with the history of its cell (`GoesOnFrom`), so that no run made anew will do. In between it
//! sees of an actor whether it stands by what came and what went (`StandsBy`): its history and its state are by what
//! came from each source, and what went to each target and then what waits for it is what its bodies posted. Both sides
//! of each post that is brought grow by it. That the calls answer something else than `NoMemory` is tested, on 600
//! posts to one actor.
#![tactic(auto)]

mod apart;
mod draining;
mod ends;
mod rounds;
mod settling;

pub use draining::drain_links;
pub use settling::{settle, settle_with};
