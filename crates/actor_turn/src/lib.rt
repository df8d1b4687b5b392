//! One actor: its fair steps over a mailbox and trees of partial matches, and the run that it shows.
//!
//! `Actor::new` makes it, `arrive` is one fair step with a copy of a message and `receive` one with the message itself,
//! `take_post` and `return_post` are for those who carry its posts, and `into_run` gives its run. A contract sees what
//! it was told, its state, its history, its trees, and the posts that wait for each actor. The history is what was
//! recorded, each message with its source and the stamp that it carried. `trees` hands out the trees: between two
//! arrivals they hold the partial matches, each once (`HoldsPartialMatches`, specs/Rest), and no complete match waits
//! (`NoMatchWaits`). `give_room_back` is for lists that are emptied item by item. Inside it keeps an index of the
//! unconsumed messages by the fields that its rules compare for equality, in which its trees look them up.
//! Only tested: that calls answer `Ok` where memory is ample.
#![tactic(auto)]

mod actor;
mod body;
mod firings;
mod fit;
mod indexed;
mod opening;
mod outbox;
mod refused;
mod room;
mod run;
mod sent;
mod step;
mod texts;

pub use actor::Actor;
pub use firings::count_posts;
pub use refused::Refused;
pub use room::give_room_back;
