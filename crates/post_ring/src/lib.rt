//! Links: from one source to one target, messages with their stamps, in order and each once.
//!
//! Calls: `link` makes the two ends of a link, which may stand in two threads. `LinkIn::push` sends a message, or hands
//! it back. `LinkOut::take` takes the next one, or finds none. `give_back` puts the one that was taken last in front
//! again. `meet` brings the two ends together on one thread. No call waits, and after `link` none takes memory.
//!
//! A contract sees of a `LinkIn` what was sent, its room and its identity, and of a `LinkOut` what was received, the
//! messages that it knows to wait, how many looks found nothing, and its identity. Ends of one identity are the ends of
//! one link (`identity_law`), and once they have met, what was received and what waits is all that was sent.
//!
//! Only tested, by `thread_tests`: that `link` answers `Ok` where memory is ample, and that between two threads no
//! message is lost. Not said: that a message is ever seen at the other end.
#![tactic(auto)]

mod identity;
mod link_in;
mod link_out;
mod links;
mod sealed;

pub use identity::LinkIdentity;
pub use link_in::{Full, LinkIn};
pub use link_out::LinkOut;
pub use links::{identity_law, link, meet};
