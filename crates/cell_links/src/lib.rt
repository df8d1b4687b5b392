//! The links of a pool of actors: who sends to whom, and which ends belong together.
//!
//! `connect` makes all links: one from each feed to each actor, and one from each actor to each of its targets. It
//! gives the links of each actor (`ActorLinks`) and a `FeedLinks` for each feed. `FeedLinks::push` sends a message of a
//! feed to an actor.
//!
//! A contract sees of the links of an actor a tag (`link_tags`): the identity of each inward link with its source, and
//! of each outward link with its target. `poster_tag` is the same of a poster. `IsWired` says of tags alone that they
//! are those of one pool, so it stays true as long as the tags do: who finds two ends of one source and one target has
//! the ends of one link.
//!
//! Only tested, by `actor_cells`, which calls it: that `connect` answers `Ok` where memory is ample.
#![tactic(auto)]

mod connecting;
mod ends;
mod feed_links;
mod making;
mod posting;

pub use connecting::connect;
pub use ends::{ActorLinks, Inward, LinkTags, Outward};
pub use feed_links::FeedLinks;
pub use post_ring::Full;
