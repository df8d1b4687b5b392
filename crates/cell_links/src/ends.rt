//! The ends of the links of one actor.

use join_base::Source;
use post_ring::{LinkIdentity, LinkIn, LinkOut};
use std::collections::LinkedList;

/// A link into an actor, with its source.
#[derive(Drop)]
pub struct Inward {
    pub source: Source,
    pub link: LinkOut,
}

/// A link to a target, which is an actor counted from 0.
#[derive(Drop)]
pub struct Outward {
    pub target: u32,
    pub link: LinkIn,
}

/// The links into an actor and out of it.
#[derive(Drop)]
pub struct ActorLinks {
    pub inward: Vec<Inward>,
    pub outward: Vec<Outward>,
}

/// What stays of the links of an actor: the identity of each inward link with its source, and of each outward link with
/// its target. Contracts read it, and no value of it is ever made.
pub struct LinkTags {
    pub inward: LinkedList<(Source, LinkIdentity)>,
    pub outward: LinkedList<(u32, LinkIdentity)>,
}
