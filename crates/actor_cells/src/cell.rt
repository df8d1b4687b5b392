//! A cell, and what contracts read of it.

use crate::actor_set::ActorSet;
use actor_turn::Actor;
use cell_links::{Inward, LinkTags, Outward};
use fair_semantics::Limits;
use join_base::{Sort, Source, Stamped};
use script_types::Rule;
use std::collections::LinkedList;
use turn_lock::TurnCell;

/// An actor with the links into it and out of it.
#[derive(Drop)]
pub struct Cell {
    /// Behind a pointer, so that a cell moves into and out of its lock in a few instructions. Contracts see it by
    /// `held_in`.
    pub actor: Box<Actor>,
    pub inward: Vec<Inward>,
    pub outward: Vec<Outward>,
    /// The place of the actor's link to itself among those inward, or one behind them where it posts nothing to itself.
    /// No clause rests on it.
    pub own: usize,
    /// The actors that the last `serve` sent something to. No clause rests on it.
    pub moved: ActorSet,
    /// The actors for which the last `serve` left a post in its outbox. No clause rests on it.
    pub held: ActorSet,
}

/// What stays of a cell: what its actor was told, how many feeds and actors there are, and its links with their sources
/// and targets. Contracts read it, and no value of it is ever made.
pub struct CellTag {
    pub sorts: LinkedList<LinkedList<Sort>>,
    pub rules: LinkedList<Rule>,
    pub limits: Limits,
    pub feeds: u32,
    pub actors: u32,
    pub links: LinkTags,
}

/// What is noted of an inward link: how many messages were received over it, and how many looks found nothing.
pub struct LinkTally {
    pub received: u64,
    pub empty_looks: u64,
}

impl TurnCell for Cell {
    ghost use Rattle.actor_cells.specs.Lawful.{IsLawful, cell_tag, history_of, tally_of};

    type Tag = CellTag;

    type Entry = (Source, Stamped);

    type Tally = LinkedList<LinkTally>;

    ghost tag = { cell_tag };

    ghost lawful = { IsLawful };

    ghost history = { history_of };

    ghost tally = { tally_of };
}
