//! Cells: an actor with the links into it and out of it, which is served on one thread at a time.
//!
//! `prepare` makes the cells of a plan and a poster for each feed, with all links between them. `Cell::serve` brings
//! what a cell's inward links hold to its actor, at most `Cell::MOST` messages a call, and moves the posts of each of
//! them to their links. What the actor posts to itself comes first, at least the first `Cell::OWN` in a row.
//! `Cells::serve` does so for one of the cells that `prepare` made. No call waits.
//!
//! A contract sees of a cell its actor (`held_in`), its tag (`cell_tag`), its history (`history_of`), its tally
//! (`tally_of`), and whether it is lawful (`IsLawful`): what came over its links is its history, with the stamps, and
//! then a rest, the actor's state is the fair semantics of that, its trees hold the partial matches of the messages
//! that are not consumed, each once, and what went over its links and waits in outboxes is what the bodies posted. A
//! cell is a `TurnCell`, so it can lie behind a lock, and small, since its actor lies in a `Box`.
//!
//! Only tested: that the calls answer `Ok` where memory is ample, and that a look at a link shows what the other end
//! sent. Not said: in which order the messages of several links come.
#![tactic(auto)]

mod actor_set;
mod cell;
mod cells;
mod cells_serving;
mod opening;
mod preparing;
mod sending;
mod serving;
mod targets;

pub use actor_set::ActorSet;
pub use cell::{Cell, CellTag, LinkTally};
pub use cells::Cells;
pub use preparing::prepare;
pub use serving::Turned;
