//! Actors that wait for room on their links.
//!
//! An actor with a post whose link is full has nothing to do until its target takes some. So it joins those that wait,
//! which all threads share, and its ticket comes back with a later turn that brought something. Before it goes without
//! a ticket it has one more turn: the target may have taken all that was on the link before the actor had joined.

use crate::helper::Noted;
use crate::pool::Pool;
use actor_cells::ActorSet;
use std::sync::atomic::Ordering;

// Takes out all actors that wait for room.
fn take_waiting(pool: &Pool) -> ActorSet {
    if pool.waiting.load(Ordering::SeqCst) == 0 {
        return ActorSet::new();
    }
    ActorSet::from_bits(pool.waiting.swap(0, Ordering::SeqCst))
}

// Adds an actor to those that wait for room, and answers whether it was none of them until now.
fn add_waiting(pool: &Pool, actor: u32) -> bool {
    let own = ActorSet::new().with(actor).bits();
    pool.waiting.fetch_or(own, Ordering::SeqCst) & own == 0
}

/// Notes who may have room again after a turn, and whether its own actor has to be looked at once more. No clause rests
/// on it.
pub(crate) fn note_room(pool: &Pool, noted: &mut Noted) {
    if noted.brought {
        noted.roomy = take_waiting(pool);
    }
    if noted.held {
        noted.again |= add_waiting(pool, noted.actor);
    }
}
