//! Moving posts from outboxes to links.
ghost use Rattle.std.specs.Prelude.{◌≡◌, ◌+◌, ◌<◌, true, if◌then◌else◌, length, set};
ghost use Rattle.actor_turn.specs.Held.{posts_for};
ghost use Rattle.actor_cells.specs.Lawful.{IsLawful, held_in, state_in};
ghost use Rattle.actor_cells.specs.Served.{AllSent, IsSent, StaysLawful};
ghost use Rattle.actor_cells.specs.Steps.{AreSmall, FirstSent, Moves};

use crate::actor_set::ActorSet;
use crate::cell::Cell;
use actor_turn::Actor;
use join_base::Stamped;
use post_ring::{Full, LinkIn};

// What became of the posts to one target: whether some were moved, and whether some are left.
#[derive(Clone, Copy)]
struct Sent {
    target: u32,
    moved: bool,
    held: bool,
}

// Moves the posts that wait for a target to its link, as far as room is known.
fn send_over(actor: &mut Actor, target: u32, link: &mut LinkIn) -> Sent
    requires exists { target < length actor.old.outbox }
    requires small { AreSmall (posts_for actor.old.outbox target) }
    ensures moves { Moves target actor.old actor.new link.old link.new }
    ensures sent { IsSent target actor.new link.new }
{
    let mut moved = false;
    while let Some(post) = actor.take_post(target) {
        let Stamped { message, stamp } = post;
        match link.push(message, stamp) {
            Ok(()) => moved = true,
            Err(full) => {
                let Full { message } = full;
                actor.return_post(target, Stamped { message, stamp });
                return Sent {
                    target,
                    moved,
                    held: true,
                };
            }
        }
    }
    Sent {
        target,
        moved,
        held: false,
    }
}

// The actors, with the target too where it is to be among them.
fn with_target(actors: ActorSet, target: u32, is_in: bool) -> ActorSet
    ensures { result ≡ (if is_in then set actors target true else actors) }
{
    if is_in {
        return actors.with(target);
    }
    actors
}

impl Cell {
    // Moves the posts for the target of the link at a place.
    fn send_at(&mut self, place: usize) -> Sent
        requires within { place < length self.old.outward.items }
        requires lawful { IsLawful self.old }
        ensures kept { StaysLawful self.old self.new }
        ensures inward { self.new.inward ≡ self.old.inward }
        ensures state { state_in self.new ≡ state_in self.old }
        ensures count { length self.new.outward.items ≡ length self.old.outward.items }
        ensures sent { FirstSent place (held_in self.old) self.old.outward.items
            → FirstSent (place + 1) (held_in self.new) self.new.outward.items }
    {
        let one = &mut self.outward[place];
        send_over(&mut self.actor, one.target, &mut one.link)
    }

    /// Notes what was moved and what is left.
    pub(crate) fn note(&mut self, moved: ActorSet, held: ActorSet)
        requires lawful { IsLawful self.old }
        ensures kept { StaysLawful self.old self.new }
        ensures inward { self.new.inward ≡ self.old.inward }
        ensures outward { self.new.outward ≡ self.old.outward }
        ensures held { held_in self.new ≡ held_in self.old }
    {
        self.moved = moved;
        self.held = held;
    }

    /// Moves posts from the outboxes to their links as far as room is known, and notes it beside what was moved before.
    pub(crate) fn send(&mut self)
        requires lawful { IsLawful self.old }
        ensures kept { StaysLawful self.old self.new }
        ensures inward { self.new.inward ≡ self.old.inward }
        ensures state { state_in self.new ≡ state_in self.old }
        ensures sent { AllSent self.new }
    {
        let mut moved = self.moved;
        let mut held = ActorSet::new();
        for place in 0..self.outward.len() {
            let sent = self.send_at(place);
            moved = with_target(moved, sent.target, sent.moved);
            held = with_target(held, sent.target, sent.held);
        }
        self.note(moved, held);
    }

    /// Moves posts where the outboxes may hold some: those that a firing has just made, or those that were left before.
    /// For most arrivals there are none.
    #[inline(always)]
    pub(crate) fn send_rest(&mut self, fired: bool)
        requires lawful { IsLawful self.old }
        ensures kept { StaysLawful self.old self.new }
        ensures inward { self.new.inward ≡ self.old.inward }
        ensures state { state_in self.new ≡ state_in self.old }
    {
        if !fired && self.held.is_empty() {
            return;
        }
        self.send();
    }
}
