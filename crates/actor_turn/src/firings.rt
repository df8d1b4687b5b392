//! What the arrivals of an actor fired.
ghost use Rattle.std.specs.Prelude.{◌≡◌, ◌+◌, ◌-◌, ◌<◌, ◌≤◌, ◌^◌, [], ◌∷◌, ◌++◌, OnOk, length, if◌then◌else◌};
ghost use Rattle.std.specs.Option.{is_some};
ghost use Rattle.actor_turn.specs.Counts.{fired_among, is_post, post_count, posts_among};

use fair_semantics::{Effect, Fired};
use join_base::NoMemory;
use std::alloc::Global;
use std::marker::Model;

/// What each arrival of an actor fired, if it did. How many fired and how many posts they made is counted as they come.
#[derive(Drop)]
pub struct Firings {
    items: Vec<Fired>,
    fired: u32,
    // Or the last number of 64 bits.
    posts: u64,
}

impl Model for Firings {
    ghost use Rattle.actor_turn.specs.Firings.{FiringList, IsCounted, firing_list};

    ghost Value = { FiringList };

    ghost view = { firing_list };

    ghost invariant = { IsCounted };
}

fn is_post(effect: &Effect) -> bool
    ensures { result ≡ is_post effect.now }
{
    match effect {
        Effect::Post { .. } => true,
        Effect::Print(_) | Effect::Reply { .. } => false,
    }
}

/// How many posts a firing made.
pub fn count_posts(fired: &Fired) -> u64
    ensures { result ≡ post_count fired.now }
{
    match fired.get() {
        None => 0,
        Some(firing) => {
            let effects = firing.effects.as_slice();
            effects.iter().filter(|effect| is_post(effect)).count() as u64
        }
    }
}

// 1 for an arrival that fired, and else 0.
fn count_fired(fired: &Fired) -> u32
    ensures { result ≡ (if is_some fired.now then 1 else 0) }
{
    match fired.get() {
        None => 0,
        Some(_) => 1,
    }
}

impl Firings {
    pub fn new(alloc: Global) -> Firings
        ensures items { result.items ≡ [] }
    {
        Firings {
            items: Vec::new(alloc),
            fired: 0,
            posts: 0,
        }
    }

    /// Makes room for one more arrival.
    pub fn reserve_one(&mut self) -> Result<(), NoMemory>
        ensures items { self.new.items ≡ self.old.items }
        ensures one { OnOk result (length self.new.items + 1 ≤ self.new.room) }
    {
        self.items.reserve(1)?;
        Ok(())
    }

    /// Adds what one more arrival fired, for which there is room.
    pub fn push(&mut self, fired: Fired)
        requires few { length self.old.items < 2 ^ 32 - 1 }
        requires room { length self.old.items < self.old.room }
        ensures items { self.new.items ≡ self.old.items ++ fired ∷ [] }
    {
        self.fired += count_fired(&fired);
        self.posts = self.posts.saturating_add(count_posts(&fired));
        self.items.push(fired).unwrap();
    }

    pub fn as_slice(&self) -> &[Fired]
        ensures value { result.now ≡ self.now.items }
    {
        self.items.as_slice()
    }

    /// How many arrivals fired.
    pub fn fired_count(&self) -> u32
        ensures count { result ≡ fired_among self.now.items }
    {
        self.fired
    }

    /// How many posts they made, or the last number of 64 bits.
    pub fn post_count(&self) -> u64
        ensures count { result ≡ posts_among self.now.items }
    {
        self.posts
    }

    pub fn into_vec(self) -> Vec<Fired>
        ensures items { result.items ≡ self.items }
    {
        self.items
    }
}
