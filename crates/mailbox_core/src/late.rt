//! How many messages of each source were late.
ghost use Rattle.std.specs.Prelude.{◌≡◌, ◌+◌, ◌^◌, ◌<◌, ◌≤◌, ◌++◌, IfOk, replicate, length, vec_len, vec_capacity};
ghost use Rattle.join_base.specs.declared.message.Source.TheVariants.{Feed, Actor};
ghost use Rattle.join_base.specs.Late.{HasCount, late_count, late_counts, late_list, late_more, late_one, raised_at};

use join_base::{Items, NoMemory, Source};
use std::alloc::Global;
use std::marker::Model;

/// How many messages of each source were late. It keeps room for the list of the counts above 0.
#[derive(Drop)]
pub struct LateCounts {
    feeds: Vec<u64>,
    actors: Vec<u64>,
    listed: Vec<(Source, u64)>,
}

impl Model for LateCounts {
    ghost use Rattle.join_base.specs.Late.{Late};
    ghost use Rattle.mailbox_core.specs.LateRoom.{HasRoom};

    ghost Value = { Late };

    ghost view = { λ a. record { feeds = a.feeds.items; actors = a.actors.items } };

    ghost invariant = { HasRoom };
}

impl LateCounts {
    /// A count of 0 for each feed and each actor.
    pub fn new(alloc: Global, feeds: u32, actors: u32) -> Result<LateCounts, NoMemory>
        ensures zero { IfOk result (λ a. a ≡ record { feeds = replicate feeds 0; actors = replicate actors 0 }) }
    {
        let listed = Vec::with_capacity(alloc, feeds as usize + actors as usize)?;
        let feeds = zeros(alloc, feeds as usize)?;
        let actors = zeros(alloc, actors as usize)?;
        Ok(LateCounts {
            feeds,
            actors,
            listed,
        })
    }

    /// Raises the count of a source by 1, if it is not the last number.
    pub fn add(&mut self, source: Source)
        requires exists { HasCount self.old source }
        ensures { self.new ≡ late_more self.old source }
    {
        match source {
            Source::Feed(number) => raise(&mut self.feeds, (number - 1) as usize),
            Source::Actor(number) => raise(&mut self.actors, number as usize),
        }
    }

    pub fn count(&self, source: Source) -> u64
        requires exists { HasCount self.now source }
        ensures { result ≡ late_count self.now source }
    {
        match source {
            Source::Feed(number) => self.feeds[(number - 1) as usize],
            Source::Actor(number) => self.actors[number as usize],
        }
    }

    /// The counts above 0, those of the feeds first.
    pub fn into_items(self) -> Items<(Source, u64)>
        ensures { result ≡ late_counts self }
    {
        let LateCounts {
            feeds,
            actors,
            mut listed,
        } = self;
        list_feeds(&feeds, &mut listed);
        list_actors(&actors, &mut listed);
        Items::from_vec(listed)
    }
}

// As many zeros.
fn zeros(alloc: Global, count: usize) -> Result<Vec<u64>, NoMemory>
    ensures { IfOk result (λ v. v.items ≡ replicate count 0) }
{
    let zeros = vec![in alloc; 0; count]?;
    Ok(zeros)
}

/// Raises the count at a place by 1, if it is not the last number.
pub fn raise(counts: &mut [u64], place: usize)
    requires { place < length counts.old }
    ensures { counts.new ≡ raised_at counts.old place }
{
    if counts[place] < u64::MAX {
        counts[place] += 1;
    }
}

// Appends the count of a source, if it is above 0.
fn list_one(listed: &mut Vec<(Source, u64)>, source: Source, count: u64)
    requires room { vec_len listed.old < vec_capacity listed.old }

    ensures listed { listed.new.items ≡ listed.old.items ++ late_one source count }
    ensures room { vec_len listed.new ≤ vec_len listed.old + 1 }
    ensures capacity { vec_capacity listed.old ≤ vec_capacity listed.new }
{
    if count > 0 {
        listed.push((source, count)).unwrap();
    }
}

// Appends the counts of the feeds that are above 0.
fn list_feeds(counts: &[u64], listed: &mut Vec<(Source, u64)>)
    requires few { length counts.now < 2 ^ 32 }
    requires room { vec_len listed.old + length counts.now ≤ vec_capacity listed.old }

    ensures listed { listed.new.items ≡ listed.old.items ++ late_list (λ k. Feed k) 1 counts.now }
    ensures room { vec_len listed.new ≤ vec_len listed.old + length counts.now }
    ensures capacity { vec_capacity listed.old ≤ vec_capacity listed.new }
{
    for (place, count) in counts.iter().enumerate() {
        list_one(listed, Source::Feed(place as u32 + 1), *count);
    }
}

// Appends the counts of the actors that are above 0.
fn list_actors(counts: &[u64], listed: &mut Vec<(Source, u64)>)
    requires few { length counts.now < 2 ^ 32 }
    requires room { vec_len listed.old + length counts.now ≤ vec_capacity listed.old }

    ensures { listed.new.items ≡ listed.old.items ++ late_list (λ a. Actor a) 0 counts.now }
{
    for (place, count) in counts.iter().enumerate() {
        list_one(listed, Source::Actor(place as u32), *count);
    }
}
