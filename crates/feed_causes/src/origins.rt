//! The arrivals whose firings posted the arrivals from actors.
ghost use Rattle.std.specs.Prelude.{◌≡◌, ◌≤◌, count_by, length, slice_get, IfOk};
ghost use Rattle.fair_semantics.specs.Linked.{firing_effects};
ghost use Rattle.feed_causes.specs.Causes.{is_from, is_post_to, origin_of, posters, posts_by};
ghost use Rattle.feed_causes.specs.Search.{origin_in, origins_from};

use crate::arrivals::Arrival;
use fair_semantics::{Effect, Entry};
use join_base::{Items, NoMemory, Source};
use std::alloc::Global;

fn is_from(arrival: &Arrival, from: u32, to: u32) -> bool
    ensures { result ≡ is_from from to arrival.now }
{
    arrival.actor() == to && arrival.entry().source == Source::Actor(from)
}

// How many of these arrivals came from one actor to another.
fn received(before: &[Arrival], from: u32, to: u32) -> usize
    ensures { result ≡ count_by (is_from from to) before.now }
{
    let mut count: usize = 0;
    for arrival in before {
        if is_from(arrival, from, to) {
            count += 1;
        }
    }
    count
}

fn is_post_to(effect: &Effect, to: u32) -> bool
    ensures { result ≡ is_post_to to effect.now }
{
    match effect {
        Effect::Print(_) => false,
        Effect::Post { target, .. } => *target == to,
        Effect::Reply { .. } => false,
    }
}

fn post_count(effects: &[Effect], to: u32) -> usize
    ensures { result ≡ count_by (is_post_to to) effects.now }
{
    let mut count: usize = 0;
    for effect in effects {
        if is_post_to(effect, to) {
            count += 1;
        }
    }
    count
}

fn entry_posts(entry: &Entry, to: u32) -> usize
    ensures { result ≡ count_by (is_post_to to) (firing_effects entry.now.firing) }
{
    match entry.firing.get() {
        Some(firing) => post_count(firing.effects.as_slice(), to),
        None => 0,
    }
}

fn posts_by(arrival: &Arrival, from: u32, to: u32) -> usize
    ensures { result ≡ posts_by from to arrival.now }
{
    if arrival.actor() == from {
        entry_posts(arrival.entry(), to)
    } else {
        0
    }
}

// The place of the arrival whose firing made the post behind so many from one actor to another.
fn poster(all: &[Arrival], from: u32, to: u32, behind: usize) -> Option<usize>
    ensures { result ≡ slice_get (posters from to 0 all.now) behind }
{
    let mut left = behind;
    for (place, arrival) in all.iter().enumerate() {
        let count = posts_by(arrival, from, to);
        if left < count {
            return Some(place);
        }
        left -= count;
    }
    None
}

// The place of the arrival whose firing posted what came to an actor at this place.
fn origin_of(all: &[Arrival], place: usize, to: u32, source: Source) -> Option<usize>
    requires within { place ≤ length all.now }
    ensures { result ≡ origin_of all.now place to source }
{
    match source {
        Source::Feed(_) => None,
        Source::Actor(from) => {
            let behind = received(all.split_at(place).0, from, to);
            poster(all, from, to, behind)
        }
    }
}

/// The origin of each arrival, in order.
pub(crate) fn origins_of(alloc: Global, all: &[Arrival]) -> Result<Items<Option<usize>>, NoMemory>
    ensures { IfOk result (λ origins. origins ≡ origins_from all.now 0 all.now) }
{
    let mut origins = Items::new(alloc);
    for (place, arrival) in all.iter().enumerate() {
        origins.push(origin_of(all, place, arrival.actor(), arrival.entry().source))?;
    }
    Ok(origins)
}

/// The origin that stands at a place, if there is one.
pub(crate) fn origin_in(origins: &[Option<usize>], place: usize) -> Option<usize>
    ensures { result ≡ origin_in (slice_get origins.now place) }
{
    match origins.get(place) {
        Some(origin) => *origin,
        None => None,
    }
}
