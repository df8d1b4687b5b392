//! Marks at what firings took.
ghost use Rattle.std.specs.Prelude.{◌≡◌, ◌<◌, ◌^◌, true, length, map, slice_get, OnOk};
ghost use Rattle.feed_causes.specs.Causes.{place_of, taken_at, taken_of};
ghost use Rattle.feed_causes.specs.Search.{all_awaited, all_marked, awaited, is_open, led_by, marked};

use crate::arrivals::Arrival;
use fair_semantics::Entry;
use join_base::{Items, NoMemory};

// The place of the arrival with a number, from that of one of the same actor with its own.
fn place_of(place: usize, own: u32, number: u32) -> usize
    requires small { place < 2 ^ 63 }
    ensures { result ≡ place_of place own number }
{
    let reached = place + number as usize;
    reached.saturating_sub(own as usize)
}

fn is_open(marks: &[bool], place: usize) -> bool
    ensures open { result ≡ is_open (slice_get marks.now place) }
    ensures within { result ≡ true → place < length marks.now }
{
    match marks.get(place) {
        Some(mark) => !*mark,
        None => false,
    }
}

// Marks a place. Where it had no mark, it waits.
fn mark_one(marks: &mut Vec<bool>, waiting: &mut Items<usize>, place: usize) -> Result<(), NoMemory>
    ensures marks { OnOk result (marks.new.items ≡ marked marks.old.items place) }
    ensures waiting { OnOk result (waiting.new ≡ awaited marks.old.items place waiting.old) }
{
    if !is_open(marks.as_slice(), place) {
        return Ok(());
    }
    waiting.push(place)?;
    marks[place] = true;
    Ok(())
}

// Marks the arrivals with these numbers, of the actor of the one at a place, which has its own number.
fn mark_numbers(
    marks: &mut Vec<bool>,
    waiting: &mut Items<usize>,
    place: usize,
    own: u32,
    numbers: &[u32],
) -> Result<(), NoMemory>
    requires small { place < 2 ^ 63 }
    ensures marks { OnOk result (marks.new.items ≡ all_marked marks.old.items (map (place_of place own) numbers.now)) }
    ensures waiting { OnOk result (waiting.new ≡ all_awaited marks.old.items (map (place_of place own) numbers.now)
        waiting.old) }
{
    for number in numbers {
        mark_one(marks, waiting, place_of(place, own, *number))?;
    }
    Ok(())
}

// Marks what the firing of an entry at a place took.
fn mark_entry(
    marks: &mut Vec<bool>,
    waiting: &mut Items<usize>,
    place: usize,
    entry: &Entry,
) -> Result<(), NoMemory>
    requires small { place < 2 ^ 63 }
    ensures marks { OnOk result (marks.new.items ≡ all_marked marks.old.items (taken_of place entry.now)) }
    ensures waiting { OnOk result (waiting.new ≡ all_awaited marks.old.items (taken_of place entry.now) waiting.old) }
{
    match entry.firing.get() {
        Some(firing) => mark_numbers(marks, waiting, place, entry.number, firing.taken.as_slice()),
        None => Ok(()),
    }
}

// Marks what the firing took that stands at a place among all arrivals.
fn mark_within(
    marks: &mut Vec<bool>,
    waiting: &mut Items<usize>,
    all: &[Arrival],
    place: usize,
) -> Result<(), NoMemory>
    requires within { place < length all.now }
    ensures marks { OnOk result (marks.new.items ≡ all_marked marks.old.items (taken_at all.now place)) }
    ensures waiting { OnOk result (waiting.new ≡ all_awaited marks.old.items (taken_at all.now place) waiting.old) }
{
    match all.get(place) {
        Some(arrival) => mark_entry(marks, waiting, place, arrival.entry()),
        None => Ok(()),
    }
}

/// Marks what the firing at a place took, if an arrival stands there. What had no mark waits.
#[tactic(auto, using(crate::proofs::TakenLemmas::none_marked, crate::proofs::TakenLemmas::none_awaited))]
pub(crate) fn mark_taken(
    marks: &mut Vec<bool>,
    waiting: &mut Items<usize>,
    all: &[Arrival],
    place: usize,
) -> Result<(), NoMemory>
    ensures marks { OnOk result (marks.new.items ≡ all_marked marks.old.items (taken_at all.now place)) }
    ensures waiting { OnOk result (waiting.new ≡ all_awaited marks.old.items (taken_at all.now place) waiting.old) }
{
    if place >= all.len() {
        return Ok(());
    }
    mark_within(marks, waiting, all, place)
}

/// Marks what the firing took that is an arrival's origin, if it has one.
pub(crate) fn mark_led(
    marks: &mut Vec<bool>,
    waiting: &mut Items<usize>,
    all: &[Arrival],
    origin: Option<usize>,
) -> Result<(), NoMemory>
    ensures marks { OnOk result (marks.new.items ≡ all_marked marks.old.items (led_by all.now origin)) }
    ensures waiting { OnOk result (waiting.new ≡ all_awaited marks.old.items (led_by all.now origin) waiting.old) }
{
    match origin {
        Some(origin) => mark_taken(marks, waiting, all, origin),
        None => Ok(()),
    }
}
