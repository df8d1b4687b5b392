//! What the lines of a run say of posts, beside its expected run. Lines are counted from 0.
ghost use Rattle.std.specs.Prelude.{◌≡◌, ℕ, ◌+◌, ◌^◌, ◌<◌, ◌≤◌, length, slice_get};
ghost use Rattle.fair_semantics.specs.Step.{is_running};
ghost use Rattle.run_order_law.specs.Sorted.{entries_in};
ghost use Rattle.log_replay.specs.Kept.{earlier, entries_size, entry_size, link_fault, posts_fault, section_fault, section_size, sections_size};
ghost use Rattle.log_replay.specs.Shared.{runs_at, shown_run};

use crate::shared::{Shared, posts_shown};
use fair_semantics::{ActorRun, Ending, Entry, Run};
use log_posts::{Link, has_message, is_from};

/// How many lines of a log an entry takes: one, and for a firing one more and one for each of its effects.
pub fn entry_size(entry: &Entry) -> u64
    requires { entry_size entry.now < 2 ^ 64 }
    ensures { result ≡ entry_size entry.now }
{
    match entry.firing.get() {
        Some(firing) => 2 + firing.effects.len() as u64,
        None => 1,
    }
}

/// How many lines of a log the section of an actor takes: its heading, its entries, its late counts and its end.
pub fn section_size(own: &ActorRun) -> u64
    requires { section_size own.now < 2 ^ 64 }
    ensures { result ≡ section_size own.now }
{
    let mut size: u64 = 2;
    for entry in own.entries.as_slice() {
        size += entry_size(entry);
    }
    size + own.late.len() as u64
}

// The first line that does not hold of the posts from an actor: of the entries, the first at this line, or the end line
// behind them and the late ones, where the section is to run on.
fn link_fault(
    posts: Link,
    from: u32,
    runs_on: bool,
    late: u64,
    first: u64,
    entries: &[Entry],
) -> Option<u64>
    requires { first + entries_size entries.now + late < 2 ^ 64 }
    ensures { result ≡ link_fault posts.entry from runs_on late first 0 entries.now }
{
    let mut left = posts;
    let mut line = first;
    for entry in entries {
        if is_from(entry.source, from) {
            if !has_message(left.next(), &entry.message) {
                return Some(line);
            }
        }
        line += entry_size(entry);
    }
    if runs_on && left.next().is_some() {
        return Some(line + late);
    }
    None
}

// The entries of the actor at this place, or none.
pub(crate) fn entries_at(runs: &[ActorRun], place: usize) -> &[Entry]
    ensures { result.now ≡ entries_in (slice_get runs.now place) }
{
    match runs.get(place) {
        Some(own) => own.entries.as_slice(),
        None => &[],
    }
}

pub(crate) fn is_running(ending: Ending) -> bool
    ensures { result ≡ is_running ending }
{
    match ending {
        Ending::Running => true,
        Ending::Stopped => false,
        Ending::Jammed => false,
        Ending::Spent => false,
    }
}

// Whether the actor at this place runs on.
fn runs_on(reads: &[ActorRun], runs: &[Shared], place: usize) -> bool
    ensures { result ≡ runs_at (slice_get reads.now place) (slice_get runs.now place) }
{
    match reads.get(place) {
        None => false,
        Some(_) => match runs.get(place) {
            None => false,
            Some(shared) => is_running(shared.own.ending),
        },
    }
}

// The lesser of two of which each may be missing.
pub(crate) fn earlier(first: Option<u64>, second: Option<u64>) -> Option<u64>
    ensures { result ≡ earlier first second }
{
    match first {
        None => second,
        Some(one) => match second {
            None => Some(one),
            Some(other) => Some(one.min(other)),
        },
    }
}

// The first line of the section of an actor that does not hold of the posts of some actor. The section begins at this
// line.
fn section_fault(run: &Run, expected: &[Shared], to: u32, line: u64, own: &ActorRun) -> Option<u64>
    requires few { length run.now.actors ≤ 32 }
    requires small { line + section_size own.now < 2 ^ 64 }
    ensures { result ≡ section_fault run.now (shown_run run.now expected.now) to line own.now }
{
    let reads = run.actors.as_slice();
    let runs_on = runs_on(reads, expected, to as usize);
    let late = own.late.len() as u64;
    let mut first = None;
    let mut from: u32 = 0;
    while (from as usize) < run.actors.len() {
        let posts = posts_shown(reads, expected, from as usize, to);
        let fault = link_fault(posts, from, runs_on, late, line + 1, own.entries.as_slice());
        first = earlier(first, fault);
        from += 1;
    }
    first
}

// The first line of the run that does not hold of the posts of its expected run.
pub(crate) fn posts_fault(run: &Run, expected: &[Shared]) -> Option<u64>
    requires few { length run.now.actors ≤ 32 }
    requires small { 1 + sections_size run.now.actors < 2 ^ 64 }
    ensures { result ≡ posts_fault run.now (shown_run run.now expected.now) }
{
    let mut line: u64 = 1;
    for (to, own) in run.actors.as_slice().iter().enumerate() {
        if let Some(fault) = section_fault(run, expected, to as u32, line, own) {
            return Some(fault);
        }
        line += section_size(own);
    }
    None
}
