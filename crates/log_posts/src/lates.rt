//! The late counts of an actor, by the posts of each link to it.
ghost use Rattle.std.specs.Prelude.{◌≡◌, ◌-◌, ◌++◌, ◌≤◌, ◌^◌, drop, length, min, true, OnOk, IfOk};
ghost use Rattle.join_base.specs.Late.{late_list, late_one};
ghost use Rattle.join_base.specs.declared.message.Source.TheVariants.{Actor, Feed};
ghost use Rattle.fair_semantics.specs.Linked.{count_of, same_source, taken_from};
ghost use Rattle.log_posts.specs.Lates.{actor_counts, count_where, feed_counts, lates_made};

use crate::posts::Link;
use crate::same::same_source;
use fair_semantics::Entry;
use join_base::{Items, NoMemory, Source};
use std::alloc::Global;

/// Whether the source is this actor.
pub fn is_from(source: Source, from: u32) -> bool
    ensures { result ≡ same_source source (Actor from) }
{
    source == Source::Actor(from)
}

// The late count of a source among those that were read, or 0.
fn read_count(late: &[(Source, u64)], source: Source) -> u64
    ensures { result ≡ count_of source late.now }
{
    for (of, count) in late {
        if same_source(*of, source) {
            return *count;
        }
    }
    0
}

// How many of the entries are from an actor.
fn count_from(entries: &[Entry], from: u32) -> usize
    ensures { result ≡ length (taken_from (Actor from) entries.now) }
{
    let mut count: usize = 0;
    for entry in entries {
        if is_from(entry.source, from) {
            count += 1;
        }
    }
    count
}

fn count_where(may: bool, count: u64) -> u64
    ensures { result ≡ count_where may count }
{
    if may { count } else { 0 }
}

// Appends the count, if it is above 0.
fn push_late(late: &mut Items<(Source, u64)>, source: Source, count: u64) -> Result<(), NoMemory>
    ensures { OnOk result (late.new ≡ late.old ++ late_one source count) }
{
    if count == 0 {
        return Ok(());
    }
    late.push((source, count))
}

fn push_feeds(
    late: &mut Items<(Source, u64)>,
    may: bool,
    read: &[(Source, u64)],
    feeds: u32,
) -> Result<(), NoMemory>
    requires few { feeds ≤ 16 }
    ensures { OnOk result (late.new ≡ late.old ++ late_list (λ k. Feed k) 1 (feed_counts may read.now 1 feeds)) }
{
    let mut feed: u32 = 1;
    while feed <= feeds {
        let count = count_where(may, read_count(read, Source::Feed(feed)));
        push_late(late, Source::Feed(feed), count)?;
        feed += 1;
    }
    Ok(())
}

// The posts behind so many.
#[tactic(auto, using(crate::proofs::PostsLemmas::one_more_gone))]
fn behind<'a>(link: Link<'a>, count: usize) -> Link<'a>
    ensures { result ≡ drop count link.entry }
{
    let mut rest = link;
    for _ in 0..count {
        rest.next();
    }
    rest
}

// How many posts there are, counted up to the last 64-bit number.
#[tactic(auto, using(crate::proofs::PostsLemmas::one_left))]
fn post_count(link: Link) -> u64
    ensures { result ≡ min (length link.entry) (2 ^ 64 - 1) }
{
    let mut rest = link;
    let mut count: u64 = 0;
    while let Some(_) = rest.next() {
        count = count.saturating_add(1);
    }
    count
}

// Appends the counts of actors, where some message may be late.
fn push_actors(
    late: &mut Items<(Source, u64)>,
    entries: &[Entry],
    links: &[Link],
) -> Result<(), NoMemory>
    requires few { length links.now ≤ 32 }
    ensures { OnOk result (late.new ≡ late.old ++ late_list (λ a. Actor a) 0 (actor_counts true entries.now
        0 links.now)) }
{
    for (from, link) in links.iter().enumerate() {
        let taken = count_from(entries, from as u32);
        let beyond = post_count(behind(link.again(), taken));
        push_late(late, Source::Actor(from as u32), beyond)?;
    }
    Ok(())
}

/// The late counts above 0 of an actor, where there may be some: of the feeds those that were read, and of the actors
/// their posts beyond those that arrived, each up to the last 64-bit number. The entries are those of the actor, and
/// the links the posts to it from each actor: up to 16 feeds and 32 actors.
pub fn lates_made(
    alloc: Global,
    may: bool,
    read: &[(Source, u64)],
    feeds: u32,
    entries: &[Entry],
    links: &[Link],
) -> Result<Items<(Source, u64)>, NoMemory>
    requires few { feeds ≤ 16 }
    requires actors { length links.now ≤ 32 }
    ensures { IfOk result (λ late. late ≡ lates_made may read.now feeds entries.now links.now) }
{
    let mut late = Items::new(alloc);
    push_feeds(&mut late, may, read, feeds)?;
    if may {
        push_actors(&mut late, entries, links)?;
    }
    Ok(late)
}
