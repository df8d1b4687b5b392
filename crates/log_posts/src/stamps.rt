//! The stamps of the arrivals of an actor, by the posts of each link to it.
ghost use Rattle.std.specs.Prelude.{◌≡◌, length, slice_get, IfOk};
ghost use Rattle.std.specs.List.{AllByRecursion};
ghost use Rattle.fair_semantics.specs.Linked.{arrived, stamp_at};
ghost use Rattle.log_posts.specs.Stamps.{HasLink, links_after, next_stamp, posts_from, stamps_behind, stamps_in, with_stamps};

use crate::posts::{Link, Posted};
use fair_semantics::{Entry, LogVersion};
use join_base::{Items, NoMemory, Source, Stamped};
use std::alloc::Global;

fn next_stamp(before: u64, carried: u64) -> u64
    ensures { result ≡ next_stamp before carried }
{
    let latest = before.max(carried);
    if latest < Stamped::GREATEST {
        latest + 1
    } else {
        1
    }
}

// The stamp of a post, or 0.
fn stamp_at(post: Option<Posted>) -> u64
    ensures { result ≡ stamp_at post.entry }
{
    match post {
        Some(post) => post.stamp(),
        None => 0,
    }
}

// Takes the next post of a source from its link. The answer is its stamp, or 0.
fn take_carried(links: &mut Vec<Link>, source: Source) -> u64
    requires exists { HasLink (length links.old.items) source }
    ensures carried { result ≡ stamp_at (slice_get (posts_from links.old.items source) 0) }
    ensures taken { links.new.items ≡ links_after links.old.items source }
{
    match source {
        Source::Feed(_) => 0,
        Source::Actor(actor) => stamp_at(links[actor as usize].next()),
    }
}

// The stamps of the arrivals, where nothing was taken before them.
fn stamps_made(alloc: Global, links: Items<Link>, entries: &[Entry]) -> Result<Items<u64>, NoMemory>
    requires exist { AllByRecursion (λ entry. HasLink (length links) entry.source) entries.now }
    ensures { IfOk result (λ stamps. stamps ≡ stamps_behind 0 (arrived (posts_from links.entry) entries.now)) }
{
    let mut left = links.into_vec();
    let mut stamps = Items::new(alloc);
    let mut before: u64 = 0;
    for entry in entries {
        before = next_stamp(before, take_carried(&mut left, entry.source));
        stamps.push(before)?;
    }
    Ok(stamps)
}

/// The stamps of the arrivals of an actor, in order, by the posts to it from each actor, which are taken one after the
/// other: each is 1 more than the greater of the one before and that of the post, or 1 where no stamp is left. A plain
/// log has none, so each is 0 there. An arrival from an actor is from one of these.
pub fn stamps_in(
    alloc: Global,
    version: LogVersion,
    links: Items<Link>,
    entries: &[Entry],
) -> Result<Items<u64>, NoMemory>
    requires exist { AllByRecursion (λ entry. HasLink (length links) entry.source) entries.now }
    ensures { IfOk result (λ stamps. stamps ≡ stamps_in version links.entry entries.now) }
{
    if !version.has_stamps() {
        let zeros = vec![in alloc; 0; entries.len()]?;
        return Ok(Items::from_vec(zeros));
    }
    stamps_made(alloc, links, entries)
}

/// The entries with these stamps, as far as there are any.
#[tactic(auto, using(crate::proofs::StampsLemmas::stamped_all, crate::proofs::StampsLemmas::stamped_more))]
pub fn with_stamps(entries: Items<Entry>, stamps: &[u64]) -> Items<Entry>
    ensures { result ≡ with_stamps stamps.now entries }
{
    let mut rows = entries.into_vec();
    let count = rows.len().min(stamps.len());
    let mut place: usize = 0;
    while place < count {
        rows[place].stamp = stamps[place];
        place += 1;
    }
    Items::from_vec(rows)
}
