//! Making all links of a pool.
ghost use Rattle.std.specs.Prelude.{◌≡◌, ℕ, List, ◌<◌, ◌≤◌, ◌++◌, [], length, map, replicate, All, IfOk, OnOk};
ghost use Rattle.cell_links.specs.Ends.{PosterTag, link_count, link_tags, poster_links, poster_tag};
ghost use Rattle.cell_links.specs.InOrder.{AreCounted, AreInOrder};
ghost use Rattle.cell_links.specs.Wiring.{AreLinked, IsWired, feed_keys};
ghost use Rattle.cell_links.specs.Making.{AllNew, AreNew, IsNewOut, TargetsApart, keys_from, sending_from};

use crate::ends::{ActorLinks, Inward, Outward};
use crate::feed_links::FeedLinks;
use crate::making::connect_source;
use join_base::{Items, NoMemory, Source};
use std::alloc::Global;

// No link into any of so many actors.
fn no_links(alloc: Global, count: u32) -> Result<Vec<Items<Inward>>, NoMemory>
    ensures empty { IfOk result (λ inwards. inwards.items ≡ replicate count []) }
{
    let mut inwards = Vec::new(alloc);
    for _ in 0..count {
        inwards.push(Items::new(alloc))?;
    }
    Ok(inwards)
}

// The numbers of all actors.
fn all_targets(alloc: Global, count: u32) -> Result<Vec<u32>, NoMemory>
    ensures count { IfOk result (λ targets. length targets.items ≡ count) }
    ensures counted { IfOk result (λ targets. AreCounted targets.items) }
    ensures below { IfOk result (λ targets. All (λ t. t < count) targets.items) }
    ensures apart { IfOk result (λ targets. TargetsApart targets.items) }
{
    let mut targets = Vec::new(alloc);
    for target in 0..count {
        targets.push(target)?;
    }
    Ok(targets)
}

// The links from all feeds to all actors.
fn connect_feeds(
    alloc: Global,
    feeds: u32,
    ring: u32,
    targets: &[u32],
    inwards: &mut Vec<Items<Inward>>,
) -> Result<Vec<FeedLinks>, NoMemory>
    requires feeds { feeds ≤ 16 }
    requires ring { (1 ≤ ring) × (ring ≤ 4096) }
    requires exist { All (λ t. t < length inwards.old.items) targets.now }
    requires counted { AreCounted targets.now }
    requires apart { TargetsApart targets.now }
    requires none { AreLinked [] (keys_from 0 inwards.old.items) }
    requires fresh { AllNew inwards.old.items }
    ensures count { length inwards.new.items ≡ length inwards.old.items }
    ensures posters { IfOk result (λ posters. length posters.items ≡ feeds) }
    ensures each { IfOk result (λ posters. All (λ p. (link_count p ≡ length targets.now)
        × All (IsNewOut ring) (poster_links p)) posters.items) }
    ensures linked { IfOk result (λ posters. AreLinked (feed_keys 1 (map poster_tag posters.items))
        (keys_from 0 inwards.new.items)) }
    ensures fresh { IfOk result (λ _. AllNew inwards.new.items) }
{
    let mut posters = Vec::new(alloc);
    for i in 0..feeds {
        let outward = connect_source(alloc, Source::Feed(i + 1), targets, ring, inwards)?;
        posters.push(FeedLinks::of(outward))?;
    }
    Ok(posters)
}

// The links from all actors to their targets.
fn connect_actors(
    alloc: Global,
    ring: u32,
    targets: &[Vec<u32>],
    inwards: &mut Vec<Items<Inward>>,
) -> Result<Vec<Items<Outward>>, NoMemory>
    requires few { length targets.now ≤ 32 }
    requires ring { (1 ≤ ring) × (ring ≤ 4096) }
    requires exist { All (λ ts. All (λ t. t < length inwards.old.items) ts.items) targets.now }
    requires apart { All (λ ts. TargetsApart ts.items) targets.now }
    ensures count { length inwards.new.items ≡ length inwards.old.items }
    ensures outwards { IfOk result (λ outwards. length outwards.items ≡ length targets.now) }
    ensures targets { IfOk result (λ outwards. map (λ ws. map (λ w. w.target) ws) outwards.items
        ≡ map (λ ts. ts.items) targets.now) }
    ensures sends { IfOk result (λ outwards. All (All (IsNewOut ring)) outwards.items) }
    ensures linked { IfOk result (λ outwards. (tags : List PosterTag) → AreLinked (feed_keys 1 tags) (keys_from 0 inwards.old.items)
        → AreLinked (feed_keys 1 tags ++ sending_from 0 outwards.items) (keys_from 0 inwards.new.items)) }
    ensures fresh { OnOk result (AllNew inwards.old.items → AllNew inwards.new.items) }
{
    let mut outwards = Vec::new(alloc);
    for i in 0..targets.len() {
        let some = &targets[i];
        let outward = connect_source(
            alloc,
            Source::Actor(i as u32),
            some.as_slice(),
            ring,
            inwards,
        )?;
        outwards.push(Items::from_vec(outward))?;
    }
    Ok(outwards)
}

// The links into each actor and out of it.
fn into_links(
    alloc: Global,
    inwards: Vec<Items<Inward>>,
    mut outwards: Vec<Items<Outward>>,
) -> Result<Vec<ActorLinks>, NoMemory>
    requires count { length outwards.items ≡ length inwards.items }
    ensures inward { IfOk result (λ links. map (λ l. l.inward.items) links.items ≡ inwards.items) }
    ensures outward { IfOk result (λ links. map (λ l. l.outward.items) links.items ≡ outwards.items) }
{
    outwards.reverse();
    let mut links = Vec::new(alloc);
    for inward in inwards {
        let Some(outward) = outwards.pop() else {
            unreachable!()
        };
        links.push(ActorLinks {
            inward: inward.into_vec(),
            outward: outward.into_vec(),
        })?;
    }
    Ok(links)
}

/// All links of so many feeds and of actors with these targets: from each feed to each actor, and from each actor to
/// each of its targets. Each link has room for `ring` messages.
pub fn connect(
    alloc: Global,
    feeds: u32,
    targets: &[Vec<u32>],
    ring: u32,
) -> Result<(Vec<ActorLinks>, Vec<FeedLinks>), NoMemory>
    requires feeds { feeds ≤ 16 }
    requires few { length targets.now ≤ 32 }
    requires ring { (1 ≤ ring) × (ring ≤ 4096) }
    requires exist { All (λ ts. All (λ t. t < length targets.now) ts.items) targets.now }
    requires apart { All (λ ts. TargetsApart ts.items) targets.now }
    ensures actors { IfOk result (λ r. length r.0.items ≡ length targets.now) }
    ensures targets { IfOk result (λ r. map (λ l. map (λ w. w.target) l.outward.items) r.0.items
        ≡ map (λ ts. ts.items) targets.now) }
    ensures posters { IfOk result (λ r. length r.1.items ≡ feeds) }
    ensures each { IfOk result (λ r. All (λ p. (link_count p ≡ length targets.now)
        × All (IsNewOut ring) (poster_links p)) r.1.items) }
    ensures wired { IfOk result (λ r. IsWired (map link_tags r.0.items) (map poster_tag r.1.items)) }
    ensures fresh { IfOk result (λ r. All (AreNew ring) r.0.items) }
{
    let count = targets.len() as u32;
    let all = all_targets(alloc, count)?;
    let mut inwards = no_links(alloc, count)?;
    let posters = connect_feeds(alloc, feeds, ring, all.as_slice(), &mut inwards)?;
    let outwards = connect_actors(alloc, ring, targets, &mut inwards)?;
    let links = into_links(alloc, inwards, outwards)?;
    Ok((links, posters))
}
