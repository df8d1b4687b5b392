//! Bringing what is left of feeds, and what waits in outboxes.
ghost use Rattle.std.specs.Prelude.{◌≡◌, ℕ, ◌+◌, ◌<◌, ◌≤◌, [], length, map, false, true, IfOk, OnOk, slice_get, vec_capacity};
ghost use Rattle.std.specs.List.{sum_by};
ghost use Rattle.join_base.specs.Late.{HasCount};
ghost use Rattle.join_base.specs.declared.message.Source.TheVariants as source;
ghost use Rattle.pool_settling.specs.Ends.{GoOn};
ghost use Rattle.pool_settling.specs.Rounds.{AreMembers, Brings, BringsPosts, HaveFeeds, IsFedMore, IsFedRest, OutboxIsEmpty, OutboxHasNone, run_in};
ghost use Rattle.pool_settling.specs.Work.{all_weight};

use actor_turn::Actor;
use fair_semantics::ActorRun;
use join_base::{FeedList, Items, Message, NoMemory, Source, Stamped, Steps};
use std::alloc::Global;
use std::sync::ledger::Ledger;

// Brings the posts of a feed to their actors, in order.
fn bring_feed<L: Ledger>(
    alloc: Global,
    feed: u32,
    posts: &[(u32, Message)],
    actors: &mut Vec<Actor>,
    steps: &mut Steps<L>,
) -> Result<(), NoMemory>
    requires members { AreMembers actors.old.items }
    requires exists { (1 ≤ feed) × HaveFeeds feed actors.old.items }
    ensures members { OnOk result (AreMembers actors.new.items) }
    ensures fed { OnOk result (IsFedMore feed posts.now actors.old.items actors.new.items) }
    ensures weight { OnOk result (all_weight actors.new.items ≤ all_weight actors.old.items + length posts.now) }
    ensures on { OnOk result (GoOn actors.old.items actors.new.items) }
{
    for place in 0..posts.len() {
        let (target, message) = &posts[place];
        let target = *target as usize;
        if target < actors.len() {
            actors[target].arrive(alloc, Source::Feed(feed), message, 0, steps)?;
        }
    }
    Ok(())
}

/// Brings what is left of the first feeds to the actors, feed by feed. Posts for no actor are passed over.
pub fn bring_rest<L: Ledger>(
    alloc: Global,
    rest: &FeedList,
    actors: &mut Vec<Actor>,
    steps: &mut Steps<L>,
) -> Result<(), NoMemory>
    requires members { AreMembers actors.old.items }
    requires feeds { HaveFeeds (length rest.now) actors.old.items }
    requires few { length rest.now ≤ 16 }
    ensures members { OnOk result (AreMembers actors.new.items) }
    ensures fed { OnOk result (IsFedRest rest.now actors.old.items actors.new.items) }
    ensures weight { OnOk result (all_weight actors.new.items ≤ all_weight actors.old.items + sum_by length rest.now) }
    ensures on { OnOk result (GoOn actors.old.items actors.new.items) }
{
    for place in 0..rest.len() {
        let posts = rest.at(place).as_slice();
        bring_feed(alloc, place as u32 + 1, posts, actors, steps)?;
    }
    Ok(())
}

// Brings the first post of an outbox to its target. The answer is whether there was one.
fn bring_post<L: Ledger>(
    alloc: Global,
    sender: u32,
    target: u32,
    actors: &mut Vec<Actor>,
    steps: &mut Steps<L>,
) -> Result<bool, NoMemory>
    requires members { AreMembers actors.old.items }
    requires sender { sender < length actors.old.items }
    requires target { target < length actors.old.items }
    ensures brought { IfOk result (λ found. Brings found actors.old.items actors.new.items) }
    ensures none { IfOk result (λ found. found ≡ false → OutboxHasNone actors.new.items sender target) }
{
    let Some(post) = actors[sender as usize].take_post(target) else {
        return Ok(false);
    };
    let source = Source::Actor(sender);
    let Stamped { message, stamp } = post;
    let Ok(_) = actors[target as usize].receive(alloc, source, message, stamp, steps) else {
        return Err(NoMemory);
    };
    Ok(true)
}

// Brings the first post of each outbox of an actor. The answer is whether there was one.
fn bring_from<L: Ledger>(
    alloc: Global,
    sender: u32,
    actors: &mut Vec<Actor>,
    steps: &mut Steps<L>,
) -> Result<bool, NoMemory>
    requires members { AreMembers actors.old.items }
    requires sender { sender < length actors.old.items }
    requires few { length actors.old.items ≤ 32 }
    ensures brought { IfOk result (λ found. Brings found actors.old.items actors.new.items) }
    ensures none { IfOk result (λ found. found ≡ false → OutboxIsEmpty actors.new.items sender) }
{
    let mut found = false;
    for target in 0..actors.len() {
        found |= bring_post(alloc, sender, target as u32, actors, steps)?;
    }
    Ok(found)
}

// Brings the first post of each outbox of each actor. The answer is whether there was one.
fn bring_round<L: Ledger>(
    alloc: Global,
    actors: &mut Vec<Actor>,
    steps: &mut Steps<L>,
) -> Result<bool, NoMemory>
    requires members { AreMembers actors.old.items }
    requires few { length actors.old.items ≤ 32 }
    ensures brought { IfOk result (λ found. Brings found actors.old.items actors.new.items) }
    ensures none { IfOk result (λ found. found ≡ false → (sender : ℕ) → sender < length actors.new.items
        → OutboxIsEmpty actors.new.items sender) }
{
    let mut found = false;
    for sender in 0..actors.len() {
        found |= bring_from(alloc, sender as u32, actors, steps)?;
    }
    Ok(found)
}

/// Brings what waits in outboxes, in rounds, until none holds a post. It comes to that, since each round that finds a
/// post leaves less work.
pub fn bring_posts<L: Ledger>(
    alloc: Global,
    actors: &mut Vec<Actor>,
    steps: &mut Steps<L>,
) -> Result<(), NoMemory>
    requires members { AreMembers actors.old.items }
    requires few { length actors.old.items ≤ 32 }
    ensures brought { OnOk result (BringsPosts actors.old.items actors.new.items) }
    ensures none { OnOk result ((sender : ℕ) → sender < length actors.new.items
        → OutboxIsEmpty actors.new.items sender) }
{
    while bring_round(alloc, actors, steps)? {}
    Ok(())
}

/// The runs of the actors, put into the room that was made for them. It takes no memory.
pub fn into_runs(actors: Vec<Actor>, room: Vec<ActorRun>) -> Items<ActorRun>
    requires empty { room.items ≡ [] }
    requires room { length actors.items ≤ vec_capacity room }
    ensures { result ≡ map run_in actors.items }
{
    let mut actors = actors;
    let mut runs = room;
    while let Some(actor) = actors.pop() {
        runs.push(actor.into_run()).unwrap();
    }
    runs.reverse();
    Items::from_vec(runs)
}
