//! Draining links: each receiver meets its sender, and what waits arrives.
ghost use Rattle.std.specs.Prelude.{◌≡◌, ◌<◌, ◌≤◌, ◌↔◌, ℕ, length, map, All, IsTrue, IfOk, OnOk, slice_index_or};
ghost use Rattle.join_base.specs.Late.{HasCount};
ghost use Rattle.post_ring.specs.Links.{sent, received, identity_in, identity_out};
ghost use Rattle.cell_links.specs.Ends.{poster_tag};
ghost use Rattle.cell_links.specs.Wiring.{AreLinked, Key};
ghost use Rattle.actor_cells.specs.AllLawful.{AreLawful};
ghost use Rattle.actor_cells.specs.Lawful.{cell_tag};
ghost use Rattle.actor_cells.specs.Prepared.{AreWired};
ghost use Rattle.pool_settling.specs.Standing.{Arrives};
ghost use Rattle.pool_settling.specs.Drained.{AreDrained};
ghost use Rattle.pool_settling.specs.Ends.{AreStanding, GivenAsCame, GoOn, HasAll, IsDrainedAt, IsServed, Serves, entries, keys_of, receiver_keys};

use crate::apart::{take_cells, take_posters};
use crate::ends::{Receiver, Sender};
use actor_cells::Cell;
use actor_turn::Actor;
use cell_links::FeedLinks;
use join_base::{NoMemory, Source, Stamped, Steps};
use post_ring::{LinkIn, LinkOut, meet};
use std::alloc::Global;
use std::sync::ledger::Ledger;

// Lets the ends of a link meet, and brings what waits to the actor.
fn drain<L: Ledger>(
    alloc: Global,
    first: &mut LinkIn,
    second: &mut LinkOut,
    source: Source,
    actor: &mut Actor,
    steps: &mut Steps<L>,
) -> Result<(), NoMemory>
    requires one { identity_in first.old ≡ identity_out second.old }
    requires known { HasCount actor.old.state.late source }
    ensures first { (identity_in first.new ≡ identity_in first.old) × (sent first.new ≡ sent first.old) }
    ensures second { OnOk result ((identity_out second.new ≡ identity_out second.old) × (received second.new
        ≡ sent first.old)) }
    ensures arrived { OnOk result (Arrives source (received second.old) (received second.new) actor.old actor.new) }
{
    meet(first, second);
    'messages: while let Some(Stamped { message, stamp }) = second.take() {
        let Ok(_) = actor.receive(alloc, source, message, stamp, steps) else {
            return Err(NoMemory);
        };
    }
    Ok(())
}

fn is_source(first: Source, second: Source) -> bool
    ensures { IsTrue result ↔ (first ≡ second) }
{
    match (first, second) {
        (Source::Feed(j), Source::Feed(k)) => j == k,
        (Source::Actor(a), Source::Actor(b)) => a == b,
        _ => false,
    }
}

// The place of the sender from a source to a target.
fn place_of(senders: &[Sender], source: Source, target: u32) -> usize
    requires served { IsServed (entries senders.now) source target }
    ensures within { result < length senders.now }
    ensures serves { (d : Key) → Serves (slice_index_or (keys_of (entries senders.now)) result d) source target }
{
    for i in 0..senders.len() {
        let sender = &senders[i];
        if is_source(sender.source, source) && sender.target == target {
            return i;
        }
    }
    unreachable!()
}

// Drains the link of the receiver at a place.
fn drain_at<L: Ledger>(
    alloc: Global,
    senders: &mut Vec<Sender>,
    receivers: &mut Vec<Receiver>,
    place: usize,
    actors: &mut Vec<Actor>,
    steps: &mut Steps<L>,
) -> Result<(), NoMemory>
    requires within { place < length receivers.old.items }
    requires wired { AreLinked (keys_of (entries senders.old.items)) (receiver_keys receivers.old.items) }
    requires standing { AreStanding (entries senders.old.items) receivers.old.items actors.old.items }
    ensures senders { entries senders.new.items ≡ entries senders.old.items }
    ensures drained { OnOk result (IsDrainedAt (entries senders.old.items) place receivers.old.items
        receivers.new.items) }
    ensures standing { OnOk result (AreStanding (entries senders.old.items) receivers.new.items actors.new.items) }
    ensures on { OnOk result (GoOn actors.old.items actors.new.items) }
    ensures given { OnOk result (GivenAsCame actors.old.items actors.new.items receivers.old.items
        receivers.new.items) }
{
    let receiver = &mut receivers[place];
    let source = receiver.source;
    let target = receiver.target;
    let from = place_of(senders.as_slice(), source, target);
    let sender = &mut senders[from];
    let actor = &mut actors[target as usize];
    drain(
        alloc,
        &mut sender.link,
        &mut receiver.link,
        source,
        actor,
        steps,
    )
}

// Drains all links.
fn drain_all<L: Ledger>(
    alloc: Global,
    senders: &mut Vec<Sender>,
    receivers: &mut Vec<Receiver>,
    actors: &mut Vec<Actor>,
    steps: &mut Steps<L>,
) -> Result<(), NoMemory>
    requires wired { AreLinked (keys_of (entries senders.old.items)) (receiver_keys receivers.old.items) }
    requires standing { AreStanding (entries senders.old.items) receivers.old.items actors.old.items }
    ensures senders { entries senders.new.items ≡ entries senders.old.items }
    ensures keys { OnOk result (receiver_keys receivers.new.items ≡ receiver_keys receivers.old.items) }
    ensures drained { OnOk result (All (HasAll (entries senders.old.items)) receivers.new.items) }
    ensures standing { OnOk result (AreStanding (entries senders.old.items) receivers.new.items actors.new.items) }
    ensures on { OnOk result (GoOn actors.old.items actors.new.items) }
    ensures given { OnOk result (GivenAsCame actors.old.items actors.new.items receivers.old.items
        receivers.new.items) }
{
    for place in 0..receivers.len() {
        drain_at(alloc, senders, receivers, place, actors, steps)?;
    }
    Ok(())
}

/// Lets both ends of each link meet, and brings what the link holds to its actor. The answer is the actors of the
/// cells, to which all has come that went over the links. `NoMemory` where there is none for the lists of ends, or for
/// an arrival.
pub fn drain_links<L: Ledger>(
    alloc: Global,
    cells: Vec<Cell>,
    posters: Vec<FeedLinks>,
    steps: &mut Steps<L>,
) -> Result<Vec<Actor>, NoMemory>
    requires few { (length cells.items ≤ 32) × (length posters.items ≤ 16) }
    requires wired { AreWired (map cell_tag cells.items) (map poster_tag posters.items) }
    requires lawful { AreLawful cells.items }
    ensures drained { IfOk result (λ actors. AreDrained posters.items cells.items actors.items) }
{
    let mut senders = Vec::new(alloc);
    let mut receivers = Vec::new(alloc);
    let mut actors = Vec::new(alloc);
    take_posters(posters, &mut senders)?;
    take_cells(cells, &mut senders, &mut receivers, &mut actors)?;
    drain_all(alloc, &mut senders, &mut receivers, &mut actors, steps)?;
    Ok(actors)
}
