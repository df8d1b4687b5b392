//! The replay of a run that is handed over: its messages go to the actors, and of what was read and what was made, one
//! is kept.
ghost use Rattle.std.specs.Prelude.{◌≡◌, ◌+◌, ◌∷◌, [], ◌++◌, ◌<◌, ◌≤◌, length, max, true, IfOk, IfSome, OnOk};
ghost use Rattle.join_base.specs.Late.{HasCount};
ghost use Rattle.join_base.specs.declared.message.Source.{Source};
ghost use Rattle.script_types.specs.Typed.{IsTyped};
ghost use Rattle.fair_semantics.specs.Fits.{RunFits};
ghost use Rattle.fair_semantics.specs.Step.{fair_step, latest_stamp};
ghost use Rattle.actor_turn.specs.Held.{AreLimits};
ghost use Rattle.run_fit_law.specs.FitsLaw.{RulesFit};
ghost use Rattle.log_posts.specs.Posts.{stamped_anew};
ghost use Rattle.log_replay.specs.Handed.{AreCounted, IsHanded, IsMade, IsRemade, is_recorded};
ghost use Rattle.log_posts.specs.Stamps.{with_stamps};
ghost use Rattle.log_replay.specs.Shared.{without_entries};

use crate::replaying::forget_fired;
use crate::shared::{Replayed, Shared, without_entries};
use actor_turn::{Actor, give_room_back};
use fair_semantics::{ActorRun, Entry, Fired, Limits, Run};
use join_base::{Items, NoMemory, Steps};
use log_posts::{same_fired, with_stamps};
use script_types::Plan;
use std::alloc::Global;
use std::sync::ledger::Ledger;

// Whether the arrival behind so many others is recorded, with this number and firing.
fn is_recorded(actor: &Actor, before: u32, number: u32, firing: &Fired) -> bool
    ensures { result ≡ is_recorded actor.now.state.entries before number firing.now }
{
    if number <= before || actor.arrivals() != number {
        return false;
    }
    match actor.firings().get(before as usize) {
        Some(own) => same_fired(own, firing),
        None => false,
    }
}

// The fair step with an arrival that was read, and whether the actor recorded it so but for its stamp.
fn arrives_as_read<L: Ledger>(
    alloc: Global,
    actor: &mut Actor,
    entry: Entry,
    count: usize,
    steps: &mut Steps<L>,
) -> Result<bool, NoMemory>
    requires exists { HasCount actor.old.state.late entry.source }
    requires many { length actor.old.outbox ≡ count }
    ensures step { OnOk result (actor.new.state ≡ (fair_step actor.old.setting actor.old.state entry.source
        entry.message 0).0) }
    ensures setting { actor.new.setting ≡ actor.old.setting }
    ensures sources { OnOk result ((other : Source) → HasCount actor.old.state.late other
        → HasCount actor.new.state.late other) }
    ensures many { OnOk result (length actor.new.outbox ≡ count) }
    ensures as_read { IfOk result (λ same. same ≡ true → actor.new.state.entries ≡ actor.old.state.entries
        ++ stamped_anew entry (max (latest_stamp actor.old.state.entries) 0 + 1) ∷ []) }
{
    let Entry {
        number,
        source,
        message,
        stamp: _,
        firing,
    } = entry;
    let before = actor.arrivals();
    match actor.receive(alloc, source, message, 0, steps) {
        Ok(outcome) => {
            let same = is_recorded(actor, before, number, &firing);
            forget_fired(actor, outcome, count);
            Ok(same)
        }
        Err(_) => Err(NoMemory),
    }
}

// What an actor made of a section, and the stamps that were read.
#[derive(Drop)]
struct Made {
    own: ActorRun,
    stamps: Items<u64>,
}

// The run that an actor shows behind the fair steps over the read arrivals, where it records each as it was read but
// for its stamp.
fn made_as_read<L: Ledger>(
    alloc: Global,
    plan: &Plan,
    limits: Limits,
    feeds: u32,
    index: u32,
    entries: Items<Entry>,
    steps: &mut Steps<L>,
) -> Result<Option<Made>, NoMemory>
    requires typed { IsTyped plan.now }
    requires exists { index < length plan.now.actors }
    requires limits { AreLimits limits }
    requires counted { AreCounted plan.now feeds entries }
    ensures made { IfOk result (λ made. IfSome made (IsMade plan.now limits feeds index entries)) }
    ensures texts { OnOk result (RulesFit plan.now limits index) }
{
    let mut actor = Actor::new(alloc, plan, index, limits, feeds)?;
    let mut rest = entries.into_vec();
    rest.reverse();
    let mut stamps = Items::from_vec(Vec::with_capacity(alloc, rest.len())?);
    while let Some(entry) = rest.pop() {
        let stamp = entry.stamp;
        if !arrives_as_read(alloc, &mut actor, entry, plan.actors.len(), steps)? {
            return Ok(None);
        }
        stamps.push(stamp)?;
        give_room_back(&mut rest);
    }
    Ok(Some(Made {
        own: actor.into_run(),
        stamps,
    }))
}

// A section as it was read, and the run of its actor beside it.
#[derive(Drop)]
struct Remade {
    read: ActorRun,
    own: Shared,
}

// The section again with the entries that were made, where these are the read ones but for their stamps.
fn section_made<L: Ledger>(
    alloc: Global,
    plan: &Plan,
    limits: Limits,
    feeds: u32,
    index: u32,
    read: ActorRun,
    steps: &mut Steps<L>,
) -> Result<Option<Remade>, NoMemory>
    requires typed { IsTyped plan.now }
    requires exists { index < length plan.now.actors }
    requires limits { AreLimits limits }
    requires counted { AreCounted plan.now feeds read.entries }
    ensures remade { IfOk result (λ remade. IfSome remade (IsRemade plan.now limits feeds index read)) }
    ensures texts { OnOk result (RulesFit plan.now limits index) }
{
    let ActorRun {
        entries,
        late,
        ending,
        left,
        partials,
    } = read;
    let made = made_as_read(alloc, plan, limits, feeds, index, entries, steps)?;
    match made {
        Some(made) => {
            let (entries, own) = shared(alloc, made);
            Ok(Some(Remade {
                read: ActorRun {
                    entries,
                    late,
                    ending,
                    left,
                    partials,
                },
                own,
            }))
        }
        None => Ok(None),
    }
}

// The entries as they were read, and what else the run has.
fn shared(alloc: Global, made: Made) -> (Items<Entry>, Shared)
    ensures entries { result.0 ≡ with_stamps made.stamps made.own.entries }
    ensures own { result.1 ≡ without_entries made.own }
{
    let Made { own, stamps } = made;
    let (entries, shared) = without_entries(alloc, own);
    (with_stamps(entries, stamps.as_slice()), shared)
}

/// What the actors of a run make of its arrivals, where each records them as they were read but for their stamps.
/// `None` where some actor does not, and then the run is gone.
///
/// Each message is handed to its actor, and what was read of an arrival is let go of as soon as it was found again. So
/// beside the run itself there is no more than one actor, without its messages and effects.
pub(crate) fn handed<L: Ledger>(
    alloc: Global,
    plan: &Plan,
    run: Run,
    steps: &mut Steps<L>,
) -> Result<Option<Replayed>, NoMemory>
    requires typed { IsTyped plan.now }
    requires fits { RunFits plan.now run }
    ensures handed { IfOk result (λ replayed. IfSome replayed (IsHanded plan.now run)) }
{
    let Run {
        version,
        limits,
        feeds,
        actors,
    } = run;
    let mut sections = actors.into_vec();
    sections.reverse();
    let mut reads = Items::new(alloc);
    let mut made = Items::new(alloc);
    while let Some(section) = sections.pop() {
        let index = made.len() as u32;
        let Some(remade) = section_made(alloc, plan, limits, feeds, index, section, steps)? else {
            return Ok(None);
        };
        let Remade { read, own } = remade;
        reads.push(read)?;
        made.push(own)?;
    }
    Ok(Some(Replayed {
        run: Run {
            version,
            limits,
            feeds,
            actors: reads,
        },
        made,
    }))
}
