//! The expected run of a run.
ghost use Rattle.std.specs.Prelude.{◌≡◌, ◌+◌, ◌-◌, ◌<◌, ◌≤◌, length, map, slice_get, IfOk, OnOk};
ghost use Rattle.script_types.specs.Typed.{IsTyped};
ghost use Rattle.fair_semantics.specs.Fair.{run_of, setting_of};
ghost use Rattle.fair_semantics.specs.Fits.{RunFits};
ghost use Rattle.fair_semantics.specs.Linked.{numbers_from};
ghost use Rattle.run_fit_law.specs.FitsLaw.{RulesFit};
ghost use Rattle.log_replay.specs.Expected.{expected_run, stepped};
ghost use Rattle.log_replay.specs.Handed.{effects_at, target_at};
ghost use Rattle.log_replay.specs.Law.{AllRulesFit};
ghost use Rattle.log_replay.specs.Settling.{made_run};
ghost use Rattle.log_replay.specs.Shared.{kept_run, kept_runs, shown_run};

use crate::kept::entries_at;
use crate::settling::{finished_runs, settlements_of};
use crate::shared::{Shared, kept};
use actor_turn::Actor;
use fair_semantics::{ActorRun, Effect, Fired, Outcome, Run};
use join_base::{Items, NoMemory, Steps};
use log_posts::effects_of;
use script_types::Plan;
use std::alloc::Global;
use std::sync::ledger::Ledger;

// The effects of the last of the firings, if there is one.
fn last_effects(firings: &[Fired]) -> &[Effect]
    ensures { result.now ≡ effects_at (slice_get firings.now (length firings.now - 1)) }
{
    match firings.last() {
        Some(fired) => effects_of(fired),
        None => &[],
    }
}

// The actor that the effect at this place posts to, if there is one.
fn target_at(effects: &[Effect], place: usize) -> Option<u32>
    ensures { result ≡ target_at (slice_get effects.now place) }
{
    match effects.get(place) {
        Some(Effect::Post { target, .. }) => Some(*target),
        _ => None,
    }
}

// Lets go of the first post that waits for an actor, if it is one of so many.
fn forget_post(actor: &mut Actor, target: u32, count: usize)
    requires many { length actor.old.outbox ≡ count }
    ensures state { actor.new.state ≡ actor.old.state }
    ensures setting { actor.new.setting ≡ actor.old.setting }
    ensures many { length actor.new.outbox ≡ count }
{
    if (target as usize) < count {
        let _ = actor.take_post(target);
    }
}

// Lets go of the posts of an arrival that fired: as many as its effects made, and no others wait. Nobody takes them
// here.
pub(crate) fn forget_fired(actor: &mut Actor, outcome: Outcome, count: usize)
    requires many { length actor.old.outbox ≡ count }
    ensures state { actor.new.state ≡ actor.old.state }
    ensures setting { actor.new.setting ≡ actor.old.setting }
    ensures many { length actor.new.outbox ≡ count }
{
    if outcome != Outcome::Fired {
        return;
    }
    for place in 0..last_effects(actor.firings()).len() {
        if let Some(target) = target_at(last_effects(actor.firings()), place) {
            forget_post(actor, target, count);
        }
    }
}

/// The run that an actor shows behind the fair steps over its read arrivals, without stamps.
pub(crate) fn made_run<L: Ledger>(
    alloc: Global,
    plan: &Plan,
    run: &Run,
    index: u32,
    steps: &mut Steps<L>,
) -> Result<ActorRun, NoMemory>
    requires typed { IsTyped plan.now }
    requires fits { RunFits plan.now run.now }
    requires exists { index < length plan.now.actors }
    ensures own { IfOk result (λ own. own ≡ made_run plan.now run.now index) }
    ensures texts { OnOk result (RulesFit plan.now run.now.limits index) }
{
    let mut actor = Actor::new(alloc, plan, index, run.limits, run.feeds)?;
    for entry in entries_at(run.actors.as_slice(), index as usize) {
        let outcome = actor.arrive(alloc, entry.source, &entry.message, 0, steps)?;
        forget_fired(&mut actor, outcome, plan.actors.len());
    }
    Ok(actor.into_run())
}

// The same, without its entries where they are the read ones but for stamps.
fn kept_run<L: Ledger>(
    alloc: Global,
    plan: &Plan,
    run: &Run,
    index: u32,
    steps: &mut Steps<L>,
) -> Result<Shared, NoMemory>
    requires typed { IsTyped plan.now }
    requires fits { RunFits plan.now run.now }
    requires exists { index < length plan.now.actors }
    ensures own { IfOk result (λ shared. shared ≡ kept_run plan.now run.now index) }
    ensures texts { OnOk result (RulesFit plan.now run.now.limits index) }
{
    let own = made_run(alloc, plan, run, index, steps)?;
    let read = entries_at(run.actors.as_slice(), index as usize);
    Ok(kept(alloc, own, read))
}

/// These runs of all actors. Beside the run that was read there is one actor at a time, and what differs.
pub(crate) fn kept_runs<L: Ledger>(
    alloc: Global,
    plan: &Plan,
    run: &Run,
    steps: &mut Steps<L>,
) -> Result<Items<Shared>, NoMemory>
    requires typed { IsTyped plan.now }
    requires fits { RunFits plan.now run.now }
    ensures runs { IfOk result (λ runs. runs ≡ kept_runs plan.now run.now 0 (length plan.now.actors)) }
    ensures texts { OnOk result (AllRulesFit plan.now run.now.limits) }
{
    let mut runs = Items::new(alloc);
    let mut index: u32 = 0;
    while (index as usize) < plan.actors.len() {
        let own = kept_run(alloc, plan, run, index, steps)?;
        runs.push(own)?;
        index += 1;
    }
    Ok(runs)
}

/// The expected run of a run that was read, where this is kept of what its actors make of its arrivals: what they do by
/// the fair step with the sources and messages of their entries, in order, under its limits. Its late counts are, of an
/// actor that has ended or is full, the read ones for the feeds and for the actors their posts beyond those that
/// arrived; its stamps are those of the version. It fits the plan.
pub(crate) fn expected_runs(
    alloc: Global,
    plan: &Plan,
    run: &Run,
    made: Items<Shared>,
) -> Result<Items<Shared>, NoMemory>
    requires typed { IsTyped plan.now }
    requires fits { RunFits plan.now run.now }
    requires made { made ≡ kept_runs plan.now run.now 0 (length plan.now.actors) }
    requires texts { AllRulesFit plan.now run.now.limits }
    ensures expected { IfOk result (λ runs. shown_run run.now runs ≡ expected_run plan.now run.now) }
    ensures fits { IfOk result (λ runs. RunFits plan.now (shown_run run.now runs)) }
    ensures many { IfOk result (λ runs. length runs ≡ length plan.now.actors) }
{
    let settlements = settlements_of(alloc, made.as_slice(), run)?;
    finished_runs(alloc, plan, made, settlements)
}
