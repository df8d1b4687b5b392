//! The expected run of a run, whole.
ghost use Rattle.std.specs.Prelude.{◌≡◌, length, map, IfOk, OnOk};
ghost use Rattle.script_types.specs.Typed.{IsTyped};
ghost use Rattle.fair_semantics.specs.Fits.{RunFits};
ghost use Rattle.log_replay.specs.Expected.{expected_run};
ghost use Rattle.log_replay.specs.Law.{AllRulesFit};
ghost use Rattle.log_replay.specs.Shared.{own_runs, whole_runs};

use crate::replaying::made_run;
use crate::settling::{finished_runs, settlements_of};
use crate::shared::{Shared, whole};
use fair_semantics::{ActorRun, Run};
use join_base::{Items, NoMemory, Steps};
use script_types::Plan;
use std::alloc::Global;
use std::sync::ledger::Ledger;

// The runs that all actors show behind the fair steps over their read arrivals, without stamps.
fn whole_runs<L: Ledger>(
    alloc: Global,
    plan: &Plan,
    run: &Run,
    steps: &mut Steps<L>,
) -> Result<Items<Shared>, NoMemory>
    requires typed { IsTyped plan.now }
    requires fits { RunFits plan.now run.now }
    ensures runs { IfOk result (λ runs. runs ≡ whole_runs plan.now run.now 0 (length plan.now.actors)) }
    ensures texts { OnOk result (AllRulesFit plan.now run.now.limits) }
{
    let mut runs = Items::new(alloc);
    let mut index: u32 = 0;
    while (index as usize) < plan.actors.len() {
        let own = made_run(alloc, plan, run, index, steps)?;
        runs.push(whole(alloc, own))?;
        index += 1;
    }
    Ok(runs)
}

// The runs of actors that have their entries.
fn own_runs(alloc: Global, shared: Items<Shared>) -> Result<Items<ActorRun>, NoMemory>
    ensures { IfOk result (λ runs. runs ≡ own_runs shared) }
{
    let mut rest = shared.into_vec();
    rest.reverse();
    let mut runs = Items::new(alloc);
    while let Some(shared) = rest.pop() {
        runs.push(shared.own)?;
    }
    Ok(runs)
}

/// The expected run of a run of a well typed plan: what its actors do by the fair step with the sources and messages of
/// its arrivals, in order, under its limits. It has their entries, firings and effects, what is left and the partial
/// matches, late counts, endings and, in version 2, stamps. It fits the plan, so that `print_log` gives its log: what
/// the log of the run should have said.
///
/// The run that was read stays as it is, and no entry of it is copied: beside it, the memory is that of the expected
/// run.
pub fn replay<L: Ledger>(
    alloc: Global,
    plan: &Plan,
    run: &Run,
    steps: &mut Steps<L>,
) -> Result<Run, NoMemory>
    requires typed { IsTyped plan.now }
    requires fits { RunFits plan.now run.now }
    ensures expected { IfOk result (λ expected. expected ≡ expected_run plan.now run.now) }
    ensures fits { IfOk result (RunFits plan.now) }
{
    let made = whole_runs(alloc, plan, run, steps)?;
    let settlements = settlements_of(alloc, made.as_slice(), run)?;
    let finished = finished_runs(alloc, plan, made, settlements)?;
    let actors = own_runs(alloc, finished)?;
    Ok(Run {
        version: run.version,
        limits: run.limits,
        feeds: run.feeds,
        actors,
    })
}
