//! A log: whether it is that of a right run, and how often its actors fired.
ghost use Rattle.std.specs.Prelude.{◌≡◌, ◌<◌, IfOk, count_by, map};
ghost use Rattle.script_types.specs.Typed.{IsTyped};
ghost use Rattle.uses.specs.OwnLog.{Counts, firing_count, has_fired};

use fair_semantics::{ActorRun, Entry};
use join_base::{Items, NoMemory, Steps};
use log_reader::{LogFault, one_run, read_log};
use log_replay::{LogRefusal, check_log};
use script_types::Plan;
use std::alloc::Global;
use std::marker::Brand;
use std::sync::ledger::{Blank, Ledger};

fn has_fired(entry: &Entry) -> bool
    ensures { result ≡ has_fired entry.now }
{
    match entry.firing.get() {
        Some(_) => true,
        None => false,
    }
}

// How many of the arrivals fired.
fn count_fired(entries: &[Entry]) -> usize
    ensures { result ≡ count_by has_fired entries.now }
{
    let mut count = 0;
    for entry in entries {
        if has_fired(entry) {
            count += 1;
        }
    }
    count
}

fn counts_of(alloc: Global, runs: &[ActorRun]) -> Result<Items<usize>, NoMemory>
    ensures { IfOk result (λ counts. counts ≡ map firing_count runs.now) }
{
    let mut counts = Items::new(alloc);
    for own in runs {
        counts.push(count_fired(own.entries.as_slice()))?;
    }
    Ok(counts)
}

fn checked_counts<L: Ledger>(
    alloc: Global,
    plan: &Plan,
    log: &[u8],
    blank: Blank,
) -> Result<Items<usize>, LogRefusal>
    requires name { blank.name ≡ L.name }
    requires parts { blank.parts ≡ L.parts }
    requires some { 0 < L.parts }
    requires typed { IsTyped plan.now }
    ensures counts { Counts plan.now log.now result }
{
    let mut steps = Steps::<L>::new(blank);
    check_log(alloc, plan, log, &mut steps)?;
    let run = match read_log(alloc, plan, log) {
        Ok(run) => run,
        Err(LogFault::Bad { line }) => return Err(LogRefusal::Bad { line }),
        Err(LogFault::NoMemory) => return Err(LogRefusal::NoMemory),
    };
    // So it is the run that was checked.
    one_run();
    match counts_of(alloc, run.actors.as_slice()) {
        Ok(counts) => Ok(counts),
        Err(NoMemory) => Err(LogRefusal::NoMemory),
    }
}

/// How many arrivals of each actor fired, in the order of the plan, by the log of a run. A log that `check_log` refuses
/// is refused as it says.
pub fn firing_counts(alloc: Global, plan: &Plan, log: &[u8]) -> Result<Items<usize>, LogRefusal>
    requires typed { IsTyped plan.now }
    ensures counts { Counts plan.now log.now result }
{
    checked_counts::<Brand>(alloc, plan, log, Blank::new(1))
}
