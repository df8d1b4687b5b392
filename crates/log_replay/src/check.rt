//! A log against its plan.
ghost use Rattle.std.specs.Prelude.{◌≡◌, ◌<◌, ◌^◌};
ghost use Rattle.script_types.specs.Typed.{IsTyped};
ghost use Rattle.log_replay.specs.Check.{Checks, arrival_count};
ghost use Rattle.log_replay.specs.Replays.{Replays};

use crate::fault::first_fault;
use crate::handed::handed;
use crate::refusal::LogRefusal;
use crate::replaying::{expected_runs, kept_runs};
use crate::shared::Replayed;
use fair_semantics::Run;
use join_base::{NoMemory, Steps};
use log_reader::{LogFault, read_log};
use script_types::Plan;
use std::alloc::Global;
use std::sync::ledger::Ledger;

// How many arrivals all actors have.
fn arrival_count(run: &Run) -> u64
    requires { arrival_count run.now < 2 ^ 64 }
    ensures { result ≡ arrival_count run.now }
{
    let mut count: u64 = 0;
    for own in run.actors.as_slice() {
        count += own.entries.len() as u64;
    }
    count
}

// The run whose log the bytes are, and what its actors make of its arrivals. It is read, and held, beside what they
// make.
fn replay_beside<L: Ledger>(
    alloc: Global,
    plan: &Plan,
    bytes: &[u8],
    steps: &mut Steps<L>,
) -> Result<Replayed, LogFault>
    requires typed { IsTyped plan.now }
    ensures answer { Replays plan.now bytes.now result }
{
    let run = read_log(alloc, plan, bytes)?;
    match kept_runs(alloc, plan, &run, steps) {
        Ok(made) => Ok(Replayed { run, made }),
        Err(NoMemory) => Err(LogFault::NoMemory),
    }
}

// The run whose log the bytes are, and what its actors make of its arrivals. Where some actor makes something else of
// them than was read, the bytes are read once more.
#[tactic(auto, using(crate::proofs::HandedLemmas::handed_is))]
fn read_and_replay<L: Ledger>(
    alloc: Global,
    plan: &Plan,
    bytes: &[u8],
    steps: &mut Steps<L>,
) -> Result<Replayed, LogFault>
    requires typed { IsTyped plan.now }
    ensures answer { Replays plan.now bytes.now result }
{
    let run = read_log(alloc, plan, bytes)?;
    match handed(alloc, plan, run, steps) {
        Ok(Some(replayed)) => Ok(replayed),
        Ok(None) => replay_beside(alloc, plan, bytes, steps),
        Err(NoMemory) => Err(LogFault::NoMemory),
    }
}

/// Checks the bytes as the log of a run of the plan. The answer is the number of arrivals over all actors. `Bad` comes
/// exactly where the bytes are the log of no run of the plan, and has the line at fault. `Differs` comes exactly where
/// they are the log of a run and some line of it is in fault, and has the first one.
///
/// An accepted log is that of a run which is linked to feeds: each actor did the fair steps with its arrivals, and each
/// post arrived or was late. With stamps it may be read as the log of a run on one thread, step after step: some
/// schedule over those feeds has it. The bytes are read in one pass, and the run is replayed once. Where some actor
/// makes something else of its arrivals than was read, both are done twice.
pub fn check_log<L: Ledger>(
    alloc: Global,
    plan: &Plan,
    bytes: &[u8],
    steps: &mut Steps<L>,
) -> Result<u64, LogRefusal>
    requires typed { IsTyped plan.now }
    ensures answer { Checks plan.now bytes.now result }
{
    let Replayed { run, made } = match read_and_replay(alloc, plan, bytes, steps) {
        Ok(replayed) => replayed,
        Err(LogFault::Bad { line }) => return Err(LogRefusal::Bad { line }),
        Err(LogFault::NoMemory) => return Err(LogRefusal::NoMemory),
    };
    let expected = match expected_runs(alloc, plan, &run, made) {
        Ok(expected) => expected,
        Err(NoMemory) => return Err(LogRefusal::NoMemory),
    };
    let arrivals = arrival_count(&run);
    match first_fault(alloc, plan, bytes, &run, expected.as_slice()) {
        Ok(None) => Ok(arrivals),
        Ok(Some(line)) => Err(LogRefusal::Differs { line }),
        Err(NoMemory) => Err(LogRefusal::NoMemory),
    }
}
