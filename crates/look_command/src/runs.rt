//! Runs whose logs are read.
ghost use Rattle.std.specs.Prelude.{◌≡◌, ◌≢◌, ◌<◌, Err, IfOk};
ghost use Rattle.script_types.specs.Typed.{IsTyped};
ghost use Rattle.fair_semantics.specs.Fits.{RunFits};
ghost use Rattle.script_files.specs.Loading.{LoadCause, Tells};
ghost use Rattle.look_command.specs.Replying.{IsAcceptedBytes, LoadsRun, ReadsRun};

use fair_semantics::Run;
use join_base::{Inputs, Steps, Word};
use join_command::{LogCause, MAX_LOG, Refusal, Stop, fetch_stop};
use log_reader::{LogFault, read_log};
use log_replay::{LogRefusal, check_log};
use script_types::Plan;
use std::alloc::Global;
use std::marker::Brand;
use std::sync::ledger::{Blank, Ledger};

/// The stop at a line of a log.
pub(crate) fn refused(line: u64, cause: LogCause) -> Stop
    ensures { result ≡ Stop.Refused (Refusal.Log line cause) }
{
    Stop::Refused(Refusal::Log { line, cause })
}

// The run of a log that is accepted.
fn run_of(alloc: Global, plan: &Plan, bytes: &[u8]) -> Result<Run, Stop>
    requires typed { IsTyped plan.now }
    requires accepted { IsAcceptedBytes plan.now bytes.now }
    ensures run { ReadsRun plan.now bytes.now result }
    ensures read { result ≢ Err Stop.ReadFault }
    ensures fits { IfOk result (RunFits plan.now) }
{
    match read_log(alloc, plan, bytes) {
        Ok(read) => Ok(read),
        Err(LogFault::Bad { line }) => Err(refused(line, LogCause::Bad)),
        Err(LogFault::NoMemory) => Err(Stop::NoMemory),
    }
}

// The run whose log the bytes are, where no line of it is in fault.
fn checked_run<L: Ledger>(
    alloc: Global,
    plan: &Plan,
    bytes: &[u8],
    blank: Blank,
) -> Result<Run, Stop>
    requires typed { IsTyped plan.now }
    requires name { blank.name ≡ L.name }
    requires blank_parts { blank.parts ≡ L.parts }
    requires some { 0 < L.parts }
    ensures run { ReadsRun plan.now bytes.now result }
    ensures read { result ≢ Err Stop.ReadFault }
    ensures fits { IfOk result (RunFits plan.now) }
{
    let mut steps = Steps::<L>::new(blank);
    match check_log(alloc, plan, bytes, &mut steps) {
        Ok(_) => run_of(alloc, plan, bytes),
        Err(LogRefusal::Bad { line }) => Err(refused(line, LogCause::Bad)),
        Err(LogRefusal::Differs { line }) => Err(refused(line, LogCause::Differs)),
        Err(LogRefusal::NoMemory) => Err(Stop::NoMemory),
    }
}

fn read_run(alloc: Global, plan: &Plan, bytes: &[u8]) -> Result<Run, Stop>
    requires typed { IsTyped plan.now }
    ensures run { ReadsRun plan.now bytes.now result }
    ensures read { result ≢ Err Stop.ReadFault }
    ensures fits { IfOk result (RunFits plan.now) }
{
    checked_run::<Brand>(alloc, plan, bytes, Blank::new(1))
}

/// Fetches a log, checks it and reads its run.
pub(crate) fn load_run<I: Inputs>(
    alloc: Global,
    inputs: &mut I,
    plan: &Plan,
    name: &Word,
) -> Result<Run, Stop>
    requires typed { IsTyped plan.now }
    ensures told { Tells (I.tells inputs.old) (I.tells inputs.new) (λ before now. LoadsRun plan.now before now
        name.now result) }
    ensures cause { LoadCause (I.faults inputs.old) (I.faults inputs.new) result }
    ensures fits { IfOk result (RunFits plan.now) }
{
    match inputs.fetch(alloc, name.as_str(), MAX_LOG) {
        Ok(file) => read_run(alloc, plan, file.bytes()),
        Err(fault) => Err(fetch_stop(2, fault)),
    }
}
