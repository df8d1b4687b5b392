//! Checking a log against the plan of its script.
ghost use Rattle.std.specs.Prelude.{◌≡◌, ◌≢◌, ◌<◌, Err};
ghost use Rattle.script_types.specs.Typed.{IsTyped};
ghost use Rattle.script_files.specs.Loading.{LoadCause, Tells};
ghost use Rattle.join_command.specs.Loading.{LoadsLog, ReadsLogBytes, log_answer};

use join_base::{Inputs, Steps, Word};
use log_replay::{LogRefusal, check_log};
use script_files::{LogCause, Refusal, Stop, fetch_stop};
use script_types::Plan;
use std::alloc::Global;
use std::marker::Brand;
use std::sync::ledger::{Blank, Ledger};

/// The most bytes of a log.
pub const MAX_LOG: u64 = 268_435_456;

fn refused(line: u64, cause: LogCause) -> Stop
    ensures { result ≡ Stop.Refused (Refusal.Log line cause) }
{
    Stop::Refused(Refusal::Log { line, cause })
}

// How many arrivals the log of these bytes has.
fn check_bytes<L: Ledger>(
    alloc: Global,
    plan: &Plan,
    bytes: &[u8],
    blank: Blank,
) -> Result<u64, Stop>
    requires typed { IsTyped plan.now }
    requires name { blank.name ≡ L.name }
    requires blank_parts { blank.parts ≡ L.parts }
    requires some { 0 < L.parts }
    ensures log { ReadsLogBytes plan.now bytes.now (log_answer result) }
    ensures read { result ≢ Err Stop.ReadFault }
{
    let mut steps = Steps::<L>::new(blank);
    match check_log(alloc, plan, bytes, &mut steps) {
        Ok(arrivals) => Ok(arrivals),
        Err(LogRefusal::Bad { line }) => Err(refused(line, LogCause::Bad)),
        Err(LogRefusal::Differs { line }) => Err(refused(line, LogCause::Differs)),
        Err(LogRefusal::NoMemory) => Err(Stop::NoMemory),
    }
}

fn read_log(alloc: Global, plan: &Plan, bytes: &[u8]) -> Result<u64, Stop>
    requires typed { IsTyped plan.now }
    ensures log { ReadsLogBytes plan.now bytes.now (log_answer result) }
    ensures read { result ≢ Err Stop.ReadFault }
{
    check_bytes::<Brand>(alloc, plan, bytes, Blank::new(1))
}

/// Fetches a log and checks it. The answer is the number of its arrivals.
pub fn load_log<I: Inputs>(
    alloc: Global,
    inputs: &mut I,
    plan: &Plan,
    name: &Word,
) -> Result<u64, Stop>
    requires typed { IsTyped plan.now }
    ensures told { Tells (I.tells inputs.old) (I.tells inputs.new) (λ before now. LoadsLog before now plan.now
        name.now result) }
    ensures cause { LoadCause (I.faults inputs.old) (I.faults inputs.new) result }
{
    match inputs.fetch(alloc, name.as_str(), MAX_LOG) {
        Ok(file) => read_log(alloc, plan, file.bytes()),
        Err(fault) => Err(fetch_stop(2, fault)),
    }
}
