//! A log against its plan and its feeds.
ghost use Rattle.std.specs.Prelude.{◌≡◌, ◌+◌, ◌^◌, ◌<◌, ◌≤◌, length};
ghost use Rattle.script_types.specs.Typed.{IsTyped};
ghost use Rattle.log_replay.specs.Kept.{sections_size};
ghost use Rattle.log_audit.specs.Audit.{Audits};
ghost use Rattle.log_audit.specs.Search.{Compares};

use crate::refusal::AuditRefusal;
use crate::wrong::run_wrong;
use fair_semantics::Run;
use join_base::{FeedList, Steps};
use log_reader::{LogFault, read_log};
use log_replay::{LogRefusal, check_log};
use script_types::Plan;
use std::alloc::Global;
use std::sync::ledger::Ledger;

// Compares the run with the feeds.
fn compare(run: &Run, feeds: &FeedList) -> Result<(), AuditRefusal>
    requires few { run.now.feeds ≤ 16 }
    requires actors { length run.now.actors ≤ 32 }
    requires small { 2 + sections_size run.now.actors < 2 ^ 64 }
    ensures { Compares feeds.now run.now result }
{
    if run.feeds as usize != feeds.len() {
        return Err(AuditRefusal::Feeds(run.feeds));
    }
    match run_wrong(feeds.as_slice(), run) {
        Some(difference) => Err(AuditRefusal::Row(difference)),
        None => Ok(()),
    }
}

/// Checks the bytes as the log of a run of the plan on these feeds. The answer is the number of arrivals over all
/// actors, exactly where the bytes are the log of a run that `check_log` accepts and that is linked to the feeds: each
/// actor took from each feed the first of its rows for the actor, in order, and the others are late.
///
/// `Log` comes exactly where `check_log` refuses the bytes, and where there is no memory. `Feeds` comes exactly where
/// it accepts them, and the log has another number of feeds. `Row` comes exactly where the log has as many, and some
/// line of it is not that of the feeds, and has the first one.
pub fn audit<L: Ledger>(
    alloc: Global,
    plan: &Plan,
    bytes: &[u8],
    feeds: &FeedList,
    steps: &mut Steps<L>,
) -> Result<u64, AuditRefusal>
    requires typed { IsTyped plan.now }
    ensures answer { Audits plan.now bytes.now feeds.now result }
{
    let arrivals = match check_log(alloc, plan, bytes, steps) {
        Ok(count) => count,
        Err(refusal) => return Err(AuditRefusal::Log(refusal)),
    };
    let run = match read_log(alloc, plan, bytes) {
        Ok(read) => read,
        Err(LogFault::Bad { line }) => return Err(AuditRefusal::Log(LogRefusal::Bad { line })),
        Err(LogFault::NoMemory) => return Err(AuditRefusal::Log(LogRefusal::NoMemory)),
    };
    match compare(&run, feeds) {
        Ok(()) => Ok(arrivals),
        Err(refusal) => Err(refusal),
    }
}
