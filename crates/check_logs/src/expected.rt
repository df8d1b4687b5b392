//! Logs of expected runs.
ghost use Rattle.script_types.specs.Typed.{IsTyped};

use crate::answer::plan_of;
use crate::lines::with_others;
use crate::table::{Log, Other};
use crate::tally::Tally;
use expected_line::expected_text;
use join_base::NoMemory;
use script_types::Plan;
use std::alloc::Global;

// Whether the log with these other lines has an expected run whose log is the log with those.
fn is_expected(
    alloc: Global,
    plan: &Plan,
    log: &Log,
    read: &[Other],
    wanted: &[Other],
) -> Result<bool, NoMemory>
    requires typed { IsTyped plan.now }
{
    let text = with_others(alloc, log.lines, read)?;
    let other = with_others(alloc, log.lines, wanted)?;
    match expected_text(alloc, plan, text.bytes())? {
        Some(found) => Ok(found.bytes() == other.bytes()),
        None => Ok(false),
    }
}

// The expected run of the log, which has this log, and those of the rows of its table.
fn of_log(alloc: Global, plan: &Plan, log: &Log, tally: &mut Tally) -> Result<(), NoMemory>
    requires typed { IsTyped plan.now }
{
    tally.judge(0, "as it is", is_expected(alloc, plan, log, &[], &[])?);
    for (read, wanted) in log.expected {
        let is_wanted = is_expected(alloc, plan, log, &[*read], wanted)?;
        tally.judge(read.0 as u64, "read otherwise", is_wanted);
    }
    Ok(())
}

/// The expected runs of all logs, and of what the tables make of them.
pub fn expected_logs(alloc: Global, logs: &[Log], tally: &mut Tally) -> Result<(), NoMemory> {
    for log in logs {
        match plan_of(alloc, log.script.as_bytes())? {
            Some(plan) => of_log(alloc, &plan, log, tally)?,
            None => tally.miss(),
        }
    }
    Ok(())
}
