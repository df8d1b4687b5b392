//! All changes of a log.
ghost use Rattle.script_types.specs.Typed.{IsTyped};

use crate::bytes::{changed_bytes, cut_bytes};
use crate::lines::{Change, changed_lines, replaced_lines};
use crate::table::Log;
use crate::tally::Tally;
use join_base::NoMemory;
use script_types::Plan;
use std::alloc::Global;

/// Counts the answers to all changes of a log.
pub fn count_changes(
    alloc: Global,
    plan: &Plan,
    log: &Log,
    tally: &mut Tally,
) -> Result<(), NoMemory>
    requires typed { IsTyped plan.now }
{
    changed_bytes(alloc, plan, log, tally)?;
    cut_bytes(alloc, plan, log, tally)?;
    changed_lines(alloc, plan, log, Change::Dropped, tally)?;
    changed_lines(alloc, plan, log, Change::Doubled, tally)?;
    changed_lines(alloc, plan, log, Change::Exchanged, tally)?;
    replaced_lines(alloc, plan, log, tally)
}
