//! The first line in fault of the log of a run, by its expected run.
ghost use Rattle.std.specs.Prelude.{◌≡◌, ◌+◌, ◌-◌, ◌^◌, ◌<◌, length, IfOk, IfSome};
ghost use Rattle.script_types.specs.Typed.{IsTyped};
ghost use Rattle.fair_semantics.specs.Fits.{RunFits};
ghost use Rattle.arrival_log.specs.LogText.{log_text};
ghost use Rattle.log_replay.specs.Check.{IsFirstFault, numbered};
ghost use Rattle.log_replay.specs.Expected.{expected_run};
ghost use Rattle.log_replay.specs.Shared.{shown_run};

use crate::kept::{earlier, posts_fault};
use crate::section::parted_at;
use crate::shared::Shared;
use fair_semantics::Run;
use join_base::NoMemory;
use script_types::Plan;
use std::alloc::Global;

// The number of the line at a place.
fn numbered(place: Option<u64>) -> Option<u64>
    requires { IfSome place (λ line. line < 2 ^ 64 - 1) }
    ensures { result ≡ numbered place }
{
    match place {
        Some(line) => Some(line + 1),
        None => None,
    }
}

/// The number of the first line in fault of the log of a run, from 1 on, or `None` where no line is. The bytes are that
/// log, and the other runs are its expected run.
///
/// The log of the expected run is written and compared entry by entry, and each arrival from an actor is compared with
/// that actor's next post. So the time is that of both logs, and for each actor that of all arrivals and effects once
/// more.
pub(crate) fn first_fault(
    alloc: Global,
    plan: &Plan,
    bytes: &[u8],
    run: &Run,
    expected: &[Shared],
) -> Result<Option<u64>, NoMemory>
    requires typed { IsTyped plan.now }
    requires fits { RunFits plan.now run.now }
    requires text { bytes.now ≡ log_text plan.now run.now }
    requires many { length expected.now ≡ length plan.now.actors }
    requires expected_fits { RunFits plan.now (shown_run run.now expected.now) }
    requires is_expected { shown_run run.now expected.now ≡ expected_run plan.now run.now }
    ensures first { IfOk result (IsFirstFault plan.now run.now) }
{
    let kept = posts_fault(run, expected);
    let parted = parted_at(alloc, plan, bytes, run, expected)?;
    let found = earlier(kept, parted);
    Ok(numbered(found))
}
