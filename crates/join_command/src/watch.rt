//! What a watched run comes to.
ghost use Rattle.std.specs.Prelude.{IfOk};
ghost use Rattle.fair_semantics.specs.Fits.{IsFrom1To};
ghost use Rattle.command_words.specs.Ranges.{AreInRange};
ghost use Rattle.watch_run.specs.Watching.{IsWatched};
ghost use Rattle.join_command.specs.Output.{IsLogWithTotals, IsSettled};
ghost use Rattle.join_command.specs.Replying.{AreRunParts};
ghost use Rattle.join_command.specs.Verdict.{limits_of};

use crate::output::run_status;
use crate::run::limits_of;
use crate::status::Status;
use actor_pool::Gate;
use arrival_log::print_log;
use command_words::RunOptions;
use fair_semantics::Run;
use feed_store::Feeds;
use join_base::{Bytes, NoMemory};
use live_board::Board;
use script_types::Plan;
use std::alloc::Global;
use std::mem;
use std::sync::Wait;
use std::thread::Threads;
use watch_run::{View, print_board, run_watched};

// The run of the plan on its feeds, as `run_feeds` gives it, which so many monitors watch and show the view, and the
// board of its totals.
fn watch_feeds<R: Threads + Wait + Sync, G: Gate, V: View<R> + Sync>(
    rt: &R,
    alloc: Global,
    plan: &Plan,
    options: RunOptions,
    feeds: Feeds,
    gate: &G,
    monitors: u32,
    view: &mut V,
) -> Result<(Run, Board), NoMemory>
    requires parts { AreRunParts plan.now (limits_of options) feeds }
    requires numbers { AreInRange options }
    requires monitors { IsFrom1To 8 monitors }
    ensures watched { IfOk result (IsWatched plan.now (limits_of options) feeds) }
{
    let limits = limits_of(options);
    run_watched(
        rt,
        alloc,
        plan,
        limits,
        feeds,
        options.ring,
        options.workers,
        gate,
        monitors,
        view,
    )
}

/// The status, the log of a plan over its feeds, and the totals of its actors.
pub(crate) fn watch_output<R: Threads + Wait + Sync, G: Gate, V: View<R> + Sync>(
    rt: &R,
    alloc: Global,
    plan: &Plan,
    options: RunOptions,
    feeds: Feeds,
    gate: &G,
    monitors: u32,
    view: &mut V,
) -> Result<(Status, Bytes), NoMemory>
    requires parts { AreRunParts plan.now (limits_of options) feeds }
    requires numbers { AreInRange options }
    requires monitors { IsFrom1To 8 monitors }
    ensures log { IfOk result (λ p. IsLogWithTotals plan.now (limits_of options) feeds p.0 p.1) }
    ensures settled { IfOk result (λ p. IsSettled p.0) }
{
    let (run, board) = watch_feeds(rt, alloc, plan, options, feeds, gate, monitors, view)?;
    let mut bytes = Bytes::new(alloc);
    print_log(alloc, plan, &run, &mut bytes)?;
    print_board(alloc, plan, &board, &mut bytes)?;
    let status = run_status(&run);
    // As in `run_output`.
    mem::forget(run);
    Ok((status, bytes))
}
