//! Watched runs.
ghost use Rattle.std.specs.Prelude.{◌≡◌, ◌≤◌, ◌<◌, All, length, IfOk};
ghost use Rattle.std.specs.List.{AllByRecursion};
ghost use Rattle.std.specs.Thread.{IsSend, IsSync};
ghost use Rattle.script_types.specs.Typed.{IsTyped};
ghost use Rattle.fair_semantics.specs.Fits.{IsFrom1To, PostFits};
ghost use Rattle.fair_semantics.specs.Linked.{IsLinked};
ghost use Rattle.run_order_law.specs.Order.{IsScheduled};
ghost use Rattle.actor_turn.specs.Held.{AreLimits};
ghost use Rattle.live_board.specs.Glasses.{left_rows};
ghost use Rattle.live_board.specs.Monitors.{glass_of};
ghost use Rattle.watch_run.specs.Watching.{IsWatched};

use crate::crew::{last_board, publishers, publishing_workers};
use crate::reading::read_all;
use crate::view::View;
use actor_pool::Gate;
use fair_semantics::{Limits, Run};
use feed_store::Feeds;
use join_base::NoMemory;
use live_board::{Board, SharedWriter, open_board};
use pool_run::run_with;
use script_types::Plan;
use std::alloc::Global;
use std::sync::{Condvar, Mutex, Wait};
use std::thread;
use std::thread::Threads;

// The run, with a publisher beside each thread.
fn run_published<R: Threads + Wait + Sync, G: Gate>(
    rt: &R,
    alloc: Global,
    plan: &Plan,
    limits: Limits,
    feeds: Feeds,
    ring: u32,
    workers: u32,
    gate: &G,
    writer: &Mutex<SharedWriter<&R>>,
) -> Result<Run, NoMemory>
    requires typed { IsTyped plan.now }
    requires limits { AreLimits limits }
    requires count { IsFrom1To 16 (length feeds) }
    requires posts { AllByRecursion (AllByRecursion (PostFits plan.now)) feeds }
    requires ring { IsFrom1To 4096 ring }
    requires workers { workers ≤ 64 }
    ensures linked { IfOk result (IsLinked plan.now limits feeds) }
    ensures scheduled { IfOk result (IsScheduled plan.now limits feeds) }
    ensures version { IfOk result (λ run. run.version ≡ 2) }
{
    let besides = publishers(alloc, feeds.len(), writer)?;
    let crew = publishing_workers(alloc, workers, writer)?;
    let (run, _) = run_with(rt, alloc, plan, limits, feeds, ring, besides, crew, gate)?;
    Ok(run)
}

// The run, and the board that it comes to. The board is closed then, also without memory.
fn run_to_board<R: Threads + Wait + Sync, G: Gate>(
    rt: &R,
    alloc: Global,
    plan: &Plan,
    limits: Limits,
    feeds: Feeds,
    ring: u32,
    workers: u32,
    gate: &G,
    writer: SharedWriter<&R>,
) -> Result<(Run, Board), NoMemory>
    requires typed { IsTyped plan.now }
    requires limits { AreLimits limits }
    requires count { IsFrom1To 16 (length feeds) }
    requires posts { AllByRecursion (AllByRecursion (PostFits plan.now)) feeds }
    requires ring { IsFrom1To 4096 ring }
    requires workers { workers ≤ 64 }
    ensures watched { IfOk result (IsWatched plan.now limits feeds) }
{
    let shared = Mutex::new(writer);
    let run = run_published(rt, alloc, plan, limits, feeds, ring, workers, gate, &shared)?;
    let board = last_board(rt, alloc, &run, shared.into_inner())?;
    Ok((run, board))
}

/// The run of a well typed plan on its feeds, as `run_pool` of `pool_run` gives it, with the same conditions. Beside
/// each thread the totals of the actors are published on a board. While the run goes on, 1 to 8 monitors read it ten
/// times a second and show it the view. Where no thread can be made for a monitor, it reads nothing.
///
/// The board that comes back has the totals of the run. It is what the view is shown last. `NoMemory` comes where
/// `run_pool` has it, and for the board. It may wait.
pub fn run_watched<R: Threads + Wait + Sync, G: Gate, V: View<R> + Sync>(
    rt: &R,
    alloc: Global,
    plan: &Plan,
    limits: Limits,
    feeds: Feeds,
    ring: u32,
    workers: u32,
    gate: &G,
    monitors: u32,
    view: &mut V,
) -> Result<(Run, Board), NoMemory>
    requires typed { IsTyped plan.now }
    requires limits { AreLimits limits }
    requires count { IsFrom1To 16 (length feeds) }
    requires posts { AllByRecursion (AllByRecursion (PostFits plan.now)) feeds }
    requires ring { IsFrom1To 4096 ring }
    requires workers { workers ≤ 64 }
    requires monitors { IsFrom1To 8 monitors }
    ensures watched { IfOk result (IsWatched plan.now limits feeds) }
{
    let actors = plan.actors.len() as u32;
    view.begin(rt, alloc, plan);
    let view = &*view;
    let (writer, monitors) = open_board(rt, alloc, actors, monitors)?;
    let writer = SharedWriter::new(writer, rt);
    let monitors = monitors.into_vec();
    let end = Condvar::new();
    let ended = &end;
    let watch = move || -> ()
        requires cross { IsSync R.row × IsSync V.row }
        requires few { length monitors.items ≤ 8 }
        requires rows { All (λ monitor. left_rows (glass_of monitor) ≡ actors) monitors.items }
    { read_all(rt, alloc, view, ended, actors, monitors) };
    let run = move || -> Result<(Run, Board), NoMemory>
        requires cross { IsSync R.row × IsSync G.row }
        requires typed { IsTyped plan.now }
        requires limits { AreLimits limits }
        requires count { IsFrom1To 16 (length feeds) }
        requires posts { AllByRecursion (AllByRecursion (PostFits plan.now)) feeds }
        requires ring { IsFrom1To 4096 ring }
        requires workers { workers ≤ 64 }
        ensures watched { IfOk result (IsWatched plan.entry.now limits feeds) }
    {
        let made = run_to_board(rt, alloc, plan, limits, feeds, ring, workers, gate, writer);
        ended.notify_all();
        made
    };
    let (_, watched) = thread::join(rt, watch, run);
    let (run, board) = watched?;
    view.show(rt, alloc, 1, board.rows());
    Ok((run, board))
}
