//! Running a plan on threads.
ghost use Rattle.std.specs.Prelude.{◌≡◌, ◌+◌, ◌≤◌, All, length, IfOk};
ghost use Rattle.std.specs.List.{AllByRecursion};
ghost use Rattle.script_types.specs.Typed.{IsTyped};
ghost use Rattle.fair_semantics.specs.Fits.{IsFrom1To, PostFits};
ghost use Rattle.fair_semantics.specs.Linked.{IsLinked};
ghost use Rattle.run_order_law.specs.Order.{IsScheduled};
ghost use Rattle.actor_turn.specs.Held.{AreLimits};
ghost use Rattle.actor_pool.specs.Beside.{FitsOpening};
ghost use Rattle.pool_run.specs.Running.{FitsRun, IsReady};

use crate::finishing::finish;
use crate::handing::{feed_parts, join_helpers, work_parts};
use crate::parts::Returned;
use crate::threads::run_feeds;
use actor_pool::{Beside, Gate, Nobody, Pool, PoolQueue, TicketSource};
use fair_semantics::{Limits, Run};
use feed_store::Feeds;
use join_base::NoMemory;
use script_types::Plan;
use std::alloc::Global;
use std::sync::Wait;
use std::thread::Threads;

/// The run of a well typed plan on its feeds, as `run_pool` gives it. Each feed has something beside the pool, of
/// `besides`, and each worker a source of tickets and something beside. What stands beside was shown nothing yet, and
/// each source is of use with a pool of the plan's actors.
///
/// What stood beside comes back, in no order that is told. What it keeps of each actor fits what arrived there in the
/// run. `NoMemory` comes where `run_pool` has it, where what stands beside wanted memory, and for the list that comes
/// back. It may wait.
pub fn run_with<
    R: Threads + Wait + Sync,
    G: Gate,
    S: TicketSource + Send + Drop,
    B: Beside<R> + Send + Drop,
>(
    rt: &R,
    alloc: Global,
    plan: &Plan,
    limits: Limits,
    feeds: Feeds,
    ring: u32,
    besides: Vec<B>,
    workers: Vec<(S, B)>,
    gate: &G,
) -> Result<(Run, Vec<B>), NoMemory>
    requires typed { IsTyped plan.now }
    requires limits { AreLimits limits }
    requires count { IsFrom1To 16 (length feeds) }
    requires posts { AllByRecursion (AllByRecursion (PostFits plan.now)) feeds }
    requires ring { IsFrom1To 4096 ring }
    requires besides { length besides.items ≡ length feeds }
    requires opening { All (FitsOpening B.fits) besides.items }
    requires workers { length workers.items ≤ 64 }
    requires ready { All (IsReady S.belongs B.fits (length plan.now.actors)) workers.items }
    ensures linked { IfOk result (λ made. IsLinked plan.now limits feeds made.0) }
    ensures scheduled { IfOk result (λ made. IsScheduled plan.now limits feeds made.0) }
    ensures version { IfOk result (λ made. made.0.version ≡ 2) }
    ensures back { IfOk result (λ made. length made.1.items ≡ length workers.items + length feeds) }
    ensures fits { IfOk result (λ made. All (FitsRun B.fits plan.now limits feeds made.0) made.1.items) }
{
    let count = feeds.len() as u32;
    let (pool, posters, mut helper) = Pool::new(alloc, plan, limits, count, ring)?;
    let parts = feed_parts::<R, B>(alloc, &pool, &mut helper, posters, feeds, besides)?;
    let crew = work_parts::<R, S, B>(alloc, &pool, &mut helper, workers)?;
    let Returned { posters, helpers } = run_feeds(rt, alloc, &pool, gate, parts, crew)?;
    let besides = join_helpers::<R, B>(alloc, &pool, &mut helper, helpers)?;
    let run = finish(alloc, plan, limits, pool, posters, helper)?;
    Ok((run, besides))
}

// So many times nobody, which takes no memory.
pub(crate) fn nobody_for(alloc: Global, feeds: usize) -> Result<Vec<Nobody>, NoMemory>
    ensures count { IfOk result (λ besides. length besides.items ≡ feeds) }
{
    let mut besides = Vec::new(alloc);
    for _ in 0..feeds {
        besides.push(Nobody)?;
    }
    Ok(besides)
}

// So many workers that have the pool's queue alone.
fn plain_workers(alloc: Global, count: u32) -> Result<Vec<(PoolQueue, Nobody)>, NoMemory>
    ensures count { IfOk result (λ workers. length workers.items ≡ count) }
{
    let mut workers = Vec::new(alloc);
    for _ in 0..count {
        workers.push((PoolQueue, Nobody))?;
    }
    Ok(workers)
}

/// The run of a well typed plan on its feeds, whose messages fit it, within the limits, each from 1 to 1,000,000: one
/// thread posts each feed, and so many workers bring the messages to the actors, past the gate. There are 1 to 16 feeds
/// and up to 64 workers, and each link has room for `ring` messages, 1 to 4096. Where a thread can't be started, its
/// work is done by the thread that would have started it, feeds before workers. No worker is needed for a run to end
/// rightly.
///
/// The run is linked to the feeds, and it is that of one schedule of single steps. `NoMemory` where the making of the
/// pool, a feed, a worker or the end of the run found none; all threads have ended then. It may wait.
pub fn run_pool<R: Threads + Wait + Sync, G: Gate>(
    rt: &R,
    alloc: Global,
    plan: &Plan,
    limits: Limits,
    feeds: Feeds,
    ring: u32,
    workers: u32,
    gate: &G,
) -> Result<Run, NoMemory>
    requires typed { IsTyped plan.now }
    requires limits { AreLimits limits }
    requires count { IsFrom1To 16 (length feeds) }
    requires posts { AllByRecursion (AllByRecursion (PostFits plan.now)) feeds }
    requires ring { IsFrom1To 4096 ring }
    requires workers { workers ≤ 64 }
    ensures linked { IfOk result (IsLinked plan.now limits feeds) }
    ensures scheduled { IfOk result (IsScheduled plan.now limits feeds) }
    ensures version { IfOk result (λ run. run.version ≡ 2) }
{
    let besides = nobody_for(alloc, feeds.len())?;
    let crew = plain_workers(alloc, workers)?;
    let (run, _) = run_with(rt, alloc, plan, limits, feeds, ring, besides, crew, gate)?;
    Ok(run)
}
