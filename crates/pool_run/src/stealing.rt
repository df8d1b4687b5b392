//! Running a plan on threads whose workers steal tickets.
ghost use Rattle.std.specs.Prelude.{◌≡◌, ◌≤◌, All, length, IfOk};
ghost use Rattle.std.specs.List.{AllByRecursion};
ghost use Rattle.script_types.specs.Typed.{IsTyped};
ghost use Rattle.fair_semantics.specs.Fits.{IsFrom1To, PostFits};
ghost use Rattle.fair_semantics.specs.Linked.{IsLinked};
ghost use Rattle.run_order_law.specs.Order.{IsScheduled};
ghost use Rattle.actor_turn.specs.Held.{AreLimits};
ghost use Rattle.steal_pool.specs.Passes.{made_for};
ghost use Rattle.pool_run.specs.Stealing.{OwnsDeque};

use crate::running::{nobody_for, run_with};
use actor_pool::{Gate, Nobody};
use fair_semantics::{Limits, Run};
use feed_store::Feeds;
use join_base::NoMemory;
use script_types::Plan;
use std::alloc::Global;
use std::sync::Wait;
use std::thread::Threads;
use steal_pool::{InOrder, StealPass, deques};

// So many workers, each with a deque of its own, from which the others steal.
fn stealing_workers(
    alloc: Global,
    count: u32,
    actors: u32,
) -> Result<Vec<(StealPass, Nobody)>, NoMemory>
    requires few_workers { count ≤ 64 }
    requires few_actors { actors ≤ 32 }
    ensures few { IfOk result (λ workers. length workers.items ≤ 64) }
    ensures own { IfOk result (λ workers. All (OwnsDeque actors) workers.items) }
{
    let mut passes = deques::<InOrder>(alloc, count, actors)?;
    let mut workers = Vec::new(alloc);
    while let Some(pass) = passes.pop() {
        workers.push((pass, Nobody))?;
    }
    Ok(workers)
}

/// The run of a plan as `run_pool` gives it, with the same conditions and answers, by workers that have a deque of
/// tickets each. A worker puts the tickets of actors that it made ready into its own deque. It takes the oldest ticket
/// there, or steals the oldest one of another deque, or takes one of the queue in which the feeds put theirs. By turns
/// it looks into the deques first and into the queue first.
pub fn run_stealing<R: Threads + Wait + Sync, G: Gate>(
    rt: &R,
    alloc: Global,
    plan: &Plan,
    limits: Limits,
    feeds: Feeds,
    ring: u32,
    workers: u32,
    gate: &G,
) -> Result<Run, NoMemory>
    requires typed { IsTyped plan.now }
    requires limits { AreLimits limits }
    requires count { IsFrom1To 16 (length feeds) }
    requires posts { AllByRecursion (AllByRecursion (PostFits plan.now)) feeds }
    requires ring { IsFrom1To 4096 ring }
    requires workers { workers ≤ 64 }
    ensures linked { IfOk result (IsLinked plan.now limits feeds) }
    ensures scheduled { IfOk result (IsScheduled plan.now limits feeds) }
    ensures version { IfOk result (λ run. run.version ≡ 2) }
{
    let besides = nobody_for(alloc, feeds.len())?;
    let crew = stealing_workers(alloc, workers, plan.actors.len() as u32)?;
    let (run, _) = run_with(rt, alloc, plan, limits, feeds, ring, besides, crew, gate)?;
    Ok(run)
}
