//! Scripts come to the run of their log by the system of one thread and in a pool.
ghost use Rattle.std.specs.Prelude.{◌≤◌};
ghost use Rattle.script_types.specs.Typed.{IsTyped};
ghost use Rattle.fair_semantics.specs.Fits.{IsFrom1To};
ghost use Rattle.actor_turn.specs.Held.{AreLimits};

use crate::cases::{Case, ten_cases, thousand, thousand_texts};
use crate::fed::limits_of;
use crate::one_thread::{feed_of, feeds_of, run_on_one_thread};
use crate::whole_runs::same_run;
use actor_pool::FreeGate;
use fair_semantics::{Limits, Run};
use log_reader::read_log;
use pool_run::run_pool;
use script_check::read_plan;
use script_types::Plan;
use std::alloc::Global;
use std::sync::Wait;
use std::test::Fail;
use std::thread::Threads;

fn run_alone(alloc: Global, plan: &Plan, limits: Limits, rows: &[u8]) -> Result<Run, Fail>
    requires typed { IsTyped plan.now }
    requires limits { AreLimits limits }
{
    let feeds = feed_of(alloc, plan, rows)?;
    let run = run_on_one_thread(alloc, plan, limits, feeds)?;
    Ok(run)
}

// The run in a pool, over links with so much room, by so many workers.
fn run_in_pool<R: Threads + Wait + Sync>(
    rt: &R,
    alloc: Global,
    plan: &Plan,
    limits: Limits,
    rows: &[u8],
    ring: u32,
    workers: u32,
) -> Result<Run, Fail>
    requires typed { IsTyped plan.now }
    requires limits { AreLimits limits }
    requires ring { IsFrom1To 4096 ring }
    requires workers { workers ≤ 64 }
{
    let feeds = feeds_of(alloc, plan, rows)?;
    let run = run_pool(rt, alloc, plan, limits, feeds, ring, workers, &FreeGate)?;
    Ok(run)
}

// Whether both come to the run.
fn come_to<R: Threads + Wait + Sync>(
    rt: &R,
    alloc: Global,
    plan: &Plan,
    limits: Limits,
    rows: &[u8],
    expected: &Run,
    ring: u32,
    workers: u32,
) -> Result<bool, Fail>
    requires typed { IsTyped plan.now }
    requires limits { AreLimits limits }
    requires ring { IsFrom1To 4096 ring }
    requires workers { workers ≤ 64 }
{
    let alone = run_alone(alloc, plan, limits, rows)?;
    let run = run_in_pool(rt, alloc, plan, limits, rows, ring, workers)?;
    Ok(same_run(expected, &alone) && same_run(expected, &run))
}

// Whether both come to the run of the log.
fn is_right<R: Threads + Wait + Sync>(
    rt: &R,
    alloc: Global,
    case: Case<'_>,
    ring: u32,
    workers: u32,
) -> Result<bool, Fail>
    requires ring { IsFrom1To 4096 ring }
    requires workers { workers ≤ 64 }
{
    let plan = read_plan(alloc, case.script)?;
    let expected = read_log(alloc, &plan, case.log)?;
    let limits = limits_of(case.most.0, case.most.1);
    come_to(
        rt, alloc, &plan, limits, case.rows, &expected, ring, workers,
    )
}

fn are_right<R: Threads + Wait + Sync>(
    rt: &R,
    alloc: Global,
    cases: &[Case<'_>],
    ring: u32,
    workers: u32,
) -> Result<bool, Fail>
    requires ring { IsFrom1To 4096 ring }
    requires workers { workers ≤ 64 }
{
    for case in cases {
        if !is_right(rt, alloc, *case, ring, workers)? {
            return Ok(false);
        }
    }
    Ok(true)
}

#[test]
fn ten_scripts_come_to_their_logs_alone_and_in_a_pool(rt: HostRuntime) -> Result<(), Fail> {
    let alloc = rt.alloc();
    let small = are_right(&rt, alloc, ten_cases(), 1, 0)?;
    let large = are_right(&rt, alloc, ten_cases(), 64, 2)?;
    assert!(rt; small && large);
    Ok(())
}

fn is_thousand_right<R: Threads + Wait + Sync>(
    rt: &R,
    alloc: Global,
    ring: u32,
    workers: u32,
) -> Result<bool, Fail>
    requires ring { IsFrom1To 4096 ring }
    requires workers { workers ≤ 64 }
{
    let texts = thousand_texts(alloc)?;
    is_right(rt, alloc, thousand(&texts), ring, workers)
}

#[test]
fn a_thousand_rows_come_to_their_log_alone_and_in_a_pool(rt: HostRuntime) -> Result<(), Fail> {
    let none = is_thousand_right(&rt, rt.alloc(), 1, 0)?;
    let several = is_thousand_right(&rt, rt.alloc(), 64, 8)?;
    assert!(rt; none && several);
    Ok(())
}
