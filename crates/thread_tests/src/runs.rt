//! Runs of the building on threads, with no worker and with several, where memory is ample.
ghost use Rattle.std.specs.Prelude.{◌≤◌};

use actor_pool::{FreeGate, Gate};
use building_load::{load_feeds, load_plan};
use fair_semantics::{Limits, Run};
use join_base::NoMemory;
use pool_run::run_pool;
use std::alloc::Global;
use std::sync::Wait;
use std::sync::atomic::{AtomicU64, Ordering};
use std::test::Fail;
use std::thread::Threads;

// The run of the building: four halls with a feed of so many rows each. The numbers are in their ranges.
fn run_building<R: Threads + Wait + Sync, G: Gate>(
    rt: &R,
    alloc: Global,
    rows: u32,
    ring: u32,
    workers: u32,
    gate: &G,
) -> Result<Run, NoMemory> {
    if rows < 1 || rows > 20_000 || ring < 1 || ring > 4096 || workers > 64 {
        return Err(NoMemory);
    }
    let plan = load_plan(alloc)?;
    let feeds = load_feeds(alloc, rows)?;
    let limits = Limits {
        arrivals: 50_000,
        partials: 65_536,
    };
    run_pool(rt, alloc, &plan, limits, feeds, ring, workers, gate)
}

// Whether an actor has so many arrivals, firings and messages that are left.
fn has(run: &Run, actor: usize, arrivals: usize, firings: usize, left: usize) -> bool {
    let Some(own) = run.actors.as_slice().get(actor) else {
        return false;
    };
    let mut fired = 0usize;
    for entry in own.entries.as_slice() {
        if entry.firing.get().is_some() {
            fired = fired.saturating_add(1);
        }
    }
    own.entries.len() == arrivals && fired == firings && own.left.len() == left
}

// Whether there are four halls, each with so many groups of three rows, and the desk. In a group the motion fires with
// the light or with the contact, and the other is left. Each firing posts to the desk.
fn is_run_of(run: &Run, groups: usize) -> bool
    requires few { groups ≤ 1000 }
{
    for hall in 0..4 {
        if !has(run, hall, 3 * groups, groups, groups) {
            return false;
        }
    }
    run.actors.len() == 5 && has(run, 4, 4 * groups, 4 * groups, 0)
}

fn comes_to_the_same<R: Threads + Wait + Sync>(
    rt: &R,
    alloc: Global,
    ring: u32,
    workers: u32,
) -> Result<bool, NoMemory> {
    let run = run_building(rt, alloc, 252, ring, workers, &FreeGate)?;
    Ok(is_run_of(&run, 84))
}

#[test]
fn a_thousand_rows_come_to_the_same(rt: HostRuntime) -> Result<(), Fail> {
    let mut same = true;
    for (ring, workers) in [(1, 0), (1, 1), (1, 8), (64, 1), (64, 8)] {
        same &= comes_to_the_same(&rt, rt.alloc(), ring, workers)?;
    }
    assert!(rt; same);
    Ok(())
}

/// Holds the first turn of each of two workers until the other is there, and notes where that does not come.
#[derive(Drop)]
struct Meeting {
    came: AtomicU64,
    missed: AtomicU64,
}

impl Gate for Meeting {
    fn enter(&self, worker: u32, _actor: u32) {
        let bit = if worker == 1 { 1 } else { 2 };
        if self.came.fetch_or(bit, Ordering::SeqCst) & bit != 0 {
            return;
        }
        for _ in 0..200_000_000 {
            if self.came.load(Ordering::SeqCst) == 3 {
                return;
            }
        }
        self.missed.store(1, Ordering::SeqCst);
    }
}

fn meets<R: Threads + Wait + Sync>(rt: &R, alloc: Global) -> Result<bool, NoMemory> {
    let gate = Meeting {
        came: AtomicU64::new(0),
        missed: AtomicU64::new(0),
    };
    let run = run_building(rt, alloc, 12, 64, 2, &gate)?;
    let came = gate.came.load(Ordering::SeqCst);
    let missed = gate.missed.load(Ordering::SeqCst);
    Ok(came == 3 && missed == 0 && is_run_of(&run, 4))
}

#[test]
fn two_workers_are_at_it_at_once(rt: HostRuntime) -> Result<(), Fail> {
    let met = meets(&rt, rt.alloc())?;
    assert!(rt; met);
    Ok(())
}
