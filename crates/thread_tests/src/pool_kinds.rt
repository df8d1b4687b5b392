//! Runs of the building with something beside each thread, and by workers that steal tickets.
ghost use Rattle.std.specs.Prelude.{◌≡◌, IfOk, length};

use actor_pool::{Beside, FreeGate, PoolQueue};
use actor_turn::Actor;
use building_load::{load_feeds, load_plan};
use fair_semantics::{Limits, Run};
use join_base::NoMemory;
use pool_run::{run_stealing, run_with};
use std::alloc::Global;
use std::sync::Wait;
use std::test::Fail;
use std::thread::Threads;

/// Counts how often it is shown an actor.
#[derive(Drop)]
struct Watcher {
    shown: u64,
}

impl<R> Beside<R> for Watcher {
    ghost fits = { λ _ _ _ _. Unit {0} };

    ghost tells = { λ watcher. watcher.shown };

    ghost wants = { ⊥ };

    fn seen(
        &mut self,
        _rt: &R,
        _alloc: Global,
        _actor: u32,
        _state: &Actor,
    ) -> Result<(), NoMemory> {
        self.shown = self.shown.saturating_add(1);
        Ok(())
    }

    ghost grows = { λ _ _ _ _ _ _ fit. fit };
}

fn watchers(alloc: Global, count: usize) -> Result<Vec<Watcher>, NoMemory>
    ensures count { IfOk result (λ besides. length besides.items ≡ count) }
{
    let mut besides = Vec::new(alloc);
    for _ in 0..count {
        besides.push(Watcher { shown: 0 })?;
    }
    Ok(besides)
}

fn watched_workers(alloc: Global, count: u32) -> Result<Vec<(PoolQueue, Watcher)>, NoMemory>
    ensures count { IfOk result (λ workers. length workers.items ≡ count) }
{
    let mut workers = Vec::new(alloc);
    for _ in 0..count {
        workers.push((PoolQueue, Watcher { shown: 0 }))?;
    }
    Ok(workers)
}

// How often all of them were shown an actor.
fn times_shown(besides: &[Watcher]) -> u64 {
    let mut shown = 0u64;
    for watcher in besides {
        shown = shown.saturating_add(watcher.shown);
    }
    shown
}

// How many messages came to all actors.
fn arrivals(run: &Run) -> usize {
    let mut count = 0usize;
    for own in run.actors.as_slice() {
        count = count.saturating_add(own.entries.len());
    }
    count
}

// The run of the building, and whether all that stood beside came back, and was shown an actor.
fn is_watched<R: Threads + Wait + Sync>(
    rt: &R,
    alloc: Global,
    rows: u32,
    workers: u32,
) -> Result<bool, NoMemory> {
    if rows < 1 || rows > 20_000 || workers > 64 {
        return Err(NoMemory);
    }
    let plan = load_plan(alloc)?;
    let feeds = load_feeds(alloc, rows)?;
    let limits = Limits {
        arrivals: 50_000,
        partials: 65_536,
    };
    let besides = watchers(alloc, feeds.len())?;
    let crew = watched_workers(alloc, workers)?;
    let (run, back) = run_with(
        rt, alloc, &plan, limits, feeds, 64, besides, crew, &FreeGate,
    )?;
    let all = back.len() == workers as usize + 4;
    Ok(all && arrivals(&run) == 64 && times_shown(back.as_slice()) > 0)
}

// How many messages come in the run of the building by workers that steal.
fn arrivals_stealing<R: Threads + Wait + Sync>(
    rt: &R,
    alloc: Global,
    rows: u32,
    ring: u32,
    workers: u32,
) -> Result<usize, NoMemory> {
    if rows < 1 || rows > 20_000 || ring < 1 || ring > 4096 || workers > 64 {
        return Err(NoMemory);
    }
    let plan = load_plan(alloc)?;
    let feeds = load_feeds(alloc, rows)?;
    let limits = Limits {
        arrivals: 50_000,
        partials: 65_536,
    };
    let run = run_stealing(rt, alloc, &plan, limits, feeds, ring, workers, &FreeGate)?;
    Ok(arrivals(&run))
}

#[test]
fn what_stands_beside_is_shown_actors(rt: HostRuntime) -> Result<(), Fail> {
    let watched = is_watched(&rt, rt.alloc(), 12, 2)?;
    assert!(rt; watched);
    Ok(())
}

#[test]
fn all_messages_come_where_workers_steal(rt: HostRuntime) -> Result<(), Fail> {
    let mut whole = true;
    for workers in [0, 1, 8] {
        whole &= arrivals_stealing(&rt, rt.alloc(), 12, 64, workers)? == 64;
    }
    assert!(rt; whole);
    Ok(())
}

// Four halls whose links to the desk are full wait for it. So a sole worker has to look into the pool's queue too, where
// the desk's ticket may be, and a turn of the desk has to announce them again.
#[test]
fn a_sole_worker_that_steals_ends_though_links_are_full(rt: HostRuntime) -> Result<(), Fail> {
    let narrow = arrivals_stealing(&rt, rt.alloc(), 300, 1, 1)?;
    let wide = arrivals_stealing(&rt, rt.alloc(), 300, 64, 1)?;
    assert!(rt; narrow == 1600 && wide == 1600);
    Ok(())
}
