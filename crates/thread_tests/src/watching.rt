//! Runs of the building that monitors watch, where memory is ample.

use actor_pool::FreeGate;
use building_load::{load_feeds, load_plan};
use fair_semantics::Limits;
use join_base::NoMemory;
use live_board::{Board, Totals};
use script_types::Plan;
use std::alloc::Global;
use std::sync::Wait;
use std::sync::atomic::{AtomicU64, Ordering};
use std::test::Fail;
use std::thread::Threads;
use watch_run::{NoView, View, run_watched};

/// Notes which monitors showed something, one bit for each, and how many arrivals there were at last.
#[derive(Drop)]
struct Noting {
    monitors: AtomicU64,
    arrivals: AtomicU64,
}

fn arrivals_in(rows: &[Totals]) -> u64 {
    let mut arrivals = 0u64;
    for row in rows {
        arrivals = arrivals.saturating_add(u64::from(row.arrivals));
    }
    arrivals
}

impl<R> View<R> for Noting {
    fn begin(&mut self, _rt: &R, _alloc: Global, _plan: &Plan) {}

    fn show(&self, _rt: &R, _alloc: Global, monitor: u32, rows: &[Totals]) {
        let bit = if monitor == 1 { 1 } else { 2 };
        self.monitors.fetch_or(bit, Ordering::SeqCst);
        self.arrivals.store(arrivals_in(rows), Ordering::SeqCst);
    }
}

// The board of the building over four feeds of so many rows, up to 20,000, by two workers.
fn board_of<R: Threads + Wait + Sync, V: View<R> + Sync>(
    rt: &R,
    alloc: Global,
    rows: u32,
    monitors: u32,
    view: &mut V,
) -> Result<Board, NoMemory> {
    if rows < 1 || rows > 20_000 || monitors < 1 || monitors > 8 {
        return Err(NoMemory);
    }
    let plan = load_plan(alloc)?;
    let feeds = load_feeds(alloc, rows)?;
    let limits = Limits {
        arrivals: 50_000,
        partials: 65_536,
    };
    let (_run, board) = run_watched(
        rt, alloc, &plan, limits, feeds, 64, 2, &FreeGate, monitors, view,
    )?;
    Ok(board)
}

// Whether there are four halls, each with so many arrivals and posts, and the desk.
fn is_board(board: &Board, arrivals: u32, posts: u32) -> bool {
    let hall = Totals {
        arrivals,
        firings: posts,
        posts: u64::from(posts),
    };
    let desk = Totals {
        arrivals: posts.saturating_mul(4),
        firings: posts.saturating_mul(4),
        posts: 0,
    };
    board.rows() == [hall, hall, hall, hall, desk].as_slice()
}

#[test]
fn a_watched_run_comes_to_its_board(rt: HostRuntime) -> Result<(), Fail> {
    let alloc = rt.alloc();
    let mut view = Noting {
        monitors: AtomicU64::new(0),
        arrivals: AtomicU64::new(0),
    };
    let one = board_of(&rt, alloc, 252, 1, &mut NoView)?;
    let two = board_of(&rt, alloc, 2520, 2, &mut view)?;
    let shown = view.monitors.load(Ordering::SeqCst);
    let arrivals = view.arrivals.load(Ordering::SeqCst);
    assert!(rt; is_board(&one, 252, 84) && is_board(&two, 2520, 840));
    assert!(rt; shown > 0 && arrivals == 13_440);
    Ok(())
}
