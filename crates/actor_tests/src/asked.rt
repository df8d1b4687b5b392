//! An asker that reads on a board what a run replied to a row.
ghost use Rattle.std.specs.Prelude.{◌≡◌, ◌≤◌, All, IfOk, length};
ghost use Rattle.std.specs.List.{AllByRecursion};
ghost use Rattle.script_types.specs.Typed.{IsTyped};
ghost use Rattle.fair_semantics.specs.Fits.{PostFits};
ghost use Rattle.ask_board.specs.Board.{IsViewOf};
ghost use Rattle.actor_pool.specs.Beside.{FitsOpening};
ghost use Rattle.answerer.specs.Beside.{FitsHistory};

use crate::fed::limits_of;
use actor_pool::{FreeGate, PoolQueue};
use answerer::Answerer;
use ask_board::{Ask, AskBoard, AskView};
use ask_run::run_asking;
use feed_store::Feeds;
use join_base::{NoMemory, Value};
use pool_run::run_with;
use script_check::read_plan;
use script_types::Plan;
use sensor_feed::read_feed;
use std::alloc::Global;
use std::sync::Wait;
use std::test::Fail;
use std::thread::Threads;

const SCRIPT: &[u8] = b"message q(x: int) actor m { when q(x) { reply 1 x + 1; } }";

// The ask of the only row.
const ASK: Ask = Ask {
    feed: 1,
    actor: 0,
    place: 1,
};

fn is_int(value: &Value, number: i64) -> bool {
    match value {
        Value::Int(own) => *own == number,
        Value::Words(_) => false,
    }
}

// The number that the row is replied with, where an asker finds one.
fn is_replied(board: &AskBoard, view: &mut AskView, number: i64) -> bool
    requires of_board { IsViewOf board.now view.old }
    ensures { IsViewOf board.now view.new }
{
    if !board.has(ASK) {
        return false;
    }
    match board.look(view, ASK) {
        Some(value) => is_int(value, number),
        None => false,
    }
}

// One feed with one row.
fn one_row(alloc: Global, plan: &Plan) -> Result<Feeds, Fail>
    requires typed { IsTyped plan.now }
    ensures count { IfOk result (λ feeds. length feeds ≡ 1) }
    ensures fits { IfOk result (AllByRecursion (AllByRecursion (PostFits plan.now))) }
{
    let mut feeds = Feeds::new(alloc);
    feeds.push(read_feed(alloc, plan, b"m,q,4\n")?)?;
    Ok(feeds)
}

// One answerer of the board.
fn one_answerer<'a>(alloc: Global, board: &'a AskBoard) -> Result<Vec<Answerer<'a>>, NoMemory>
    ensures count { IfOk result (λ besides. length besides.items ≡ 1) }
    ensures opening { IfOk result (λ besides. All (FitsOpening FitsHistory) besides.items) }
{
    let mut besides = Vec::new(alloc);
    besides.push(Answerer::new(alloc, board)?)?;
    Ok(besides)
}

// One worker with an answerer of the board.
fn one_worker<'a>(
    alloc: Global,
    board: &'a AskBoard,
) -> Result<Vec<(PoolQueue, Answerer<'a>)>, NoMemory>
    ensures count { IfOk result (λ workers. length workers.items ≡ 1) }
    ensures opening { IfOk result (λ workers. All (λ worker. FitsOpening FitsHistory (worker.1)) workers.items) }
{
    let mut workers = Vec::new(alloc);
    workers.push((PoolQueue, Answerer::new(alloc, board)?))?;
    Ok(workers)
}

// Whether the turn of a worker puts the reply on the board, where an asker on this thread reads it after the joins.
fn a_worker_answers<R: Threads + Wait + Sync>(rt: &R, alloc: Global) -> Result<bool, Fail> {
    let plan = read_plan(alloc, SCRIPT)?;
    let feeds = one_row(alloc, &plan)?;
    let board = AskBoard::new(alloc, &feeds, 1)?;
    let mut view = board.view()?;
    let before = is_replied(&board, &mut view, 5);
    let besides = one_answerer(alloc, &board)?;
    let workers = one_worker(alloc, &board)?;
    let limits = limits_of(10, 10);
    let made = run_with(
        rt, alloc, &plan, limits, feeds, 64, besides, workers, &FreeGate,
    );
    Ok(!before && made.is_ok() && is_replied(&board, &mut view, 5))
}

// Whether an asker reads the reply after a run by so many workers. With none it is read in the run that has ended.
fn a_run_answers<R: Threads + Wait + Sync>(
    rt: &R,
    alloc: Global,
    workers: u32,
) -> Result<bool, Fail>
    requires few { workers ≤ 64 }
{
    let plan = read_plan(alloc, SCRIPT)?;
    let feeds = one_row(alloc, &plan)?;
    let board = AskBoard::new(alloc, &feeds, 1)?;
    let mut view = board.view()?;
    let limits = limits_of(10, 10);
    let made = run_asking(
        rt, alloc, &plan, limits, feeds, 64, workers, &board, &FreeGate,
    );
    Ok(made.is_ok() && is_replied(&board, &mut view, 5))
}

#[test]
fn an_asker_reads_what_a_worker_was_shown(rt: HostRuntime) -> Result<(), Fail> {
    assert!(rt; a_worker_answers(&rt, rt.alloc())?);
    Ok(())
}

#[test]
fn an_asker_reads_what_a_run_replied(rt: HostRuntime) -> Result<(), Fail> {
    let alloc = rt.alloc();
    assert!(rt; a_run_answers(&rt, alloc, 0)? && a_run_answers(&rt, alloc, 2)?);
    Ok(())
}
