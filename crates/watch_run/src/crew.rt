//! What publishes while a run goes on, and what is published behind its end.
ghost use Rattle.std.specs.Prelude.{◌≡◌, ◌<◌, ◌≤◌, ◌^◌, All, length, map, IfOk};
ghost use Rattle.watch_run.specs.BoardText.{run_totals, totals_in};

use actor_pool::PoolQueue;
use fair_semantics::{ActorRun, Run};
use join_base::NoMemory;
use live_board::{Board, Publisher, SharedWriter, TotalsList, run_totals};
use std::alloc::Global;
use std::sync::{Mutex, Wait};

/// So many publishers that share a writer.
pub(crate) fn publishers<'a, W: Wait + Drop>(
    alloc: Global,
    count: usize,
    writer: &'a Mutex<SharedWriter<W>>,
) -> Result<Vec<Publisher<'a, W>>, NoMemory>
    ensures count { IfOk result (λ list. length list.items ≡ count) }
{
    let mut list = Vec::new(alloc);
    for _ in 0..count {
        list.push(Publisher::new(alloc, writer)?)?;
    }
    Ok(list)
}

/// So many workers that have the pool's queue of tickets, with a publisher beside each.
pub(crate) fn publishing_workers<'a, W: Wait + Drop>(
    alloc: Global,
    count: u32,
    writer: &'a Mutex<SharedWriter<W>>,
) -> Result<Vec<(PoolQueue, Publisher<'a, W>)>, NoMemory>
    ensures count { IfOk result (λ workers. length workers.items ≡ count) }
{
    let mut workers = Vec::new(alloc);
    for _ in 0..count {
        workers.push((PoolQueue, Publisher::new(alloc, writer)?))?;
    }
    Ok(workers)
}

// The totals of each actor.
fn totals_of(alloc: Global, actors: &[ActorRun]) -> Result<TotalsList, NoMemory>
    requires few { All (λ own. length own.entries < 2 ^ 32) actors.now }
    ensures totals { IfOk result (λ totals. totals ≡ map run_totals actors.now) }
{
    let mut totals = TotalsList::new(alloc);
    for own in actors {
        totals.push(run_totals(own))?;
    }
    Ok(totals)
}

/// Publishes the totals of each actor of a run of up to 32, and ends the board, which comes to just these.
pub(crate) fn last_board<W: Wait + Drop, R: Wait>(
    rt: &R,
    alloc: Global,
    run: &Run,
    writer: SharedWriter<W>,
) -> Result<Board, NoMemory>
    requires actors { length run.now.actors ≤ 32 }
    requires few { All (λ own. length own.entries < 2 ^ 32) run.now.actors }
    ensures totals { IfOk result (λ board. board ≡ totals_in run.now) }
{
    let actors = run.actors.as_slice();
    let totals = totals_of(alloc, actors)?;
    let mut board = Board::new(alloc, actors.len() as u32)?;
    let mut writer = writer.into_writer();
    let published = writer.publish_all(rt, &totals);
    writer.close_into(rt, &mut board);
    published?;
    Ok(board)
}
