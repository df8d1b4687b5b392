//! The threads of a run: one for each feed, and one for each worker.
//!
//! Each starts the next one and then does its own part. Where no thread can be made, `join` does the parts behind one
//! after it, in the same thread. So feeds stand before workers, which wait until all feeds have ended.
ghost use Rattle.std.specs.Prelude.{◌≤◌, All, IfOk, length, map};
ghost use Rattle.std.specs.List.{AllZip};
ghost use Rattle.std.specs.Thread.{IsSend, IsSync};
ghost use Rattle.pool_run.specs.Parts.{AreReturned, IsBack, IsFed, IsPart, IsWorker, worker_helper};

use crate::parts::{FeedPart, HelperBack, Returned, WorkPart};
use actor_pool::{Beside, Gate, Pool, Poster, TicketSource, feed_beside, work_from_beside};
use join_base::NoMemory;
use std::alloc::Global;
use std::sync::Wait;
use std::thread;
use std::thread::Threads;

// Posts a feed, and gives back what the thread was given.
fn run_feed<R: Wait, B: Beside<R> + Drop>(
    rt: &R,
    alloc: Global,
    pool: &Pool,
    part: FeedPart<B>,
) -> Result<(Poster, HelperBack<B>), NoMemory>
    requires part { IsPart pool.now B.fits part }
    ensures fed { IfOk result (λ back. IsFed pool.now part back.0) }
    ensures back { IfOk result (λ back. IsBack pool.now B.fits part.helper back.1) }
{
    let FeedPart {
        mut poster,
        mut helper,
        posts,
        mut beside,
    } = part;
    feed_beside(
        rt,
        alloc,
        pool,
        &mut poster,
        &mut helper,
        &mut beside,
        posts,
    )?;
    Ok((poster, HelperBack { helper, beside }))
}

// Works, and gives the helper back.
fn run_worker<R: Wait, G: Gate, S: TicketSource + Drop, B: Beside<R> + Drop>(
    rt: &R,
    alloc: Global,
    pool: &Pool,
    gate: &G,
    number: u32,
    part: WorkPart<S, B>,
) -> Result<HelperBack<B>, NoMemory>
    requires part { IsWorker pool.now S.belongs B.fits part }
    ensures back { IfOk result (IsBack pool.now B.fits part.helper) }
{
    let WorkPart {
        mut helper,
        mut source,
        mut beside,
    } = part;
    work_from_beside(
        rt,
        alloc,
        pool,
        &mut helper,
        &mut source,
        &mut beside,
        gate,
        number,
    )?;
    Ok(HelperBack { helper, beside })
}

// Runs a worker with each part, and gives the helpers back when all have ended.
#[cycle(workers)]
fn run_workers<
    R: Threads + Wait + Sync,
    G: Gate,
    S: TicketSource + Send + Drop,
    B: Beside<R> + Send + Drop,
>(
    rt: &R,
    alloc: Global,
    pool: &Pool,
    gate: &G,
    mut parts: Vec<WorkPart<S, B>>,
) -> Result<Vec<HelperBack<B>>, NoMemory>
    requires few { length parts.items ≤ 64 }
    requires parts { All (IsWorker pool.now S.belongs B.fits) parts.items }
    ensures back { IfOk result (λ back. AllZip (IsBack pool.now B.fits) (map worker_helper parts.items) back.items) }
{
    let Some(part) = parts.pop() else {
        return Ok(Vec::new(alloc));
    };
    let number = parts.len() as u32 + 1;
    let others = move || -> Result<Vec<HelperBack<B>>, NoMemory>
        requires cross { IsSync R.row × IsSync G.row × IsSend S.row × IsSend B.row }
        requires few { length parts.items ≤ 64 }
        requires parts { All (IsWorker pool.now S.belongs B.fits) parts.items }
        ensures { IfOk result (λ back. AllZip (IsBack pool.entry.now B.fits)
            (map worker_helper parts.items) back.items) }
    { run_workers(rt, alloc, pool, gate, parts) };
    let own = move || -> Result<HelperBack<B>, NoMemory>
        requires { IsWorker pool.now S.belongs B.fits part }
        ensures { IfOk result (IsBack pool.entry.now B.fits part.helper) }
    { run_worker(rt, alloc, pool, gate, number, part) };
    let (others, own) = thread::join(rt, others, own);
    let mut back = others?;
    back.push(own?)?;
    Ok(back)
}

/// Runs a feed with each part and a worker with each of the crew, and gives posters and helpers back when all have
/// ended.
#[cycle(feeds)]
pub(crate) fn run_feeds<
    R: Threads + Wait + Sync,
    G: Gate,
    S: TicketSource + Send + Drop,
    B: Beside<R> + Send + Drop,
>(
    rt: &R,
    alloc: Global,
    pool: &Pool,
    gate: &G,
    mut parts: Vec<FeedPart<B>>,
    crew: Vec<WorkPart<S, B>>,
) -> Result<Returned<B>, NoMemory>
    requires few { length crew.items ≤ 64 }
    requires parts { All (IsPart pool.now B.fits) parts.items }
    requires crew { All (IsWorker pool.now S.belongs B.fits) crew.items }
    ensures returned { IfOk result (AreReturned pool.now B.fits parts.items crew.items) }
{
    let Some(part) = parts.pop() else {
        let helpers = run_workers(rt, alloc, pool, gate, crew)?;
        return Ok(Returned {
            posters: Vec::new(alloc),
            helpers,
        });
    };
    let others = move || -> Result<Returned<B>, NoMemory>
        requires cross { IsSync R.row × IsSync G.row × IsSend S.row × IsSend B.row }
        requires few { length crew.items ≤ 64 }
        requires parts { All (IsPart pool.now B.fits) parts.items }
        requires crew { All (IsWorker pool.now S.belongs B.fits) crew.items }
        ensures { IfOk result (AreReturned pool.entry.now B.fits parts.items crew.items) }
    { run_feeds(rt, alloc, pool, gate, parts, crew) };
    let own = move || -> Result<(Poster, HelperBack<B>), NoMemory>
        requires { IsPart pool.now B.fits part }
        ensures fed { IfOk result (λ back. IsFed pool.entry.now part back.0) }
        ensures back { IfOk result (λ back. IsBack pool.entry.now B.fits part.helper back.1) }
    { run_feed(rt, alloc, pool, part) };
    let (others, own) = thread::join(rt, others, own);
    let mut back = others?;
    let (poster, helper) = own?;
    back.posters.push(poster)?;
    back.helpers.push(helper)?;
    Ok(back)
}
