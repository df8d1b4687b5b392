//! Running a plan while a board is answered.
ghost use Rattle.std.specs.Prelude.{◌≡◌, ◌≤◌, All, IfOk, length};
ghost use Rattle.std.specs.List.{AllByRecursion};
ghost use Rattle.script_types.specs.Typed.{IsTyped};
ghost use Rattle.fair_semantics.specs.Fits.{IsFrom1To, PostFits};
ghost use Rattle.fair_semantics.specs.Linked.{IsLinked};
ghost use Rattle.run_order_law.specs.Order.{IsScheduled};
ghost use Rattle.actor_turn.specs.Held.{AreLimits};
ghost use Rattle.ask_board.specs.Board.{cells_of};
ghost use Rattle.answerer.specs.Answered.{AreKnown, IsOfBoard};
ghost use Rattle.ask_run.specs.Asking.{AnswersAll, KnowsAnswers};

use crate::one_board::{OneBoard, Teller};
use crate::reading::read_run;
use crate::tellers::{join_tellers, tellers, with_tellers};
use actor_pool::{Gate, PoolQueue, TicketSource};
use answerer::Answerer;
use ask_board::AskBoard;
use fair_semantics::{Limits, Run};
use feed_store::Feeds;
use join_base::NoMemory;
use pool_run::run_with;
use script_types::Plan;
use std::alloc::Global;
use std::marker::Brand;
use std::sync::Wait;
use std::thread::Threads;

// The same for a board whose cells have these names, with a source of tickets for each worker.
fn run_on<'a, R: Threads + Wait + Sync, G: Gate, S: TicketSource + Send + Drop, K: OneBoard + Send>(
    rt: &R,
    alloc: Global,
    plan: &Plan,
    limits: Limits,
    feeds: Feeds,
    ring: u32,
    sources: Vec<S>,
    board: &'a AskBoard,
    gate: &G,
) -> Result<(Run, Answerer<'a>), NoMemory>
    requires on { cells_of board.now ≡ K.cells }
    requires typed { IsTyped plan.now }
    requires limits { AreLimits limits }
    requires count { IsFrom1To 16 (length feeds) }
    requires posts { AllByRecursion (AllByRecursion (PostFits plan.now)) feeds }
    requires ring { IsFrom1To 4096 ring }
    requires few { length sources.items ≤ 64 }
    requires belong { All (λ source. S.belongs source (length plan.now.actors)) sources.items }
    ensures linked { IfOk result (λ made. IsLinked plan.now limits feeds made.0) }
    ensures scheduled { IfOk result (λ made. IsScheduled plan.now limits feeds made.0) }
    ensures version { IfOk result (λ made. made.0.version ≡ 2) }
    ensures board { IfOk result (λ made. made.1.answers.board.now ≡ board.now) }
    ensures of_board { IfOk result (λ made. IsOfBoard made.1.answers) }
    ensures known { IfOk result (λ made. AreKnown made.1.answers) }
    ensures answers { IfOk result (λ made. KnowsAnswers made.0 made.1) }
    ensures all { IfOk result (λ made. AnswersAll made.0 made.1) }
{
    let besides = tellers::<K>(alloc, board, feeds.len())?;
    let workers = with_tellers::<S, K>(alloc, board, sources, plan.actors.len() as u32)?;
    let (run, back) = run_with::<R, G, S, Teller<'a, K>>(
        rt, alloc, plan, limits, feeds, ring, besides, workers, gate,
    )?;
    let joined = join_tellers(alloc, board, back)?;
    let answerer = read_run(alloc, &run, joined)?;
    Ok((run, answerer))
}

// So many workers that have the pool's queue alone.
fn queues(alloc: Global, count: u32) -> Result<Vec<PoolQueue>, NoMemory>
    ensures count { IfOk result (λ sources. length sources.items ≡ count) }
{
    let mut sources = Vec::new(alloc);
    for _ in 0..count {
        sources.push(PoolQueue)?;
    }
    Ok(sources)
}

/// The run of a plan as `run_pool` gives it, with the same conditions and answers, beside which the asks of a board are
/// answered: in each turn of an actor its replies to arrivals from feeds are put there. What is replied after the last
/// turn is put there at the end.
///
/// The answerer knows the answers in the run of all asks on its list that are of actors of the run. Each ask of the
/// board that has an answer in the run is on the list, or somebody gave it another value. `NoMemory` comes too where an
/// answerer wanted memory.
pub fn run_asking<'a, R: Threads + Wait + Sync, G: Gate>(
    rt: &R,
    alloc: Global,
    plan: &Plan,
    limits: Limits,
    feeds: Feeds,
    ring: u32,
    workers: u32,
    board: &'a AskBoard,
    gate: &G,
) -> Result<(Run, Answerer<'a>), NoMemory>
    requires typed { IsTyped plan.now }
    requires limits { AreLimits limits }
    requires count { IsFrom1To 16 (length feeds) }
    requires posts { AllByRecursion (AllByRecursion (PostFits plan.now)) feeds }
    requires ring { IsFrom1To 4096 ring }
    requires workers { workers ≤ 64 }
    ensures linked { IfOk result (λ made. IsLinked plan.now limits feeds made.0) }
    ensures scheduled { IfOk result (λ made. IsScheduled plan.now limits feeds made.0) }
    ensures version { IfOk result (λ made. made.0.version ≡ 2) }
    ensures board { IfOk result (λ made. made.1.answers.board.now ≡ board.now) }
    ensures of_board { IfOk result (λ made. IsOfBoard made.1.answers) }
    ensures known { IfOk result (λ made. AreKnown made.1.answers) }
    ensures answers { IfOk result (λ made. KnowsAnswers made.0 made.1) }
    ensures all { IfOk result (λ made. AnswersAll made.0 made.1) }
{
    let sources = queues(alloc, workers)?;
    run_on::<R, G, PoolQueue, Brand>(rt, alloc, plan, limits, feeds, ring, sources, board, gate)
}
