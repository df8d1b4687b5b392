//! What a run comes to whose rows are asked for their answers.
ghost use Rattle.std.specs.Prelude.{◌≡◌, IfOk};
ghost use Rattle.fair_semantics.specs.Linked.{IsLinked};
ghost use Rattle.run_order_law.specs.Order.{IsScheduled};
ghost use Rattle.command_words.specs.Ranges.{AreInRange};
ghost use Rattle.answerer.specs.Answered.{AreKnown, IsOfBoard};
ghost use Rattle.ask_run.specs.Asking.{AnswersAll, KnowsAnswers};
ghost use Rattle.join_command.specs.Output.{IsLogWithAnswers, IsSettled};
ghost use Rattle.join_command.specs.Replying.{AreRunParts};
ghost use Rattle.join_command.specs.Verdict.{limits_of};

use crate::output::run_status;
use crate::run::limits_of;
use crate::status::Status;
use actor_pool::Gate;
use answerer::Answerer;
use arrival_log::print_log;
use ask_board::AskBoard;
use ask_run::{print_told, run_asking};
use command_words::RunOptions;
use fair_semantics::Run;
use feed_answers::{all_targets, numbered_law};
use feed_store::Feeds;
use join_base::{Bytes, NoMemory};
use script_types::Plan;
use std::alloc::Global;
use std::mem;
use std::sync::Wait;
use std::thread::Threads;

// The run of the plan on its feeds, as `run_feeds` gives it, beside which the asks of a board are answered. The
// answerer knows the answers of the run.
fn ask_feeds<'a, R: Threads + Wait + Sync, G: Gate>(
    rt: &R,
    alloc: Global,
    plan: &Plan,
    options: RunOptions,
    feeds: Feeds,
    board: &'a AskBoard,
    gate: &G,
) -> Result<(Run, Answerer<'a>), NoMemory>
    requires parts { AreRunParts plan.now (limits_of options) feeds }
    requires numbers { AreInRange options }
    ensures linked { IfOk result (λ made. IsLinked plan.now (limits_of options) feeds made.0) }
    ensures scheduled { IfOk result (λ made. IsScheduled plan.now (limits_of options) feeds made.0) }
    ensures version { IfOk result (λ made. made.0.version ≡ 2) }
    ensures board { IfOk result (λ made. made.1.answers.board.now ≡ board.now) }
    ensures of_board { IfOk result (λ made. IsOfBoard made.1.answers) }
    ensures known { IfOk result (λ made. AreKnown made.1.answers) }
    ensures answers { IfOk result (λ made. KnowsAnswers made.0 made.1) }
    ensures all { IfOk result (λ made. AnswersAll made.0 made.1) }
{
    let limits = limits_of(options);
    let (ring, workers) = (options.ring, options.workers);
    run_asking(rt, alloc, plan, limits, feeds, ring, workers, board, gate)
}

/// The status, the log of a plan over its feeds, and the answers of their rows, which are read on the board that the
/// run put them on.
pub(crate) fn ask_output<R: Threads + Wait + Sync, G: Gate>(
    rt: &R,
    alloc: Global,
    plan: &Plan,
    options: RunOptions,
    feeds: Feeds,
    gate: &G,
) -> Result<(Status, Bytes), NoMemory>
    requires parts { AreRunParts plan.now (limits_of options) feeds }
    requires numbers { AreInRange options }
    ensures log { IfOk result (λ p. IsLogWithAnswers plan.now (limits_of options) feeds p.0 p.1) }
    ensures settled { IfOk result (λ p. IsSettled p.0) }
{
    let targets = all_targets(alloc, &feeds)?;
    let board = AskBoard::new(alloc, &feeds, plan.actors.len() as u32)?;
    let (run, answerer) = ask_feeds(rt, alloc, plan, options, feeds, &board, gate)?;
    // It costs nothing, and the numbers of the arrivals rest on it.
    numbered_law();
    let mut bytes = Bytes::new(alloc);
    print_log(alloc, plan, &run, &mut bytes)?;
    print_told(alloc, &run, answerer, &targets, &mut bytes)?;
    let status = run_status(&run);
    // As in `run_output`.
    mem::forget(run);
    Ok((status, bytes))
}
