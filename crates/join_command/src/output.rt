//! What is written, and how it is written.
ghost use Rattle.std.specs.Prelude.{◌≡◌, ◌≤◌, IfOk, codes};
ghost use Rattle.std.specs.List.{list_any};
ghost use Rattle.command_words.specs.Ranges.{AreInRange};
ghost use Rattle.script_files.specs.Loading.{refused_as};
ghost use Rattle.join_command.specs.Output.{IsLog, IsOutput, IsSettled, IsSummary, accepted_line, cause_name, feed_line, line, log_cause_name, log_line, met_limit, row_cause_name, run_status, script_line, too_long_line};
ghost use Rattle.join_command.specs.Replying.{AreRunParts, IsRunnable, verdict_of};
ghost use Rattle.join_command.specs.Verdict.{limits_of};

use crate::ask::ask_output;
use crate::count::write_count;
use crate::reply::Reply;
use crate::run::run_feeds;
use crate::status::Status;
use crate::watch::watch_output;
use actor_pool::Gate;
use arrival_log::print_log;
use building_load::{load_feeds, load_plan, summary};
use command_words::RunOptions;
use fair_semantics::{ActorRun, Ending, Run};
use feed_store::Feeds;
use join_base::{Bytes, NoMemory};
use script_files::{LogCause, Refusal};
use script_reader::ScriptCause;
use script_types::Plan;
use sensor_feed::FeedCause;
use std::alloc::Global;
use std::mem;
use std::sync::Wait;
use std::thread::Threads;
use watch_run::View;

// These bytes.
fn text_of(alloc: Global, text: &[u8]) -> Result<Bytes, NoMemory>
    ensures { IfOk result (λ bytes. bytes ≡ text.now) }
{
    let mut bytes = Bytes::new(alloc);
    bytes.push_all(text)?;
    Ok(bytes)
}

/// The line for words that are no command.
pub fn usage_line(alloc: Global) -> Result<Bytes, NoMemory>
    ensures { IfOk result (λ bytes. bytes ≡ line (codes "refused usage")) }
{
    text_of(alloc, b"refused usage\n")
}

// The line for a file that is too long.
fn too_long_line(alloc: Global, file: u32) -> Result<Bytes, NoMemory>
    ensures { IfOk result (λ bytes. bytes ≡ too_long_line file) }
{
    let mut bytes = Bytes::new(alloc);
    bytes.push_all(b"refused file ")?;
    write_count(&mut bytes, u64::from(file))?;
    bytes.push_all(b" too long\n")?;
    Ok(bytes)
}

// The name of a cause.
fn cause_name(cause: ScriptCause) -> &'static [u8]
    ensures { result.now ≡ cause_name cause }
{
    match cause {
        ScriptCause::NotText => b"NotText",
        ScriptCause::BadToken => b"BadToken",
        ScriptCause::BadSyntax => b"BadSyntax",
        ScriptCause::TooMany => b"TooMany",
        ScriptCause::TwiceDeclared => b"TwiceDeclared",
        ScriptCause::UnknownMessage => b"UnknownMessage",
        ScriptCause::UnknownActor => b"UnknownActor",
        ScriptCause::UnknownName => b"UnknownName",
        ScriptCause::WrongCount => b"WrongCount",
        ScriptCause::WrongType => b"WrongType",
        ScriptCause::StopNotLast => b"StopNotLast",
        ScriptCause::BadWindow => b"BadWindow",
        ScriptCause::BadReply => b"BadReply",
    }
}

// The line for a script with a fault.
fn script_line(alloc: Global, place: u64, cause: ScriptCause) -> Result<Bytes, NoMemory>
    ensures { IfOk result (λ bytes. bytes ≡ script_line place cause) }
{
    let mut bytes = Bytes::new(alloc);
    bytes.push_all(b"refused script ")?;
    write_count(&mut bytes, place)?;
    bytes.push_all(b" ")?;
    bytes.push_all(cause_name(cause))?;
    bytes.push_all(b"\n")?;
    Ok(bytes)
}

// The name of a record's cause.
fn row_cause_name(cause: FeedCause) -> &'static [u8]
    ensures { result.now ≡ row_cause_name cause }
{
    match cause {
        FeedCause::UnknownActor => b"UnknownActor",
        FeedCause::UnknownMessage => b"UnknownMessage",
        FeedCause::WrongCount => b"WrongCount",
        FeedCause::BadInt => b"BadInt",
        FeedCause::NotText => b"NotText",
        FeedCause::TooLong => b"TooLong",
    }
}

// The line for a feed with a record in fault.
fn feed_line(alloc: Global, feed: u32, row: u64, cause: FeedCause) -> Result<Bytes, NoMemory>
    ensures { IfOk result (λ bytes. bytes ≡ feed_line feed row cause) }
{
    let mut bytes = Bytes::new(alloc);
    bytes.push_all(b"refused feed ")?;
    write_count(&mut bytes, u64::from(feed))?;
    bytes.push_all(b" row ")?;
    write_count(&mut bytes, row)?;
    bytes.push_all(b" ")?;
    bytes.push_all(row_cause_name(cause))?;
    bytes.push_all(b"\n")?;
    Ok(bytes)
}

// The name of the cause of a log.
fn log_cause_name(cause: LogCause) -> &'static [u8]
    ensures { result.now ≡ log_cause_name cause }
{
    match cause {
        LogCause::Bad => b"LogFault",
        LogCause::Differs => b"Differs",
    }
}

// The line for a log with a line in fault.
fn log_line(alloc: Global, line: u64, cause: LogCause) -> Result<Bytes, NoMemory>
    ensures { IfOk result (λ bytes. bytes ≡ log_line line cause) }
{
    let mut bytes = Bytes::new(alloc);
    bytes.push_all(b"refused log line ")?;
    write_count(&mut bytes, line)?;
    bytes.push_all(b" ")?;
    bytes.push_all(log_cause_name(cause))?;
    bytes.push_all(b"\n")?;
    Ok(bytes)
}

/// The line for a log that is accepted.
pub fn accepted_line(alloc: Global, arrivals: u64) -> Result<Bytes, NoMemory>
    ensures { IfOk result (λ bytes. bytes ≡ accepted_line arrivals) }
{
    let mut bytes = Bytes::new(alloc);
    bytes.push_all(b"accepted ")?;
    write_count(&mut bytes, arrivals)?;
    bytes.push_all(b"\n")?;
    Ok(bytes)
}

/// The status of a refusal, and the line that is written for it.
pub fn refused_output(alloc: Global, refusal: Refusal) -> Result<(Status, Bytes), NoMemory>
    ensures output { IfOk result (λ p. IsOutput (refused_as refusal) p.0 p.1) }
    ensures settled { IfOk result (λ p. IsSettled p.0) }
{
    match refusal {
        Refusal::TooLong(file) => Ok((Status::TooLong, too_long_line(alloc, file)?)),
        Refusal::Script { place, cause } => {
            Ok((Status::ScriptRefused, script_line(alloc, place, cause)?))
        }
        Refusal::Feed { feed, row, cause } => {
            Ok((Status::FeedRefused, feed_line(alloc, feed, row, cause)?))
        }
        Refusal::Log { line, cause } => Ok((Status::LogRefused, log_line(alloc, line, cause)?)),
    }
}

fn met_limit(ending: Ending) -> bool
    ensures { result ≡ met_limit ending }
{
    match ending {
        Ending::Running | Ending::Stopped => false,
        Ending::Jammed | Ending::Spent => true,
    }
}

fn actor_met_limit(actor: &ActorRun) -> bool
    ensures { result ≡ met_limit actor.now.ending }
{
    met_limit(actor.ending)
}

fn any_met_limit(actors: &[ActorRun]) -> bool
    ensures { result ≡ list_any (λ actor. met_limit actor.ending) actors.now }
{
    actors.iter().any(actor_met_limit)
}

/// `Limits` where an actor was jammed or spent, and else `Done`.
pub(crate) fn run_status(run: &Run) -> Status
    ensures status { result ≡ run_status run.now }
    ensures settled { IsSettled result }
{
    if any_met_limit(run.actors.as_slice()) {
        Status::Limits
    } else {
        Status::Done
    }
}

// The status and the log of a plan over its feeds.
fn run_output<R: Threads + Wait + Sync, G: Gate>(
    rt: &R,
    alloc: Global,
    plan: &Plan,
    options: RunOptions,
    feeds: Feeds,
    gate: &G,
) -> Result<(Status, Bytes), NoMemory>
    requires parts { AreRunParts plan.now (limits_of options) feeds }
    requires numbers { AreInRange options }
    ensures log { IfOk result (λ p. IsLog plan.now (limits_of options) feeds p.0 p.1) }
    ensures settled { IfOk result (λ p. IsSettled p.0) }
{
    let run = run_feeds(rt, alloc, plan, options, feeds, gate)?;
    let mut bytes = Bytes::new(alloc);
    print_log(alloc, plan, &run, &mut bytes)?;
    let status = run_status(&run);
    // The system takes its memory back as the program ends, at once. Message by message it costs up to a seventh of a
    // run.
    mem::forget(run);
    Ok((status, bytes))
}

// The status and the summary of the building over feeds of so many rows.
fn load_output<R: Threads + Wait + Sync, G: Gate>(
    rt: &R,
    alloc: Global,
    rows: u32,
    gate: &G,
) -> Result<(Status, Bytes), NoMemory>
    requires rows { (1 ≤ rows) × (rows ≤ 20000) }
    ensures summary { IfOk result (λ p. IsSummary rows p.0 p.1) }
    ensures settled { IfOk result (λ p. IsSettled p.0) }
{
    let plan = load_plan(alloc)?;
    let feeds = load_feeds(alloc, rows)?;
    let run = run_feeds(rt, alloc, &plan, RunOptions::USUAL, feeds, gate)?;
    let mut bytes = Bytes::new(alloc);
    summary(alloc, rows, &plan, &run, &mut bytes)?;
    let status = run_status(&run);
    // As in `run_output`.
    mem::forget(run);
    Ok((status, bytes))
}

/// The status of a reply, and what is written for it. It may wait where the reply is a run. The view is shown the
/// totals of a run that is watched.
pub fn output_of<R: Threads + Wait + Sync, G: Gate, V: View<R> + Sync>(
    rt: &R,
    alloc: Global,
    reply: Reply,
    gate: &G,
    view: &mut V,
) -> Result<(Status, Bytes), NoMemory>
    requires runnable { IsRunnable reply }
    ensures output { IfOk result (λ p. IsOutput (verdict_of reply) p.0 p.1) }
    ensures settled { IfOk result (λ p. IsSettled p.0) }
{
    match reply {
        Reply::Check(text) => Ok((Status::Done, text)),
        Reply::Lint(text) => Ok((Status::Done, text)),
        Reply::Run {
            plan,
            options,
            feeds,
        } => run_output(rt, alloc, &plan, options, feeds, gate),
        Reply::Ask {
            plan,
            options,
            feeds,
        } => ask_output(rt, alloc, &plan, options, feeds, gate),
        Reply::Watch {
            plan,
            options,
            feeds,
            monitors,
        } => watch_output(rt, alloc, &plan, options, feeds, gate, monitors, view),
        Reply::Load { rows } => load_output(rt, alloc, rows, gate),
        Reply::Accepted(arrivals) => Ok((Status::Done, accepted_line(alloc, arrivals)?)),
    }
}
