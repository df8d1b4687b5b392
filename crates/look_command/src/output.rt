//! What is written.
ghost use Rattle.std.specs.Prelude.{◌≡◌, ◌++◌, IfOk, OnOk, codes};
ghost use Rattle.script_types.specs.Typed.{IsTyped};
ghost use Rattle.fair_semantics.specs.Fits.{RunFits};
ghost use Rattle.waiting_reasons.specs.Text.{why_text};
ghost use Rattle.join_command.specs.Output.{IsSettled, line};
ghost use Rattle.look_command.specs.Output.{IsOutput, other_feeds_line, other_row_line, row_text};
ghost use Rattle.look_command.specs.Replying.{IsShowable, verdict_of};

use crate::reply::Reply;
use fair_semantics::Run;
use join_base::{Bytes, NoMemory};
use join_command::{Status, accepted_line, write_count};
use log_audit::Difference;
use reaction_text::print_reactions;
use script_types::Plan;
use std::alloc::Global;
use waiting_reasons::print_why;

// The line for a log of another number of feeds.
fn other_feeds_line(alloc: Global, count: u32) -> Result<Bytes, NoMemory>
    ensures { IfOk result (λ bytes. bytes ≡ other_feeds_line count) }
{
    let mut bytes = Bytes::new(alloc);
    bytes.push_all(b"refused log line 1 feeds ")?;
    write_count(&mut bytes, u64::from(count))?;
    bytes.push_all(b"\n")?;
    Ok(bytes)
}

fn write_row(text: &mut Bytes, row: Option<u64>) -> Result<(), NoMemory>
    ensures { OnOk result (text.new ≡ text.old ++ row_text row) }
{
    match row {
        None => text.push_all(b" no row"),
        Some(row) => {
            text.push_all(b" row ")?;
            write_count(text, row)
        }
    }
}

// The line for a log that is not that of its feeds.
fn other_row_line(alloc: Global, difference: Difference) -> Result<Bytes, NoMemory>
    ensures { IfOk result (λ bytes. bytes ≡ other_row_line difference) }
{
    let mut bytes = Bytes::new(alloc);
    bytes.push_all(b"refused log line ")?;
    write_count(&mut bytes, difference.line)?;
    bytes.push_all(b" feed ")?;
    write_count(&mut bytes, u64::from(difference.feed))?;
    write_row(&mut bytes, difference.row)?;
    bytes.push_all(b"\n")?;
    Ok(bytes)
}

// That line, and what stands there and what should.
fn other_row_lines(alloc: Global, difference: Difference, shown: &[u8]) -> Result<Bytes, NoMemory>
    ensures { IfOk result (λ bytes. bytes ≡ other_row_line difference ++ shown.now) }
{
    let mut bytes = other_row_line(alloc, difference)?;
    bytes.push_all(shown)?;
    Ok(bytes)
}

// The line for a name of no actor.
fn unknown_line(alloc: Global) -> Result<Bytes, NoMemory>
    ensures { IfOk result (λ bytes. bytes ≡ line (codes "refused actor")) }
{
    let mut bytes = Bytes::new(alloc);
    bytes.push_all(b"refused actor\n")?;
    Ok(bytes)
}

// Why the messages of an actor wait.
fn text_of_why(
    alloc: Global,
    plan: &Plan,
    run: &Run,
    actor: u32,
    wanted: Option<u32>,
) -> Result<Bytes, NoMemory>
    requires typed { IsTyped plan.now }
    requires fits { RunFits plan.now run.now }
    ensures { IfOk result (λ bytes. bytes ≡ why_text plan.now run.now actor wanted) }
{
    let mut bytes = Bytes::new(alloc);
    print_why(alloc, plan, run, actor, wanted, &mut bytes)?;
    Ok(bytes)
}

/// The status of a reply, and what is written for it.
pub fn output_of(alloc: Global, reply: Reply) -> Result<(Status, Bytes), NoMemory>
    requires showable { IsShowable reply }
    ensures output { IfOk result (λ p. IsOutput (verdict_of reply) p.0 p.1) }
    ensures settled { IfOk result (λ p. IsSettled p.0) }
{
    match reply {
        Reply::Accepted(arrivals) => Ok((Status::Done, accepted_line(alloc, arrivals)?)),
        Reply::OtherFeeds(count) => Ok((Status::LogRefused, other_feeds_line(alloc, count)?)),
        Reply::OtherRow { difference, shown } => {
            let lines = other_row_lines(alloc, difference, shown.bytes())?;
            Ok((Status::LogRefused, lines))
        }
        Reply::UnknownActor => Ok((Status::ScriptRefused, unknown_line(alloc)?)),
        Reply::Reacts { plan, run, only } => {
            let text = print_reactions(alloc, &plan, &run, only)?;
            Ok((Status::Done, text))
        }
        Reply::Explains {
            plan,
            run,
            actor,
            wanted,
        } => {
            let text = text_of_why(alloc, &plan, &run, actor, wanted)?;
            Ok((Status::Done, text))
        }
    }
}
