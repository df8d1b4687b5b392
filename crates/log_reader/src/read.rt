//! A log, read line by line.
ghost use Rattle.std.specs.Prelude.{◌≡◌, ◌==◌, ◌&&◌, length};
ghost use Rattle.script_types.specs.Typed.{IsTyped};
ghost use Rattle.log_lines.specs.Forms.{HeadFits};
ghost use Rattle.log_reader.specs.Advance.{Advances, is_done, run_of};
ghost use Rattle.log_reader.specs.Log.{Answers, FaultsAreOneLine, LogsAreOneRun};

use crate::draft::{Draft, is_open};
use crate::fault::LogFault;
use fair_semantics::Run;
use log_lines::{LineFault, cut_line, read_head, read_line};
use script_types::Plan;
use std::alloc::Global;

// Reads one line more. Behind a fault nothing is said of the draft.
fn advance(
    alloc: Global,
    plan: &Plan,
    draft: &mut Draft,
    text: &[u8],
    line: u64,
) -> Result<(), LogFault>
    requires typed { IsTyped plan.now }
    requires head { HeadFits plan.now draft.old.head }
    ensures { Advances plan.now draft.old text.now line draft.new result }
{
    match read_line(alloc, plan, &draft.head, text) {
        Ok(given) => match draft.step(alloc, given) {
            Ok(()) => Ok(()),
            Err(LineFault::NoLine) => Err(LogFault::Bad { line }),
            Err(LineFault::NoMemory) => Err(LogFault::NoMemory),
        },
        Err(LineFault::NoLine) => Err(LogFault::Bad { line }),
        Err(LineFault::NoMemory) => Err(LogFault::NoMemory),
    }
}

// Whether the sections of all actors are read.
fn is_done(plan: &Plan, draft: &Draft) -> bool
    ensures { result ≡ is_done plan.now draft.now }
{
    !is_open(&draft.reached) && draft.actors.len() == plan.actors.len()
}

// Whether nothing is left, and the sections of all actors are read.
fn is_whole(plan: &Plan, draft: &Draft, rest: &[u8]) -> bool
    ensures { result ≡ (length rest.now == 0 && is_done plan.now draft.now) }
{
    rest.is_empty() && is_done(plan, draft)
}

// The run that was read.
fn run_of(draft: Draft) -> Run
    ensures { result ≡ run_of draft }
{
    let Draft {
        head,
        actors,
        entries: _,
        late: _,
        reached: _,
    } = draft;
    Run {
        version: head.version,
        limits: head.limits,
        feeds: head.feeds,
        actors,
    }
}

/// The run of a well typed plan whose log the bytes are: `print_log` of it gives these bytes. Where they are the log of
/// no run of the plan, the answer is the line at fault, from 1 on: the first whole line that may not stand where it
/// stands, or one more than the number of whole lines.
///
/// The bytes are read in one pass.
pub fn read_log(alloc: Global, plan: &Plan, bytes: &[u8]) -> Result<Run, LogFault>
    requires typed { IsTyped plan.now }
    ensures answer { Answers plan.now bytes.now result }
{
    let Some((first, behind)) = cut_line(bytes) else {
        return Err(LogFault::Bad { line: 1 });
    };
    let Some(head) = read_head(plan, first) else {
        return Err(LogFault::Bad { line: 1 });
    };
    let mut draft = Draft::new(alloc, head);
    let mut rest = behind;
    let mut number: u64 = 1;
    'lines: while let Some((text, more)) = cut_line(rest) {
        number += 1;
        advance(alloc, plan, &mut draft, text, number)?;
        rest = more;
    }
    if is_whole(plan, &draft, rest) {
        Ok(run_of(draft))
    } else {
        Err(LogFault::Bad { line: number + 1 })
    }
}

/// Two runs that fit a well typed plan and have one log are equal.
pub fn one_run()
    ensures { LogsAreOneRun }
{}

/// Beside a well typed plan bytes have one line at fault.
pub fn one_fault()
    ensures { FaultsAreOneLine }
{}
