//! Why the messages of an actor wait.
ghost use Rattle.std.specs.Prelude.{◌≡◌, ◌++◌, ◌≤◌, OnOk, OnErr, length, slice_get};
ghost use Rattle.std.specs.List.{AllByRecursion};
ghost use Rattle.script_types.specs.Typed.{IsTyped};
ghost use Rattle.fair_semantics.specs.Fair.{rules_of};
ghost use Rattle.fair_semantics.specs.Fits.{RunFits};
ghost use Rattle.waiting_reasons.specs.Inside.{RuleSuits};
ghost use Rattle.waiting_reasons.specs.Text.{entries_in, left_in, why_lines, why_text};

use crate::gone::write_gone;
use crate::lines::write_message;
use crate::messages::{contains_number, copy_messages};
use crate::notes::write_waiting;
use fair_semantics::{Entry, Run};
use join_base::{Bytes, Message, NoMemory};
use script_types::{Plan, Rule};
use std::alloc::Global;

// The definitions of an actor.
fn rules_at(plan: &Plan, actor: u32) -> &[Rule]
    ensures { result.now ≡ rules_of (slice_get plan.now.actors actor) }
{
    match plan.actors.as_slice().get(actor as usize) {
        Some(actor) => actor.rules.as_slice(),
        None => &[],
    }
}

// Its arrivals.
fn entries_at(run: &Run, actor: u32) -> &[Entry]
    ensures { result.now ≡ entries_in (slice_get run.now.actors actor) }
{
    match run.actors.as_slice().get(actor as usize) {
        Some(own) => own.entries.as_slice(),
        None => &[],
    }
}

// The numbers that it has left.
fn left_at(run: &Run, actor: u32) -> &[u32]
    ensures { result.now ≡ left_in (slice_get run.now.actors actor) }
{
    match run.actors.as_slice().get(actor as usize) {
        Some(own) => own.left.as_slice(),
        None => &[],
    }
}

fn write_why(
    alloc: Global,
    text: &mut Bytes,
    plan: &Plan,
    rules: &[Rule],
    entries: &[Entry],
    messages: &[Message],
    left: &[u32],
    wanted: Option<u32>,
) -> Result<(), NoMemory>
    requires all { AllByRecursion (RuleSuits messages.now) rules.now }
    requires few { length rules.now ≤ 16 }
    ensures { OnOk result (text.new ≡ text.old ++ why_lines plan.now rules.now entries.now messages.now
        left.now wanted) }
{
    match wanted {
        None => write_waiting(alloc, text, plan, rules, messages, left),
        Some(number) => {
            if !contains_number(left, number) {
                return write_gone(text, plan, entries, messages, number);
            }
            write_message(alloc, text, plan, rules, messages, left, number)
        }
    }
}

/// Appends why the messages that an actor has left wait at the end of a run: a line for each, or, where a number is
/// wanted, all that is said of the message with this arrival number, or what became of it. Actors are counted from 0.
/// After `NoMemory` nothing was appended.
///
/// The line of a message is `N KIND(VALUES); rule R: REASON`, with a reason for each definition that has a pattern of
/// its kind. Of one message each reason has a line of its own. Below it stand the patterns of the fullest assignment
/// that has the message, and for each that is missing the first five messages that could stand there, each with the
/// first conjunct that is false for it.
pub fn print_why(
    alloc: Global,
    plan: &Plan,
    run: &Run,
    actor: u32,
    wanted: Option<u32>,
    out: &mut Bytes,
) -> Result<(), NoMemory>
    requires typed { IsTyped plan.now }
    requires fits { RunFits plan.now run.now }
    ensures ok { OnOk result (out.new ≡ out.old ++ why_text plan.now run.now actor wanted) }
    ensures err { OnErr result (out.new ≡ out.old) }
{
    let entries = entries_at(run, actor);
    let messages = copy_messages(alloc, entries)?;
    let rules = rules_at(plan, actor);
    let left = left_at(run, actor);
    let mut text = Bytes::new(alloc);
    write_why(
        alloc,
        &mut text,
        plan,
        rules,
        entries,
        messages.as_slice(),
        left,
        wanted,
    )?;
    out.push_all(text.bytes())
}
