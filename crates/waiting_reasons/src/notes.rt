//! A line for each message that waits.
ghost use Rattle.std.specs.Prelude.{◌≡◌, ◌++◌, ◌≤◌, OnOk, length};
ghost use Rattle.std.specs.List.{AllByRecursion, flat_map};
ghost use Rattle.waiting_reasons.specs.Inside.{ReasonCounts, RuleSuits};
ghost use Rattle.waiting_reasons.specs.Text.{filled_text, message_line, reason_text, rule_note, rule_notes, taken_note, untaken_text, waiting_lines};

use crate::finding::reason_of;
use crate::messages::{is_taken, takes_kind};
use crate::reason::Reason;
use crate::slots::filled_count;
use crate::values::write_numbered;
use join_base::{Bytes, Message, NoMemory, Slots, write_number};
use script_types::{Plan, Rule};
use std::alloc::Global;

// `it has K of P`.
fn write_filled(text: &mut Bytes, patterns: usize, slots: &Slots) -> Result<(), NoMemory>
    requires few { patterns ≤ 8 }
    requires count { length slots.now ≡ patterns }
    ensures { OnOk result (text.new ≡ text.old ++ filled_text patterns slots.now) }
{
    text.push_all(b"it has ")?;
    write_number(text, i128::from(filled_count(patterns as u32, slots)))?;
    text.push_all(b" of ")?;
    write_number(text, i128::from(patterns as u64))
}

fn write_reason(text: &mut Bytes, patterns: usize, reason: &Reason) -> Result<(), NoMemory>
    requires few { patterns ≤ 8 }
    requires counts { ReasonCounts patterns reason.now }
    ensures { OnOk result (text.new ≡ text.old ++ reason_text patterns reason.now) }
{
    match reason {
        Reason::Passed => text.push_all(b"the window has passed it"),
        Reason::Misfits => text.push_all(b"it fits no pattern"),
        Reason::Fullest(slots) => write_filled(text, patterns, slots),
    }
}

/// `rule R: REASON`.
pub fn write_rule_note(
    text: &mut Bytes,
    number: u32,
    rule: &Rule,
    reason: &Reason,
) -> Result<(), NoMemory>
    requires few { length rule.now.definition.patterns ≤ 8 }
    requires counts { ReasonCounts (length rule.now.definition.patterns) reason.now }
    ensures { OnOk result (text.new ≡ text.old ++ rule_note number rule.now reason.now) }
{
    text.push_all(b"rule ")?;
    write_number(text, i128::from(number))?;
    text.push_all(b": ")?;
    write_reason(text, rule.definition.patterns.len(), reason)
}

// `; rule R: REASON` where the definition has a pattern of the message's kind.
fn write_taken_note(
    alloc: Global,
    text: &mut Bytes,
    messages: &[Message],
    left: &[u32],
    number: u32,
    from: u32,
    rule: &Rule,
) -> Result<(), NoMemory>
    requires rule { RuleSuits messages.now rule.now }
    ensures { OnOk result (text.new ≡ text.old ++ taken_note messages.now left.now number from rule.now) }
{
    if !takes_kind(messages, number, rule) {
        return Ok(());
    }
    let reason = reason_of(alloc, &rule.definition, messages, left, number)?;
    text.push_all(b"; ")?;
    write_rule_note(text, from, rule, &reason)
}

fn write_rule_notes(
    alloc: Global,
    text: &mut Bytes,
    messages: &[Message],
    left: &[u32],
    number: u32,
    rules: &[Rule],
) -> Result<(), NoMemory>
    requires all { AllByRecursion (RuleSuits messages.now) rules.now }
    requires few { length rules.now ≤ 16 }
    ensures { OnOk result (text.new ≡ text.old ++ rule_notes messages.now left.now number 1 rules.now) }
{
    for (place, rule) in rules.iter().enumerate() {
        write_taken_note(alloc, text, messages, left, number, place as u32 + 1, rule)?;
    }
    Ok(())
}

/// `; no rule takes it` where none has a pattern of the message's kind.
pub fn write_untaken(
    text: &mut Bytes,
    messages: &[Message],
    number: u32,
    rules: &[Rule],
) -> Result<(), NoMemory>
    ensures { OnOk result (text.new ≡ text.old ++ untaken_text rules.now messages.now number) }
{
    if is_taken(messages, number, rules) {
        return Ok(());
    }
    text.push_all(b"; no rule takes it")
}

// `N KIND(VALUES); rule R: REASON; rule R: REASON`.
fn write_message_line(
    alloc: Global,
    text: &mut Bytes,
    plan: &Plan,
    rules: &[Rule],
    messages: &[Message],
    left: &[u32],
    number: u32,
) -> Result<(), NoMemory>
    requires all { AllByRecursion (RuleSuits messages.now) rules.now }
    requires few { length rules.now ≤ 16 }
    ensures { OnOk result (text.new ≡ text.old ++ message_line plan.now rules.now messages.now left.now number) }
{
    write_numbered(text, plan, messages, number)?;
    write_rule_notes(alloc, text, messages, left, number, rules)?;
    write_untaken(text, messages, number, rules)?;
    text.push_all(b"\n")
}

fn write_message_lines(
    alloc: Global,
    text: &mut Bytes,
    plan: &Plan,
    rules: &[Rule],
    messages: &[Message],
    left: &[u32],
) -> Result<(), NoMemory>
    requires all { AllByRecursion (RuleSuits messages.now) rules.now }
    requires few { length rules.now ≤ 16 }
    ensures { OnOk result (text.new ≡ text.old ++ flat_map (message_line plan.now rules.now messages.now
        left.now) left.now) }
{
    for number in left {
        write_message_line(alloc, text, plan, rules, messages, left, *number)?;
    }
    Ok(())
}

/// A line for each message that waits, or `nothing waits`.
pub fn write_waiting(
    alloc: Global,
    text: &mut Bytes,
    plan: &Plan,
    rules: &[Rule],
    messages: &[Message],
    left: &[u32],
) -> Result<(), NoMemory>
    requires all { AllByRecursion (RuleSuits messages.now) rules.now }
    requires few { length rules.now ≤ 16 }
    ensures { OnOk result (text.new ≡ text.old ++ waiting_lines plan.now rules.now messages.now left.now) }
{
    if left.is_empty() {
        return text.push_all(b"nothing waits\n");
    }
    write_message_lines(alloc, text, plan, rules, messages, left)
}
