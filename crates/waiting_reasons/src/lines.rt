//! All that is said of one message that waits.
ghost use Rattle.std.specs.Prelude.{◌≡◌, ◌++◌, ◌≤◌, OnOk, length};
ghost use Rattle.std.specs.List.{AllByRecursion};
ghost use Rattle.waiting_reasons.specs.Inside.{ReasonSuits, RuleSuits};
ghost use Rattle.waiting_reasons.specs.Text.{message_lines, reason_lines, rules_lines, taken_lines};

use crate::finding::reason_of;
use crate::messages::takes_kind;
use crate::notes::{write_rule_note, write_untaken};
use crate::patterns::{write_full, write_misfits, write_patterns};
use crate::reason::Reason;
use crate::values::write_numbered;
use join_base::{Bytes, Message, NoMemory};
use script_types::{Plan, Rule};
use std::alloc::Global;

// What a reason rests on.
fn write_reason_lines(
    alloc: Global,
    text: &mut Bytes,
    plan: &Plan,
    rule: &Rule,
    messages: &[Message],
    left: &[u32],
    number: u32,
    reason: &Reason,
) -> Result<(), NoMemory>
    requires rule { RuleSuits messages.now rule.now }
    requires suits { ReasonSuits messages.now rule.now.definition.patterns reason.now }
    ensures { OnOk result (text.new ≡ text.old ++ reason_lines plan.now rule.now messages.now left.now
        number reason.now) }
{
    match reason {
        Reason::Passed => Ok(()),
        Reason::Misfits => write_misfits(alloc, text, plan, rule, messages, number),
        Reason::Fullest(slots) => {
            write_patterns(alloc, text, plan, rule, messages, left, slots)?;
            write_full(alloc, text, rule, messages, slots)
        }
    }
}

// `rule R: REASON`, and what the reason rests on.
fn write_rule(
    alloc: Global,
    text: &mut Bytes,
    plan: &Plan,
    rule: &Rule,
    messages: &[Message],
    left: &[u32],
    number: u32,
    from: u32,
) -> Result<(), NoMemory>
    requires rule { RuleSuits messages.now rule.now }
    ensures { OnOk result (text.new ≡ text.old ++ taken_lines plan.now messages.now left.now number from rule.now) }
{
    if !takes_kind(messages, number, rule) {
        return Ok(());
    }
    let reason = reason_of(alloc, &rule.definition, messages, left, number)?;
    write_rule_note(text, from, rule, &reason)?;
    text.push_all(b"\n")?;
    write_reason_lines(alloc, text, plan, rule, messages, left, number, &reason)
}

fn write_rules(
    alloc: Global,
    text: &mut Bytes,
    plan: &Plan,
    rules: &[Rule],
    messages: &[Message],
    left: &[u32],
    number: u32,
) -> Result<(), NoMemory>
    requires all { AllByRecursion (RuleSuits messages.now) rules.now }
    requires few { length rules.now ≤ 16 }
    ensures { OnOk result (text.new ≡ text.old ++ rules_lines plan.now messages.now left.now number 1 rules.now) }
{
    for (place, rule) in rules.iter().enumerate() {
        let from = place as u32 + 1;
        write_rule(alloc, text, plan, rule, messages, left, number, from)?;
    }
    Ok(())
}

/// The message, and the lines of each definition that has a pattern of its kind.
pub fn write_message(
    alloc: Global,
    text: &mut Bytes,
    plan: &Plan,
    rules: &[Rule],
    messages: &[Message],
    left: &[u32],
    number: u32,
) -> Result<(), NoMemory>
    requires all { AllByRecursion (RuleSuits messages.now) rules.now }
    requires few { length rules.now ≤ 16 }
    ensures { OnOk result (text.new ≡ text.old ++ message_lines plan.now rules.now messages.now left.now number) }
{
    write_numbered(text, plan, messages, number)?;
    write_untaken(text, messages, number, rules)?;
    text.push_all(b"\n")?;
    write_rules(alloc, text, plan, rules, messages, left, number)
}
