//! The patterns of a definition, each with its message or with those that could stand there.
ghost use Rattle.std.specs.Prelude.{◌≡◌, ◌++◌, None, Some, OnOk, slice_get, take, true};
ghost use Rattle.std.specs.List.{AllByRecursion, flat_map};
ghost use Rattle.guard_eval.specs.Meaning.{number_at};
ghost use Rattle.pattern_core.specs.Matches.{is_full, usable};
ghost use Rattle.pattern_core.specs.Suits.{SlotsSuit};
ghost use Rattle.waiting_reasons.specs.Inside.{RuleSuits, SuitsWith};
ghost use Rattle.waiting_reasons.specs.Guards.{first_untrue};
ghost use Rattle.waiting_reasons.specs.Text.{candidate_line, candidate_text, full_line, further_text, misfit_line, misfit_lines, missing_lines, obstacle_text, pattern_front, pattern_lines, slot_lines, standing_line, waits_text};
ghost use Rattle.waiting_reasons.specs.Ways.{no_numbers};

use crate::guards::{first_false, first_untrue};
use crate::messages::{is_of_kind, is_seen, usable};
use crate::values::{write_false, write_numbered};
use crate::ways::no_numbers;
use join_base::{Bytes, Message, NoMemory, Slots, write_number};
use pattern_core::is_full;
use plan_text::{row_of, write_pattern};
use script_types::{Plan, Rule};
use std::alloc::Global;

// `  PATTERN`.
fn write_front(
    text: &mut Bytes,
    plan: &Plan,
    rule: &Rule,
    place: u32,
    kind: u32,
) -> Result<(), NoMemory>
    ensures { OnOk result (text.new ≡ text.old ++ pattern_front plan.now rule.now place kind) }
{
    text.push_all(b"  ")?;
    let row = row_of(rule.variables.as_slice(), place as usize);
    write_pattern(text, plan, kind, row)
}

// What is false where the assignment has the number at the pattern too.
fn write_further(
    alloc: Global,
    text: &mut Bytes,
    rule: &Rule,
    messages: &[Message],
    slots: &Slots,
    place: u32,
    number: u32,
) -> Result<(), NoMemory>
    requires rule { RuleSuits messages.now rule.now }
    requires empty { slice_get slots.now place ≡ Some None }
    requires longer { SuitsWith messages.now rule.now.definition.patterns slots.now place number }
    ensures { OnOk result (text.new ≡ text.old ++ further_text rule.now messages.now slots.now place number) }
{
    let longer = slots.with(place, number);
    let patterns = rule.definition.patterns.len() as u32;
    match first_false(&rule.definition, &longer, messages) {
        Some(conjunct) => {
            let variables = rule.variables.as_slice();
            write_false(
                alloc, text, variables, messages, patterns, &longer, conjunct,
            )
        }
        None => text.push_all(b"it fits"),
    }
}

// Why a message that waits doesn't stand at the pattern.
fn write_candidate_text(
    alloc: Global,
    text: &mut Bytes,
    rule: &Rule,
    messages: &[Message],
    slots: &Slots,
    place: u32,
    number: u32,
) -> Result<(), NoMemory>
    requires rule { RuleSuits messages.now rule.now }
    requires empty { slice_get slots.now place ≡ Some None }
    requires longer { SuitsWith messages.now rule.now.definition.patterns slots.now place number }
    ensures { OnOk result (text.new ≡ text.old ++ candidate_text rule.now messages.now slots.now place number) }
{
    if !is_seen(rule.definition.window, messages.len(), number) {
        return text.push_all(b"the window has passed it");
    }
    write_further(alloc, text, rule, messages, slots, place, number)
}

// `    N KIND(VALUES): WHY`.
fn write_candidate(
    alloc: Global,
    text: &mut Bytes,
    plan: &Plan,
    rule: &Rule,
    messages: &[Message],
    slots: &Slots,
    place: u32,
    number: u32,
) -> Result<(), NoMemory>
    requires rule { RuleSuits messages.now rule.now }
    requires empty { slice_get slots.now place ≡ Some None }
    requires longer { SuitsWith messages.now rule.now.definition.patterns slots.now place number }
    ensures { OnOk result (text.new ≡ text.old ++ candidate_line plan.now rule.now messages.now slots.now
        place number) }
{
    text.push_all(b"    ")?;
    write_numbered(text, plan, messages, number)?;
    text.push_all(b": ")?;
    write_candidate_text(alloc, text, rule, messages, slots, place, number)?;
    text.push_all(b"\n")
}

fn write_candidates(
    alloc: Global,
    text: &mut Bytes,
    plan: &Plan,
    rule: &Rule,
    messages: &[Message],
    slots: &Slots,
    place: u32,
    numbers: &[u32],
) -> Result<(), NoMemory>
    requires rule { RuleSuits messages.now rule.now }
    requires empty { slice_get slots.now place ≡ Some None }
    requires all { AllByRecursion (SuitsWith messages.now rule.now.definition.patterns slots.now place) numbers.now }
    ensures { OnOk result (text.new ≡ text.old ++ flat_map (candidate_line plan.now rule.now messages.now slots.now
        place) numbers.now) }
{
    for number in numbers {
        write_candidate(alloc, text, plan, rule, messages, slots, place, *number)?;
    }
    Ok(())
}

// `none waits`, `1 waits` or `N wait`.
fn write_waits(text: &mut Bytes, count: usize) -> Result<(), NoMemory>
    ensures { OnOk result (text.new ≡ text.old ++ waits_text count) }
{
    if count == 0 {
        return text.push_all(b"none waits");
    }
    if count == 1 {
        return text.push_all(b"1 waits");
    }
    write_number(text, i128::from(count as u64))?;
    text.push_all(b" wait")
}

// The first five.
fn first_five(numbers: &[u32]) -> &[u32]
    ensures { result.now ≡ take 5 numbers.now }
{
    if numbers.len() <= 5 {
        return numbers;
    }
    let (front, _) = numbers.split_at(5);
    front
}

// `  PATTERN is missing: N wait`, and the first five of those that wait.
fn write_missing(
    alloc: Global,
    text: &mut Bytes,
    plan: &Plan,
    rule: &Rule,
    messages: &[Message],
    left: &[u32],
    slots: &Slots,
    place: u32,
    kind: u32,
) -> Result<(), NoMemory>
    requires rule { RuleSuits messages.now rule.now }
    requires suits { SlotsSuit messages.now rule.now.definition.patterns slots.now }
    requires empty { slice_get slots.now place ≡ Some None }
    requires kind { slice_get rule.now.definition.patterns place ≡ Some kind }
    ensures { OnOk result (text.new ≡ text.old ++ missing_lines plan.now rule.now messages.now slots.now place kind
        (usable messages.now left.now kind slots.now)) }
{
    let patterns = rule.definition.patterns.len() as u32;
    let waiting = usable(alloc, messages, left, kind, patterns, slots)?;
    let first = first_five(waiting.as_slice());
    write_front(text, plan, rule, place, kind)?;
    text.push_all(b" is missing: ")?;
    write_waits(text, waiting.len())?;
    text.push_all(b"\n")?;
    write_candidates(alloc, text, plan, rule, messages, slots, place, first)
}

// `  PATTERN is N`.
fn write_standing(
    text: &mut Bytes,
    plan: &Plan,
    rule: &Rule,
    place: u32,
    kind: u32,
    number: u32,
) -> Result<(), NoMemory>
    ensures { OnOk result (text.new ≡ text.old ++ standing_line plan.now rule.now place kind number) }
{
    write_front(text, plan, rule, place, kind)?;
    text.push_all(b" is ")?;
    write_number(text, i128::from(number))?;
    text.push_all(b"\n")
}

// That, or what is missing.
fn write_slot(
    alloc: Global,
    text: &mut Bytes,
    plan: &Plan,
    rule: &Rule,
    messages: &[Message],
    left: &[u32],
    slots: &Slots,
    place: u32,
    kind: u32,
) -> Result<(), NoMemory>
    requires rule { RuleSuits messages.now rule.now }
    requires suits { SlotsSuit messages.now rule.now.definition.patterns slots.now }
    requires kind { slice_get rule.now.definition.patterns place ≡ Some kind }
    ensures { OnOk result (text.new ≡ text.old ++ slot_lines plan.now rule.now messages.now left.now slots.now place
        kind (number_at slots.now place)) }
{
    match slots.get(place) {
        Some(number) => write_standing(text, plan, rule, place, kind, number),
        None => write_missing(alloc, text, plan, rule, messages, left, slots, place, kind),
    }
}

/// The patterns of a definition at an assignment.
pub fn write_patterns(
    alloc: Global,
    text: &mut Bytes,
    plan: &Plan,
    rule: &Rule,
    messages: &[Message],
    left: &[u32],
    slots: &Slots,
) -> Result<(), NoMemory>
    requires rule { RuleSuits messages.now rule.now }
    requires suits { SlotsSuit messages.now rule.now.definition.patterns slots.now }
    ensures { OnOk result (text.new ≡ text.old ++ pattern_lines plan.now rule.now messages.now left.now slots.now 0
        rule.now.definition.patterns) }
{
    for (place, kind) in rule.definition.patterns.as_slice().iter().enumerate() {
        write_slot(
            alloc,
            text,
            plan,
            rule,
            messages,
            left,
            slots,
            place as u32,
            *kind,
        )?;
    }
    Ok(())
}

// The first conjunct that is not true, where no pattern is empty.
fn write_untrue(
    alloc: Global,
    text: &mut Bytes,
    rule: &Rule,
    messages: &[Message],
    slots: &Slots,
) -> Result<(), NoMemory>
    requires rule { RuleSuits messages.now rule.now }
    requires suits { SlotsSuit messages.now rule.now.definition.patterns slots.now }
    requires full { is_full slots.now ≡ true }
    ensures { OnOk result (text.new ≡ text.old ++ obstacle_text rule.now.variables messages.now slots.now
        (first_untrue messages.now slots.now rule.now.definition.conjuncts)) }
{
    let patterns = rule.definition.patterns.len() as u32;
    match first_untrue(&rule.definition, slots, messages) {
        Some(conjunct) => {
            let variables = rule.variables.as_slice();
            write_false(alloc, text, variables, messages, patterns, slots, conjunct)
        }
        None => text.push_all(b"it fits"),
    }
}

/// `  WHY` where no pattern is missing.
pub fn write_full(
    alloc: Global,
    text: &mut Bytes,
    rule: &Rule,
    messages: &[Message],
    slots: &Slots,
) -> Result<(), NoMemory>
    requires rule { RuleSuits messages.now rule.now }
    requires suits { SlotsSuit messages.now rule.now.definition.patterns slots.now }
    ensures { OnOk result (text.new ≡ text.old ++ full_line rule.now messages.now slots.now) }
{
    if !is_full(rule.definition.patterns.len() as u32, slots) {
        return Ok(());
    }
    text.push_all(b"  ")?;
    write_untrue(alloc, text, rule, messages, slots)?;
    text.push_all(b"\n")
}

// `  PATTERN: WHY` where the pattern has the message's kind.
fn write_misfit(
    alloc: Global,
    text: &mut Bytes,
    plan: &Plan,
    rule: &Rule,
    messages: &[Message],
    none: &Slots,
    number: u32,
    place: u32,
    kind: u32,
) -> Result<(), NoMemory>
    requires rule { RuleSuits messages.now rule.now }
    requires none { none.now ≡ no_numbers rule.now.definition }
    requires kind { slice_get rule.now.definition.patterns place ≡ Some kind }
    ensures { OnOk result (text.new ≡ text.old ++ misfit_line plan.now rule.now messages.now number place kind) }
{
    if !is_of_kind(messages, number, kind) {
        return Ok(());
    }
    write_front(text, plan, rule, place, kind)?;
    text.push_all(b": ")?;
    write_further(alloc, text, rule, messages, none, place, number)?;
    text.push_all(b"\n")
}

/// What is false for the message alone, at each pattern of its kind.
pub fn write_misfits(
    alloc: Global,
    text: &mut Bytes,
    plan: &Plan,
    rule: &Rule,
    messages: &[Message],
    number: u32,
) -> Result<(), NoMemory>
    requires rule { RuleSuits messages.now rule.now }
    ensures { OnOk result (text.new ≡ text.old ++ misfit_lines plan.now rule.now messages.now number 0
        rule.now.definition.patterns) }
{
    let none = no_numbers(&rule.definition);
    for (place, kind) in rule.definition.patterns.as_slice().iter().enumerate() {
        write_misfit(
            alloc,
            text,
            plan,
            rule,
            messages,
            &none,
            number,
            place as u32,
            *kind,
        )?;
    }
    Ok(())
}
