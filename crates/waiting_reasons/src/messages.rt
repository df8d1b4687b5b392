//! The messages of an actor, and which of them wait.
ghost use Rattle.std.specs.Prelude.{◌≡◌, ◌&&◌, not, None, Some, IfOk, MatchOption, length};
ghost use Rattle.std.specs.List.{list_any};
ghost use Rattle.join_base.specs.Taken.{contains_number};
ghost use Rattle.guard_eval.specs.Meaning.{recorded_message};
ghost use Rattle.pattern_core.specs.Matches.{holds_number, is_of_kind, usable};
ghost use Rattle.pattern_core.specs.Window.{is_seen, seen_of};
ghost use Rattle.fair_semantics.specs.Step.{recorded_messages};
ghost use Rattle.waiting_reasons.specs.Text.{takes_kind};

use crate::slots::has_number;
use fair_semantics::Entry;
use join_base::{Items, Message, MessageList, NoMemory, Slots};
use pattern_core::Definition;
use script_types::Rule;
use std::alloc::Global;

/// A copy of the messages of these arrivals.
pub fn copy_messages(alloc: Global, entries: &[Entry]) -> Result<MessageList, NoMemory>
    ensures same { IfOk result (λ l. l ≡ recorded_messages entries.now) }
{
    let mut messages = Items::new(alloc);
    for entry in entries {
        let copied = entry.message.copy(alloc)?;
        messages.push(copied)?;
    }
    Ok(messages)
}

/// The message of an arrival, if it is recorded.
#[tactic(auto, using(crate::proofs::TextLemmas::message_there))]
pub fn find_message(messages: &[Message], number: u32) -> Option<&Message>
    ensures { MatchOption result (recorded_message messages.now number ≡ None) (λ m. recorded_message messages.now
        number ≡ Some m.now) }
{
    if number == 0 {
        return None;
    }
    match messages.get((number - 1) as usize) {
        Some(message) => Some(message),
        None => None,
    }
}

/// Whether an arrival is recorded and its message has the kind.
pub fn is_of_kind(messages: &[Message], number: u32, kind: u32) -> bool
    ensures { result ≡ is_of_kind (recorded_message messages.now number) kind }
{
    match find_message(messages, number) {
        Some(message) => message.kind == kind,
        None => false,
    }
}

/// Whether a definition has a pattern of the message's kind.
pub fn takes_kind(messages: &[Message], number: u32, rule: &Rule) -> bool
    ensures { result ≡ takes_kind messages.now number rule.now }
{
    for kind in rule.definition.patterns.as_slice() {
        if is_of_kind(messages, number, *kind) {
            return true;
        }
    }
    false
}

/// Whether one of the definitions has.
pub fn is_taken(messages: &[Message], number: u32, rules: &[Rule]) -> bool
    ensures { result ≡ list_any (takes_kind messages.now number) rules.now }
{
    for rule in rules {
        if takes_kind(messages, number, rule) {
            return true;
        }
    }
    false
}

pub fn contains_number(numbers: &[u32], number: u32) -> bool
    ensures { result ≡ contains_number numbers.now number }
{
    for other in numbers {
        if number == *other {
            return true;
        }
    }
    false
}

/// Whether a window shows the message where so many are recorded.
pub fn is_seen(window: Option<u32>, recorded: usize, number: u32) -> bool
    ensures { result ≡ is_seen window recorded number }
{
    match window {
        None => true,
        Some(window) => (recorded as u64) < u64::from(number) + u64::from(window),
    }
}

/// The numbers that a definition sees where so many messages are recorded.
pub fn seen_of(
    alloc: Global,
    definition: &Definition,
    recorded: usize,
    left: &[u32],
) -> Result<Items<u32>, NoMemory>
    ensures seen { IfOk result (λ s. s ≡ seen_of definition.now recorded left.now) }
{
    let mut seen = Items::new(alloc);
    for number in left {
        if is_seen(definition.window, recorded, *number) {
            seen.push(*number)?;
        }
    }
    Ok(seen)
}

// Whether the message has the kind, and the assignment, of so many patterns, doesn't have its number.
fn is_usable(messages: &[Message], kind: u32, patterns: u32, slots: &Slots, number: u32) -> bool
    requires { length slots.now ≡ patterns }
    ensures { result ≡ (is_of_kind (recorded_message messages.now number) kind && not (holds_number slots.now number)) }
{
    is_of_kind(messages, number, kind) && !has_number(patterns, slots, number)
}

/// The numbers of the kind that the assignment, of so many patterns, doesn't have.
pub fn usable(
    alloc: Global,
    messages: &[Message],
    left: &[u32],
    kind: u32,
    patterns: u32,
    slots: &Slots,
) -> Result<Items<u32>, NoMemory>
    requires { length slots.now ≡ patterns }
    ensures usable { IfOk result (λ u. u ≡ usable messages.now left.now kind slots.now) }
{
    let mut found = Items::new(alloc);
    for number in left {
        if is_usable(messages, kind, patterns, slots, *number) {
            found.push(*number)?;
        }
    }
    Ok(found)
}
