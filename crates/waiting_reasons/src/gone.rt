//! What became of a message that doesn't wait.
ghost use Rattle.std.specs.Prelude.{◌≡◌, ◌++◌, None, Some, MatchOption, OnOk};
ghost use Rattle.std.specs.Fmt.{decimal};
ghost use Rattle.waiting_reasons.specs.Gone.{arrival_text, fate_text, has_taken, numbers_taken, rule_text, taker};
ghost use Rattle.waiting_reasons.specs.Text.{gone_line};

use crate::messages::{contains_number, find_message};
use crate::values::write_numbered;
use fair_semantics::Entry;
use join_base::{Bytes, Message, NoMemory, write_number};
use script_types::Plan;

fn numbers_taken(entry: &Entry) -> &[u32]
    ensures { result.now ≡ numbers_taken entry.now.firing }
{
    match entry.firing.get() {
        Some(firing) => firing.taken.as_slice(),
        None => &[],
    }
}

// Whether the firing of an arrival took the number.
fn has_taken(entry: &Entry, number: u32) -> bool
    ensures { result ≡ has_taken number entry.now }
{
    contains_number(numbers_taken(entry), number)
}

// The first of these arrivals whose firing did.
fn taker(entries: &[Entry], number: u32) -> Option<&Entry>
    ensures { MatchOption result (taker number entries.now ≡ None) (λ e. taker number entries.now ≡ Some e.now) }
{
    for entry in entries {
        if has_taken(entry, number) {
            return Some(entry);
        }
    }
    None
}

// ` by rule R`.
fn write_rule(text: &mut Bytes, entry: &Entry) -> Result<(), NoMemory>
    ensures { OnOk result (text.new ≡ text.old ++ rule_text entry.now.firing) }
{
    match entry.firing.get() {
        Some(firing) => {
            text.push_all(b" by rule ")?;
            write_count(text, firing.rule)
        }
        None => Ok(()),
    }
}

fn write_count(text: &mut Bytes, count: u32) -> Result<(), NoMemory>
    ensures { OnOk result (text.new ≡ text.old ++ decimal count) }
{
    write_number(text, i128::from(count))
}

// ` at arrival M`.
fn write_arrival(text: &mut Bytes, number: u32) -> Result<(), NoMemory>
    ensures { OnOk result (text.new ≡ text.old ++ arrival_text number) }
{
    text.push_all(b" at arrival ")?;
    write_count(text, number)
}

// ` was taken by rule R at arrival M`.
fn write_taken(text: &mut Bytes, entry: &Entry) -> Result<(), NoMemory>
    ensures { OnOk result (text.new ≡ text.old ++ fate_text (Some entry.now)) }
{
    text.push_all(b" was taken")?;
    write_rule(text, entry)?;
    write_arrival(text, entry.number)
}

fn write_fate(text: &mut Bytes, entries: &[Entry], number: u32) -> Result<(), NoMemory>
    ensures { OnOk result (text.new ≡ text.old ++ fate_text (taker number entries.now)) }
{
    match taker(entries, number) {
        Some(entry) => write_taken(text, entry),
        None => text.push_all(b" was let go when the actor ended"),
    }
}

/// What became of the message of this number: a firing took it, the actor let it go, or it did not arrive.
pub fn write_gone(
    text: &mut Bytes,
    plan: &Plan,
    entries: &[Entry],
    messages: &[Message],
    number: u32,
) -> Result<(), NoMemory>
    ensures { OnOk result (text.new ≡ text.old ++ gone_line plan.now entries.now messages.now number) }
{
    match find_message(messages, number) {
        Some(_) => {
            write_numbered(text, plan, messages, number)?;
            write_fate(text, entries, number)?;
            text.push_all(b"\n")
        }
        None => {
            write_count(text, number)?;
            text.push_all(b" did not arrive\n")
        }
    }
}
