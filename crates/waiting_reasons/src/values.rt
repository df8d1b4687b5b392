//! Values, messages, and conjuncts that are false. Without memory some of a text may stay appended, here and in the
//! modules above.
ghost use Rattle.std.specs.Prelude.{◌≡◌, ◌++◌, [], OnOk, if◌then◌else◌, length, option_map};
ghost use Rattle.join_base.specs.Fields.{value_seen};
ghost use Rattle.guard_eval.specs.Meaning.{value_at};
ghost use Rattle.guard_eval.specs.Shape.{conjunct_condition};
ghost use Rattle.waiting_reasons.specs.Guards.{has_place};
ghost use Rattle.waiting_reasons.specs.Text.{false_text, numbered_text, value_note, value_notes};

use crate::messages::find_message;
use crate::places::{has_place, places_of};
use crate::slots::number_at;
use arrival_log::{write_message, write_value};
use guard_eval::{Conjunct, Place};
use join_base::{Bytes, Message, NoMemory, Slots, ValueRef, write_number};
use plan_text::{Row, write_conjunct, write_variable};
use script_types::Plan;
use std::alloc::Global;

// ---- messages

/// `N KIND(VALUES)`.
pub fn write_numbered(
    text: &mut Bytes,
    plan: &Plan,
    messages: &[Message],
    number: u32,
) -> Result<(), NoMemory>
    ensures { OnOk result (text.new ≡ text.old ++ numbered_text plan.now messages.now number) }
{
    write_number(text, i128::from(number))?;
    text.push_all(b" ")?;
    match find_message(messages, number) {
        Some(message) => write_message(text, plan, message),
        None => Ok(()),
    }
}

// ---- conjuncts

// The value of a variable, if it has one.
fn value_at<'a>(
    messages: &'a [Message],
    patterns: u32,
    slots: &Slots,
    place: Place,
) -> Option<ValueRef<'a>>
    requires { length slots.now ≡ patterns }
    ensures { option_map value_seen result ≡ value_at messages.now slots.now place }
{
    match number_at(patterns, slots, place.pattern) {
        None => None,
        Some(number) => match find_message(messages, number) {
            None => None,
            Some(message) => message.fields.get(place.field as usize),
        },
    }
}

// `, NAME = VALUE`.
fn write_value_note(
    text: &mut Bytes,
    variables: &[Row],
    messages: &[Message],
    patterns: u32,
    slots: &Slots,
    place: Place,
) -> Result<(), NoMemory>
    requires { length slots.now ≡ patterns }
    ensures { OnOk result (text.new ≡ text.old ++ value_note variables.now messages.now slots.now place) }
{
    text.push_all(b", ")?;
    write_variable(text, variables, place)?;
    text.push_all(b" = ")?;
    match value_at(messages, patterns, slots, place) {
        Some(value) => write_value(text, value),
        None => Ok(()),
    }
}

// That of a place, unless an earlier one is the same.
fn write_new_note(
    text: &mut Bytes,
    variables: &[Row],
    messages: &[Message],
    patterns: u32,
    slots: &Slots,
    earlier: &[Place],
    place: Place,
) -> Result<(), NoMemory>
    requires { length slots.now ≡ patterns }
    ensures { OnOk result (text.new ≡ text.old ++ (if has_place earlier.now place then [] else value_note variables.now
        messages.now slots.now place)) }
{
    if has_place(earlier, place) {
        return Ok(());
    }
    write_value_note(text, variables, messages, patterns, slots, place)
}

fn write_value_notes(
    text: &mut Bytes,
    variables: &[Row],
    messages: &[Message],
    patterns: u32,
    slots: &Slots,
    places: &[Place],
) -> Result<(), NoMemory>
    requires { length slots.now ≡ patterns }
    ensures { OnOk result (text.new ≡ text.old ++ value_notes variables.now messages.now slots.now [] places.now) }
{
    for index in 0..places.len() {
        let (earlier, _) = places.split_at(index);
        let place = places[index];
        write_new_note(text, variables, messages, patterns, slots, earlier, place)?;
    }
    Ok(())
}

/// `CONJUNCT is false`, and the values of its variables at an assignment of so many patterns.
pub fn write_false(
    alloc: Global,
    text: &mut Bytes,
    variables: &[Row],
    messages: &[Message],
    patterns: u32,
    slots: &Slots,
    conjunct: &Conjunct,
) -> Result<(), NoMemory>
    requires { length slots.now ≡ patterns }
    ensures { OnOk result (text.new ≡ text.old ++ false_text variables.now messages.now slots.now (conjunct_condition
        conjunct.now)) }
{
    let places = places_of(alloc, conjunct)?;
    write_conjunct(text, variables, conjunct)?;
    text.push_all(b" is false")?;
    write_value_notes(
        text,
        variables,
        messages,
        patterns,
        slots,
        places.as_slice(),
    )
}
