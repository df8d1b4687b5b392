//! The parts of a line. Each function appends one part. Without memory what stood before stays, and some of the part
//! may stay appended.
ghost use Rattle.std.specs.Prelude.{◌≡◌, ◌++◌, ◌∷◌, [], map, OnOk, OnErr, length, take};
ghost use Rattle.std.specs.Fmt.{decimal};
ghost use Rattle.join_base.specs.Fields.{value_seen};
ghost use Rattle.arrival_log.specs.Commas.{comma_before};
ghost use Rattle.arrival_log.specs.LogText.{comma_joined, left_text, ending_text, message_text, source_text, value_text};
ghost use Rattle.script_types.specs.Names.{name_of_actor, name_of_kind};

use fair_semantics::Ending;
use itoa::Buffer;
use join_base::{Bytes, Fields, Message, NoMemory, Source, ValueRef, write_quoted};
use script_types::{Plan, write_actor_name, write_kind_name};

pub(crate) fn write_count(text: &mut Bytes, count: u64) -> Result<(), NoMemory>
    ensures ok { OnOk result (text.new ≡ text.old ++ decimal count) }
    ensures err { OnErr result (text.new ≡ text.old) }
{
    let mut buffer = Buffer::new();
    text.push_all(buffer.format(count).as_bytes())
}

// The words before a number, and the number.
pub(crate) fn write_labelled(text: &mut Bytes, label: &[u8], number: u64) -> Result<(), NoMemory>
    ensures ok { OnOk result (text.new ≡ text.old ++ (label.now ++ decimal number)) }
    ensures err { OnErr result (take (length text.old) text.new ≡ text.old) }
{
    text.push_all(label)?;
    write_count(text, number)
}

// `feed K` or `actor NAME`.
pub(crate) fn write_source(text: &mut Bytes, plan: &Plan, source: Source) -> Result<(), NoMemory>
    ensures ok { OnOk result (text.new ≡ text.old ++ source_text plan.now source) }
    ensures err { OnErr result (take (length text.old) text.new ≡ text.old) }
{
    match source {
        Source::Feed(feed) => {
            text.push_all(b"feed ")?;
            write_count(text, u64::from(feed))
        }
        Source::Actor(actor) => {
            text.push_all(b"actor ")?;
            write_actor_name(text, plan, actor)
        }
    }
}

// The comma before the item at a place, which the first lacks.
fn write_comma(text: &mut Bytes, place: usize) -> Result<(), NoMemory>
    ensures ok { OnOk result (text.new ≡ text.old ++ comma_before place) }
    ensures err { OnErr result (text.new ≡ text.old) }
{
    if place > 0 {
        text.push_all(b",")
    } else {
        Ok(())
    }
}

/// Appends a value as a log has it: an integer in decimal, or a text in quotes. Without memory nothing is appended.
pub fn write_value(text: &mut Bytes, value: ValueRef<'_>) -> Result<(), NoMemory>
    ensures ok { OnOk result (text.new ≡ text.old ++ value_text (value_seen value.entry)) }
    ensures err { OnErr result (text.new ≡ text.old) }
{
    match value {
        ValueRef::Int(number) => {
            let mut buffer = Buffer::new();
            text.push_all(buffer.format(number).as_bytes())
        }
        ValueRef::Words(words) => write_quoted(text, words.bytes()),
    }
}

fn write_values(text: &mut Bytes, values: &Fields) -> Result<(), NoMemory>
    ensures ok { OnOk result (text.new ≡ text.old ++ comma_joined (map value_text values.now)) }
    ensures err { OnErr result (take (length text.old) text.new ≡ text.old) }
{
    for place in 0..values.len() {
        write_comma(text, place)?;
        write_value(text, values.at(place))?;
    }
    Ok(())
}

/// Appends a message as a log has it: `KIND(VALUES)`. Without memory a part of it may be appended.
pub fn write_message(text: &mut Bytes, plan: &Plan, message: &Message) -> Result<(), NoMemory>
    ensures ok { OnOk result (text.new ≡ text.old ++ message_text plan.now message.now) }
    ensures err { OnErr result (take (length text.old) text.new ≡ text.old) }
{
    write_kind_name(text, plan, message.kind)?;
    text.push_all(b"(")?;
    write_values(text, &message.fields)?;
    text.push_all(b")")
}

// The same, and LF.
pub(crate) fn write_message_end(
    text: &mut Bytes,
    plan: &Plan,
    message: &Message,
) -> Result<(), NoMemory>
    ensures ok { OnOk result (text.new ≡ text.old ++ (message_text plan.now message.now ++ 10 ∷ [])) }
    ensures err { OnErr result (take (length text.old) text.new ≡ text.old) }
{
    write_message(text, plan, message)?;
    text.push_all(b"\n")
}

fn write_numbers(text: &mut Bytes, numbers: &[u32]) -> Result<(), NoMemory>
    ensures ok { OnOk result (text.new ≡ text.old ++ comma_joined (map (λ n. decimal n) numbers.now)) }
    ensures err { OnErr result (take (length text.old) text.new ≡ text.old) }
{
    for (place, number) in numbers.iter().enumerate() {
        write_comma(text, place)?;
        write_count(text, u64::from(*number))?;
    }
    Ok(())
}

// The numbers, or `-` where there is none.
pub(crate) fn write_left(text: &mut Bytes, left: &[u32]) -> Result<(), NoMemory>
    ensures ok { OnOk result (text.new ≡ text.old ++ left_text left.now) }
    ensures err { OnErr result (take (length text.old) text.new ≡ text.old) }
{
    if left.is_empty() {
        text.push_all(b"-")
    } else {
        write_numbers(text, left)
    }
}

pub(crate) fn write_ending(text: &mut Bytes, ending: Ending) -> Result<(), NoMemory>
    ensures ok { OnOk result (text.new ≡ text.old ++ ending_text ending) }
    ensures err { OnErr result (text.new ≡ text.old) }
{
    match ending {
        Ending::Running => text.push_all(b"running"),
        Ending::Stopped => text.push_all(b"stopped"),
        Ending::Jammed => text.push_all(b"jammed"),
        Ending::Spent => text.push_all(b"spent"),
    }
}
