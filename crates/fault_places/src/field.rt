//! Which field of a row is at fault, by the script.
use crate::cause::{RowCause, row_cause};
use crate::part::{Part, push_parts};
use crate::sentence::{feed_sentence, row_sentence};
use csv::ByteRecord;
use join_base::{Bytes, Fields, NoMemory, Sort, read_integer};
use script_hints::Script;

// The most bytes of a text, and of a field that is shown.
const MAX_TEXT: usize = 120;

const MAX_FIELD: usize = 64;

fn field_at(record: &ByteRecord, place: usize) -> &[u8] {
    match record.get(place) {
        Some(field) => field,
        None => &[],
    }
}

// The front of a field, as far as it is shown.
fn front_of(field: &[u8]) -> &[u8] {
    let (front, _) = field.split_at(field.len().min(MAX_FIELD));
    front
}

fn is_text(field: &[u8]) -> bool {
    std::str::from_utf8(field).is_ok()
}

// Whether a field has this fault at a type.
fn is_wrong(cause: RowCause, sort: Sort, field: &[u8]) -> bool {
    match (cause, sort) {
        (RowCause::BadInt, Sort::Int) => read_integer(field).is_none(),
        (RowCause::NotText, Sort::Words) => !is_text(field),
        (RowCause::TooLong, Sort::Words) => is_text(field) && field.len() > MAX_TEXT,
        _ => false,
    }
}

// Whether one of a message's fields, counted from 0, has this fault.
fn is_wrong_at(
    script: &Script<'_>,
    record: &ByteRecord,
    cause: RowCause,
    field: usize,
) -> Result<bool, NoMemory> {
    match script.field_sort(field_at(record, 1), field)? {
        Some(sort) => Ok(is_wrong(cause, sort, field_at(record, field.saturating_add(2)))),
        None => Ok(false),
    }
}

// The first of a message's fields that has this fault, counted from 0.
fn wrong_field(
    script: &Script<'_>,
    record: &ByteRecord,
    cause: RowCause,
) -> Result<Option<usize>, NoMemory> {
    for field in 0..record.len().saturating_sub(2).min(Fields::MAX) {
        if is_wrong_at(script, record, cause, field)? {
            return Ok(Some(field));
        }
    }
    Ok(None)
}

// Appends which field it is, counted from 0 behind the actor and the message.
fn push_field<'a>(
    out: &mut Bytes,
    field: usize,
    name: &'a [u8],
    kind: &'a [u8],
) -> Result<(), NoMemory> {
    push_parts(
        out,
        &[
            Part::Text(b"field "),
            Part::Number(field as i128 + 3),
            Part::Text(b" of the row, "),
            Part::Text(name),
            Part::Text(b" of "),
            Part::Text(kind),
        ],
    )
}

// Appends the type of a field, and what it has instead.
fn push_value(out: &mut Bytes, cause: RowCause, value: &[u8]) -> Result<(), NoMemory> {
    match cause {
        RowCause::BadInt => push_parts(
            out,
            &[
                Part::Text(
                    b", is an int: a whole number of 64 bits, as 7 or -7, without blanks, and not \"",
                ),
                Part::Text(front_of(value)),
                Part::Text(b"\""),
            ],
        ),
        RowCause::TooLong => push_parts(
            out,
            &[
                Part::Text(b", is a text of at most 120 bytes, and here are "),
                Part::Number(value.len() as i128),
            ],
        ),
        _ => out.push_all(b", is a text, and here it is not UTF-8"),
    }
}

fn push_wrong_field(
    out: &mut Bytes,
    script: &Script<'_>,
    record: &ByteRecord,
    cause: RowCause,
    field: usize,
) -> Result<(), NoMemory> {
    let kind = field_at(record, 1);
    let name = script.field_name(kind, field)?.unwrap_or(b"?");
    push_field(out, field, name, kind)?;
    push_value(out, cause, field_at(record, field.saturating_add(2)))
}

// Appends which of the message's fields has this fault.
fn push_bad_value(
    out: &mut Bytes,
    script: &Script<'_>,
    record: &ByteRecord,
    cause: RowCause,
) -> Result<(), NoMemory> {
    match wrong_field(script, record, cause)? {
        Some(field) => push_wrong_field(out, script, record, cause, field),
        None => out.push_all(row_sentence(cause)),
    }
}

// What is counted.
fn counted(count: usize, one: &'static [u8], many: &'static [u8]) -> &'static [u8] {
    if count == 1 { one } else { many }
}

// Appends how many values the row has, and how many fields its message.
fn push_wrong_count(
    out: &mut Bytes,
    script: &Script<'_>,
    record: &ByteRecord,
) -> Result<(), NoMemory> {
    let kind = field_at(record, 1);
    let behind = record.len().saturating_sub(2);
    match script.field_count(kind)? {
        Some(count) => push_parts(
            out,
            &[
                Part::Text(b"message "),
                Part::Text(front_of(kind)),
                Part::Text(b" has "),
                Part::Number(count as i128),
                Part::Text(counted(count, b" field", b" fields")),
                Part::Text(b", and behind its name "),
                Part::Number(behind as i128),
                Part::Text(counted(behind, b" value stands", b" values stand")),
            ],
        ),
        None => out.push_all(
            b"a row has an actor, a message and its values: ACTOR,MESSAGE,VALUE,..",
        ),
    }
}

// Why the first field names no actor.
fn actor_sentence(field: &[u8]) -> &'static [u8] {
    if field.contains(&b';') || field.contains(&b'\t') {
        b"commas stand between the fields of a row, and the first one is no actor's name"
    } else {
        row_sentence(RowCause::UnknownActor)
    }
}

// Appends what a name of the row is not, and the name.
fn push_unknown<'a>(out: &mut Bytes, sentence: &'a [u8], name: &'a [u8]) -> Result<(), NoMemory> {
    push_parts(
        out,
        &[
            Part::Text(sentence),
            Part::Text(b": \""),
            Part::Text(front_of(name)),
            Part::Text(b"\""),
        ],
    )
}

// Appends why a row is refused for a cause.
fn push_known(
    out: &mut Bytes,
    script: &Script<'_>,
    record: &ByteRecord,
    cause: RowCause,
) -> Result<(), NoMemory> {
    match cause {
        RowCause::UnknownActor => {
            let field = field_at(record, 0);
            push_unknown(out, actor_sentence(field), field)
        }
        RowCause::UnknownMessage => push_unknown(out, row_sentence(cause), field_at(record, 1)),
        RowCause::WrongCount => push_wrong_count(out, script, record),
        RowCause::BadInt | RowCause::NotText | RowCause::TooLong => {
            push_bad_value(out, script, record, cause)
        }
    }
}

/// Appends why a row is refused: which field it is, by its script.
pub fn push_row_cause(
    out: &mut Bytes,
    script: &Script<'_>,
    record: &ByteRecord,
    cause: &[u8],
) -> Result<(), NoMemory> {
    match row_cause(cause) {
        Some(cause) => push_known(out, script, record, cause),
        None => out.push_all(feed_sentence(cause)),
    }
}
