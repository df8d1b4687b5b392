//! What a person is told.
use crate::field::push_row_cause;
use crate::part::{Part, name_part, note_of, push_parts};
use crate::place::{line_around, line_start, place_of};
use crate::refusal::{Refused, read_refusal};
use crate::row::{Row, row_at};
use crate::sentence::{PROGRAM, feed_sentence, log_sentence, post_sentence};
use crate::shown::{end_of, front_of};
use join_base::{Bytes, NoMemory};
use script_hints::{Hint, hint_of, plain_sentence, script_of};
use std::alloc::Global;

// The most bytes that are shown of a row or a line, and of what a line has in front of a place.
const MAX_SHOWN: usize = 200;

const MAX_FRONT: usize = 120;

// What is told of a part of a file: the part, the cause, and a sentence.
fn part_note<'a>(
    alloc: Global,
    part: &[Part<'_>],
    cause: &'a [u8],
    sentence: &'a [u8],
) -> Result<Bytes, NoMemory> {
    let mut out = note_of(alloc, part)?;
    let reason = [
        Part::Text(b": "),
        Part::Text(cause),
        Part::Text(b": "),
        Part::Shown(sentence),
        Part::Text(b"\n"),
    ];
    push_parts(&mut out, &reason)?;
    Ok(out)
}

// The same with a row or a line below, and what is told behind that.
fn shown_note<'a>(
    alloc: Global,
    part: &[Part<'_>],
    cause: &'a [u8],
    sentence: &'a [u8],
    line: &[u8],
    behind: &[Part<'_>],
) -> Result<Bytes, NoMemory> {
    let mut out = part_note(alloc, part, cause, sentence)?;
    let shown = [
        Part::Text(b"    "),
        Part::Shown(front_of(line, MAX_SHOWN)),
        Part::Text(b"\n"),
    ];
    push_parts(&mut out, &shown)?;
    push_parts(&mut out, behind)?;
    Ok(out)
}

// Appends the line of a place, with a mark below that.
fn push_marked(out: &mut Bytes, text: &[u8], place: usize) -> Result<(), NoMemory> {
    let (front, back) = line_around(text, place);
    let front = end_of(front, MAX_FRONT);
    let marked = [
        Part::Text(b"    "),
        Part::Shown(front),
        Part::Shown(front_of(back, MAX_SHOWN - MAX_FRONT)),
        Part::Text(b"\n"),
        Part::Mark(front),
    ];
    push_parts(out, &marked)
}

// What is told of a script: file, line, column, cause, and the line with a mark.
fn hint_note(
    alloc: Global,
    name: &str,
    text: &[u8],
    cause: &[u8],
    hint: &Hint,
) -> Result<Bytes, NoMemory> {
    let found = place_of(text, hint.place);
    let part = [
        name_part(name),
        Part::Text(b":"),
        Part::Number(found.line as i128),
        Part::Text(b":"),
        Part::Number(found.column as i128),
    ];
    let mut out = part_note(alloc, &part, cause, hint.sentence.bytes())?;
    push_marked(&mut out, text, hint.place)?;
    Ok(out)
}

// What is told of a script with a fault at this place.
fn script_note(
    alloc: Global,
    name: &str,
    text: &[u8],
    place: u64,
    cause: &[u8],
) -> Result<Bytes, NoMemory> {
    let at = place.min(text.len() as u64) as usize;
    let hint = hint_of(alloc, text, at, cause)?;
    hint_note(alloc, name, text, cause, &hint)
}

// Appends why a row is refused, by the script.
fn push_cause_by(
    alloc: Global,
    out: &mut Bytes,
    text: &[u8],
    row: &Row<'_>,
    cause: &[u8],
) -> Result<(), NoMemory> {
    let script = script_of(alloc, text)?;
    push_row_cause(out, &script, &row.fields, cause)
}

// Why a row is refused, by the script where that is at hand.
fn row_reason(
    alloc: Global,
    script: Option<&[u8]>,
    row: &Row<'_>,
    cause: &[u8],
) -> Result<Bytes, NoMemory> {
    match script {
        None => note_of(alloc, &[Part::Text(feed_sentence(cause))]),
        Some(text) => {
            let mut sentence = Bytes::new(alloc);
            push_cause_by(alloc, &mut sentence, text, row, cause)?;
            Ok(sentence)
        }
    }
}

// What is told of a row: file, line, row, cause, and the row.
fn row_note(
    alloc: Global,
    name: &str,
    line: usize,
    number: u64,
    cause: &[u8],
    sentence: &[u8],
    row: &[u8],
) -> Result<Bytes, NoMemory> {
    let part = [
        name_part(name),
        Part::Text(b":"),
        Part::Number(line as i128),
        Part::Text(b": row "),
        Part::Number(i128::from(number)),
    ];
    shown_note(alloc, &part, cause, sentence, row, &[])
}

// What is told of a feed with a row in fault.
fn feed_note(
    alloc: Global,
    name: &str,
    text: &[u8],
    script: Option<&[u8]>,
    number: u64,
    cause: &[u8],
) -> Result<Bytes, NoMemory> {
    let row = row_at(alloc, text, number)?;
    let sentence = row_reason(alloc, script, &row, cause)?;
    let line = place_of(text, row.place).line;
    row_note(
        alloc,
        name,
        line,
        number,
        cause,
        sentence.bytes(),
        row.bytes,
    )
}

// What is told of a part of a file that can't be shown: file, part, cause and sentence.
fn blind_note<'a>(
    alloc: Global,
    name: &'a str,
    part: &'a [u8],
    number: u64,
    cause: &[u8],
    sentence: &[u8],
) -> Result<Bytes, NoMemory> {
    let part = [
        name_part(name),
        Part::Text(part),
        Part::Number(i128::from(number)),
    ];
    part_note(alloc, &part, cause, sentence)
}

// What is told of a line of a log: file, line, cause and sentence, the line, and what is told behind it.
fn line_note(
    alloc: Global,
    name: &str,
    number: u64,
    cause: &[u8],
    sentence: &[u8],
    line: &[u8],
    behind: &[Part<'_>],
) -> Result<Bytes, NoMemory> {
    let part = [
        name_part(name),
        Part::Text(b":"),
        Part::Number(i128::from(number)),
    ];
    shown_note(alloc, &part, cause, sentence, line, behind)
}

// What is told of a line of a log that begins at this place, and of the line that should stand there, where that is
// known.
fn expected_note(
    alloc: Global,
    name: &str,
    text: &[u8],
    start: usize,
    line: u64,
    cause: &[u8],
    expected: Option<&[u8]>,
) -> Result<Bytes, NoMemory> {
    let (_, back) = line_around(text, start);
    let is_ended = back.len() < text.len().saturating_sub(start);
    let sentence = log_sentence(cause, back, line, is_ended);
    match expected {
        None => line_note(alloc, name, line, cause, sentence, back, &[]),
        Some(wanted) if wanted == back => {
            line_note(alloc, name, line, cause, post_sentence(back), back, &[])
        }
        Some(wanted) => {
            let behind = [
                Part::Text(b"  here should stand:\n    "),
                Part::Shown(front_of(wanted, MAX_SHOWN)),
                Part::Text(b"\n"),
            ];
            line_note(alloc, name, line, cause, sentence, back, &behind)
        }
    }
}

// What is told of a log with a line in fault, where the log has it.
fn log_note(
    alloc: Global,
    name: &str,
    text: &[u8],
    line: u64,
    cause: &[u8],
    expected: Option<&[u8]>,
) -> Result<Bytes, NoMemory> {
    match line_start(text, line) {
        Some(start) if start < text.len() => {
            expected_note(alloc, name, text, start, line, cause, expected)
        }
        _ => blind_note(alloc, name, b":", line, cause, b"the log ends too early"),
    }
}

/// What is told of the file that a written line refuses, by its name and its bytes. Nothing where the line refuses
/// neither a script nor a feed nor a log.
pub fn refusal_note(
    alloc: Global,
    name: &str,
    text: &[u8],
    line: &[u8],
) -> Result<Bytes, NoMemory> {
    match read_refusal(line) {
        Some(Refused::Script { place, cause }) => script_note(alloc, name, text, place, cause),
        Some(Refused::Feed { row, cause }) => feed_note(alloc, name, text, None, row, cause),
        Some(Refused::Log { line, cause }) => log_note(alloc, name, text, line, cause, None),
        None => Ok(Bytes::new(alloc)),
    }
}

/// The same, where the script is at hand, by which a row of a feed is told in full.
pub fn refusal_note_by(
    alloc: Global,
    name: &str,
    text: &[u8],
    script: &[u8],
    line: &[u8],
) -> Result<Bytes, NoMemory> {
    match read_refusal(line) {
        Some(Refused::Feed { row, cause }) => {
            feed_note(alloc, name, text, Some(script), row, cause)
        }
        _ => refusal_note(alloc, name, text, line),
    }
}

/// The same of a log, with the line that should stand in place of one that differs, where that is known.
pub fn differing_note(
    alloc: Global,
    name: &str,
    text: &[u8],
    expected: Option<&[u8]>,
    line: &[u8],
) -> Result<Bytes, NoMemory> {
    match read_refusal(line) {
        Some(Refused::Log { line, cause }) => log_note(alloc, name, text, line, cause, expected),
        _ => refusal_note(alloc, name, text, line),
    }
}

/// The same of a file that can't be read a second time, as a pipe: where the fault is, and why.
pub fn unseen_note(alloc: Global, name: &str, line: &[u8]) -> Result<Bytes, NoMemory> {
    match read_refusal(line) {
        Some(Refused::Script { place, cause }) => {
            blind_note(alloc, name, b": byte ", place, cause, plain_sentence(cause))
        }
        Some(Refused::Feed { row, cause }) => {
            blind_note(alloc, name, b": row ", row, cause, feed_sentence(cause))
        }
        Some(Refused::Log { line, cause }) => {
            blind_note(
                alloc,
                name,
                b":",
                line,
                cause,
                log_sentence(cause, &[], 0, true),
            )
        }
        None => Ok(Bytes::new(alloc)),
    }
}

/// What is told of a file that could not be read, with the words of the system.
pub fn read_note<'a>(alloc: Global, name: &'a str, why: &'a str) -> Result<Bytes, NoMemory> {
    note_of(
        alloc,
        &[
            Part::Text(PROGRAM),
            name_part(name),
            Part::Text(b": "),
            Part::Text(why.as_bytes()),
            Part::Text(b"\n"),
        ],
    )
}

/// What is told of a file that has more bytes than are read.
pub fn long_note(alloc: Global, name: &str, max: u64) -> Result<Bytes, NoMemory> {
    note_of(
        alloc,
        &[
            Part::Text(PROGRAM),
            name_part(name),
            Part::Text(b": more than "),
            Part::Number(i128::from(max)),
            Part::Text(b" bytes\n"),
        ],
    )
}

/// What is told of output that could not be written, with the words of the system.
pub fn write_note(alloc: Global, why: &str) -> Result<Bytes, NoMemory> {
    read_note(alloc, "the output could not be written", why)
}
