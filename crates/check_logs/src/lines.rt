//! Logs with one line changed.
ghost use Rattle.script_types.specs.Typed.{IsTyped};

use crate::answer::Answer;
use crate::table::{Line, Log, Other};
use crate::tally::Tally;
use join_base::{Bytes, NoMemory};
use script_types::Plan;
use std::alloc::Global;

/// What becomes of a line.
#[derive(Clone, Copy)]
pub enum Change {
    Dropped,
    /// It stands twice.
    Doubled,
    /// It stands behind the next one.
    Exchanged,
}

// The name of a change, and what comes of it.
fn change_at(change: Change, line: &Line) -> (&'static str, Answer) {
    match change {
        Change::Dropped => ("dropped", line.dropped),
        Change::Doubled => ("doubled", line.doubled),
        Change::Exchanged => ("exchanged", line.exchanged),
    }
}

// Appends a line, ended by LF.
fn push_line(text: &mut Bytes, line: &str) -> Result<(), NoMemory> {
    text.push_all(line.as_bytes())?;
    text.push_all(b"\n")
}

// Appends the lines.
fn push_lines(text: &mut Bytes, lines: &[Line]) -> Result<(), NoMemory> {
    for line in lines {
        push_line(text, line.text)?;
    }
    Ok(())
}

// The lines of three lists, one behind the other.
fn joined(
    alloc: Global,
    first: &[Line],
    second: &[Line],
    third: &[Line],
) -> Result<Bytes, NoMemory> {
    let mut text = Bytes::new(alloc);
    push_lines(&mut text, first)?;
    push_lines(&mut text, second)?;
    push_lines(&mut text, third)?;
    Ok(text)
}

// The lines with the one at a place changed. The last one has none to be exchanged with.
fn changed(alloc: Global, lines: &[Line], place: usize, change: Change) -> Result<Bytes, NoMemory> {
    let (front, rest) = lines.split_at(place.min(lines.len()));
    match (change, rest) {
        (Change::Dropped, [_, behind @ ..]) => joined(alloc, front, behind, &[]),
        (Change::Doubled, [line, ..]) => joined(alloc, front, &[*line], rest),
        (Change::Exchanged, [line, next, behind @ ..]) => {
            joined(alloc, front, &[*next, *line], behind)
        }
        _ => joined(alloc, lines, &[], &[]),
    }
}

// The text of the line of this number, or the one in its place.
fn text_at(number: usize, line: &Line, others: &[Other]) -> &'static str {
    for (place, other) in others {
        if *place == number {
            return *other;
        }
    }
    line.text
}

// Appends the lines, with others in place of those of some numbers.
fn push_others(text: &mut Bytes, lines: &[Line], others: &[Other]) -> Result<(), NoMemory> {
    for (place, line) in lines.iter().enumerate() {
        push_line(text, text_at(place + 1, line, others))?;
    }
    Ok(())
}

/// The lines, each ended by LF, with others in place of those of some numbers.
pub fn with_others(alloc: Global, lines: &[Line], others: &[Other]) -> Result<Bytes, NoMemory> {
    let mut text = Bytes::new(alloc);
    push_others(&mut text, lines, others)?;
    Ok(text)
}

// A line changed.
fn changed_line(
    alloc: Global,
    plan: &Plan,
    log: &Log,
    place: usize,
    change: Change,
    tally: &mut Tally,
) -> Result<(), NoMemory>
    requires typed { IsTyped plan.now }
{
    let Some(line) = log.lines.get(place) else {
        return Ok(());
    };
    let (name, wanted) = change_at(change, line);
    let text = changed(alloc, log.lines, place, change)?;
    let number = (place as u64).saturating_add(1);
    tally.count(alloc, plan, text.bytes(), number, name, wanted)
}

/// Each line changed in this way. The last line is exchanged with none.
pub fn changed_lines(
    alloc: Global,
    plan: &Plan,
    log: &Log,
    change: Change,
    tally: &mut Tally,
) -> Result<(), NoMemory>
    requires typed { IsTyped plan.now }
{
    let count = match change {
        Change::Exchanged => log.lines.len().saturating_sub(1),
        _ => log.lines.len(),
    };
    for place in 0..count {
        changed_line(alloc, plan, log, place, change, tally)?;
    }
    Ok(())
}

/// The lines that the table puts in place of others.
pub fn replaced_lines(
    alloc: Global,
    plan: &Plan,
    log: &Log,
    tally: &mut Tally,
) -> Result<(), NoMemory>
    requires typed { IsTyped plan.now }
{
    for (number, other, wanted) in log.replaced {
        let text = with_others(alloc, log.lines, &[(*number, *other)])?;
        tally.count(
            alloc,
            plan,
            text.bytes(),
            *number as u64,
            "replaced",
            *wanted,
        )?;
    }
    Ok(())
}
