//! Logs with one byte changed, and cut logs.
ghost use Rattle.script_types.specs.Typed.{IsTyped};

use crate::answer::Answer;
use crate::table::{Line, Log, MarkedByte, Wanted};
use crate::tally::Tally;
use join_base::NoMemory;
use script_types::Plan;
use std::alloc::Global;

// The answer that a mark gives for a change in the line of this number.
fn answer_of(wanted: Wanted, line: u64) -> Answer {
    match wanted {
        Wanted::Accepted(arrivals) => Answer::Accepted(arrivals),
        Wanted::Bad(other) => Answer::Bad(other),
        Wanted::BadNext => Answer::Bad(line.saturating_add(1)),
        Wanted::Differs(other) => Answer::Differs(other),
        Wanted::DiffersHere => Answer::Differs(line),
    }
}

// The answer that is wanted where this byte stands at a place with this mark. Where no row has both, the line is none.
fn wanted(marks: &[MarkedByte], mark: u8, byte: u8, line: u64) -> Answer {
    for (own, bytes, wanted) in marks {
        if *own == mark && bytes.contains(&byte) {
            return answer_of(*wanted, line);
        }
    }
    Answer::Bad(line)
}

// Appends a line ended by LF, and a mark for each byte: none may stand in place of LF.
fn push_marked(text: &mut Vec<u8>, marks: &mut Vec<u8>, line: &Line) -> Result<(), NoMemory> {
    text.extend_from_slice(line.text.as_bytes())?;
    text.push(b'\n')?;
    marks.extend_from_slice(line.marks.as_bytes())?;
    marks.push(b'.')?;
    Ok(())
}

// Appends the lines.
fn push_all_marked(
    text: &mut Vec<u8>,
    marks: &mut Vec<u8>,
    lines: &[Line],
) -> Result<(), NoMemory> {
    for line in lines {
        push_marked(text, marks, line)?;
    }
    Ok(())
}

// The bytes of a log, and their marks.
fn marked(alloc: Global, log: &Log) -> Result<(Vec<u8>, Vec<u8>), NoMemory> {
    let mut text = Vec::new(alloc);
    let mut marks = Vec::new(alloc);
    push_all_marked(&mut text, &mut marks, log.lines)?;
    Ok((text, marks))
}

// Every other byte in place of the one at a place of the text.
fn other_bytes(
    alloc: Global,
    plan: &Plan,
    log: &Log,
    text: &mut [u8],
    place: usize,
    mark: u8,
    line: u64,
    tally: &mut Tally,
) -> Result<(), NoMemory>
    requires typed { IsTyped plan.now }
{
    let Some(own) = text.get(place).copied() else {
        return Ok(());
    };
    for byte in 0..=255u8 {
        if byte != own {
            text[place] = byte;
            let answer = wanted(log.marks, mark, byte, line);
            tally.count(alloc, plan, text, line, "another byte", answer)?;
        }
    }
    text[place] = own;
    Ok(())
}

// Each byte of the text, with its marks, replaced by each other one.
fn each_byte(
    alloc: Global,
    plan: &Plan,
    log: &Log,
    text: &mut [u8],
    marks: &[u8],
    tally: &mut Tally,
) -> Result<(), NoMemory>
    requires typed { IsTyped plan.now }
{
    let mut line: u64 = 1;
    for (place, mark) in marks.iter().enumerate() {
        other_bytes(alloc, plan, log, text, place, *mark, line, tally)?;
        if text.get(place) == Some(&b'\n') {
            line = line.saturating_add(1);
        }
    }
    Ok(())
}

/// Each byte replaced by each other one.
pub fn changed_bytes(
    alloc: Global,
    plan: &Plan,
    log: &Log,
    tally: &mut Tally,
) -> Result<(), NoMemory>
    requires typed { IsTyped plan.now }
{
    let (mut text, marks) = marked(alloc, log)?;
    each_byte(
        alloc,
        plan,
        log,
        text.as_mut_slice(),
        marks.as_slice(),
        tally,
    )
}

// The text cut behind each number of bytes, and whole.
fn each_cut(
    alloc: Global,
    plan: &Plan,
    log: &Log,
    text: &[u8],
    tally: &mut Tally,
) -> Result<(), NoMemory>
    requires typed { IsTyped plan.now }
{
    let mut line: u64 = 1;
    for (place, byte) in text.iter().enumerate() {
        let front = &text[..place];
        tally.count(alloc, plan, front, line, "cut", Answer::Bad(line))?;
        if *byte == b'\n' {
            line = line.saturating_add(1);
        }
    }
    let whole = Answer::Accepted(log.arrivals);
    tally.count(alloc, plan, text, line, "whole", whole)
}

/// The log cut behind each number of bytes: the line in which it is cut is none. Whole it is accepted.
pub fn cut_bytes(alloc: Global, plan: &Plan, log: &Log, tally: &mut Tally) -> Result<(), NoMemory>
    requires typed { IsTyped plan.now }
{
    let (text, _) = marked(alloc, log)?;
    each_cut(alloc, plan, log, text.as_slice(), tally)
}
