//! What is told, part by part.
use crate::shown::{push_mark, push_shown};
use join_base::{Bytes, NoMemory, write_number};
use std::alloc::Global;

/// A part of what is told.
#[derive(Clone, Copy)]
pub enum Part<'a> {
    /// These bytes as they are.
    Text(&'a [u8]),
    /// These bytes as they are shown.
    Shown(&'a [u8]),
    Number(i128),
    /// A line with a mark, below the place behind what another line has in front.
    Mark(&'a [u8]),
}

fn push_part(out: &mut Bytes, part: &Part<'_>) -> Result<(), NoMemory> {
    match part {
        Part::Text(text) => out.push_all(text),
        Part::Shown(text) => push_shown(out, text),
        Part::Number(number) => write_number(out, *number),
        Part::Mark(front) => push_mark(out, front),
    }
}

/// Appends the parts, one after the other. Without memory some of them may stay.
pub fn push_parts(out: &mut Bytes, parts: &[Part<'_>]) -> Result<(), NoMemory> {
    for part in parts {
        push_part(out, part)?;
    }
    Ok(())
}

/// A note of these parts.
pub fn note_of(alloc: Global, parts: &[Part<'_>]) -> Result<Bytes, NoMemory> {
    let mut out = Bytes::new(alloc);
    push_parts(&mut out, parts)?;
    Ok(out)
}

/// The name of a file. One without a sign would not be seen.
pub fn name_part(name: &str) -> Part<'_> {
    if name.is_empty() {
        Part::Text(b"\"\"")
    } else {
        Part::Shown(name.as_bytes())
    }
}
