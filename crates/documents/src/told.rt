//! What a person is told of an example that is refused.

use crate::example::{answer_to, held_by};
use fault_places::refusal_note;
use join_base::NoMemory;
use std::alloc::Global;
use std::rt::Files;
use std::sync::Wait;
use std::thread::Threads;

/// The messages that the documents show: the file that holds what is told, and the script that is refused.
pub const TOLD: &[(&str, &str)] = &[
    ("guide/01.note", "guide/01.join"),
    ("guide/07.note", "guide/07.join"),
];

// The name that the script has in the guide.
const SCRIPT: &str = "home.join";

/// Whether `check` of the script is refused, and a person is told what the file holds.
pub fn is_told<R: Files + Threads + Wait + Sync>(
    rt: &R,
    alloc: Global,
    script: &str,
    file: &str,
) -> Result<bool, NoMemory> {
    let (_, out) = answer_to(rt, alloc, &["check", script])?;
    let (Some(text), Some(wanted)) = (held_by(rt, alloc, script)?, held_by(rt, alloc, file)?) else {
        return Ok(false);
    };
    let note = refusal_note(alloc, SCRIPT, text.bytes(), out.bytes())?;
    Ok(note.bytes() == wanted.bytes())
}
