//! Scripts, and what reading and checking them comes to.
use join_base::{Bytes, NoMemory};
use script_check::read_plan;
use script_grammar::{ScriptCause, ScriptFault};
use std::alloc::Global;

/// The front of most scripts, 28 bytes.
pub const INT: &[u8] = b"message a(x: int) actor m { ";

/// The bytes of the front, then `piece` so many times, then the rest.
pub fn joined(
    alloc: Global,
    front: &[u8],
    piece: &[u8],
    times: usize,
    rest: &[u8],
) -> Result<Bytes, NoMemory> {
    let mut bytes = Bytes::new(alloc);
    bytes.push_all(front)?;
    for _ in 0..times {
        bytes.push_all(piece)?;
    }
    bytes.push_all(rest)?;
    Ok(bytes)
}

/// Whether a script is refused at this place for this cause.
pub fn is_refused(alloc: Global, script: &[u8], place: u64, cause: ScriptCause) -> bool {
    read_plan(alloc, script).err() == Some(ScriptFault::Bad { place, cause })
}

pub fn has_plan(alloc: Global, script: &[u8]) -> bool {
    read_plan(alloc, script).is_ok()
}

/// Whether each rest behind the front has a plan.
pub fn have_plans(alloc: Global, front: &[u8], rests: &[&[u8]]) -> Result<bool, NoMemory> {
    for rest in rests {
        let script = joined(alloc, front, b"", 0, rest)?;
        if !has_plan(alloc, script.bytes()) {
            return Ok(false);
        }
    }
    Ok(true)
}

/// Rests of scripts behind a front, each with the place where it is refused for the cause.
pub type Refused = (&'static [u8], ScriptCause, &'static [(&'static [u8], u64)]);

fn are_refused(alloc: Global, rows: &Refused) -> Result<bool, NoMemory> {
    let (front, cause, rests) = rows;
    for (rest, place) in *rests {
        let script = joined(alloc, front, b"", 0, rest)?;
        if !is_refused(alloc, script.bytes(), *place, *cause) {
            return Ok(false);
        }
    }
    Ok(true)
}

/// Whether the rows of all tables are refused as they say.
pub fn all_are_refused(alloc: Global, tables: &[Refused]) -> Result<bool, NoMemory> {
    for rows in tables {
        if !are_refused(alloc, rows)? {
            return Ok(false);
        }
    }
    Ok(true)
}
