//! A run as the text of its log.
ghost use Rattle.std.specs.Prelude.{◌≡◌, ◌++◌, [], length, OnOk, OnErr};
ghost use Rattle.fair_semantics.specs.Fits.{RunFits};
ghost use Rattle.arrival_log.specs.LogText.{log_text, sections};

use crate::lines::{write_actor, write_head};
use fair_semantics::{ActorRun, LogVersion, Run};
use join_base::{Bytes, NoMemory};
use script_types::Plan;
use std::alloc::Global;

// The lines of each actor, in order.
fn write_sections(
    text: &mut Bytes,
    plan: &Plan,
    version: LogVersion,
    runs: &[ActorRun],
) -> Result<(), NoMemory>
    requires { length runs.now ≡ length plan.now.actors }
    ensures { OnOk result (text.new ≡ text.old ++ sections plan.now version plan.now.actors runs.now) }
{
    for (place, run) in runs.iter().enumerate() {
        write_actor(text, plan, version, plan.actors.at(place), run)?;
    }
    Ok(())
}

// The bytes that are asked for at once for each arrival. A log of longer lines grows.
const ARRIVAL_ROOM: usize = 96;

// About as many bytes as a log of these runs has.
fn room_for(runs: &[ActorRun]) -> usize {
    let mut room: usize = 256;
    for run in runs {
        room = room.saturating_add(run.entries.as_slice().len().saturating_mul(ARRIVAL_ROOM));
    }
    room
}

// No bytes, with room for the log of these runs where there is so much memory.
fn text_with_room(alloc: Global, runs: &[ActorRun]) -> Bytes
    ensures empty { result ≡ [] }
{
    match Vec::with_capacity(alloc, room_for(runs)) {
        Ok(room) => Bytes::from_vec(room),
        Err(_) => Bytes::new(alloc),
    }
}

// Appends a text. Bytes that were none take its memory.
fn append(out: &mut Bytes, text: Bytes) -> Result<(), NoMemory>
    ensures ok { OnOk result (out.new ≡ out.old ++ text) }
    ensures err { OnErr result (out.new ≡ out.old) }
{
    if out.bytes().is_empty() {
        *out = text;
        return Ok(());
    }
    out.push_all(text.bytes())
}

/// Appends the log of a run as text: a first line with its limits and its number of feeds, and then for each actor
/// the messages that it recorded, each with what it fired, the counts of late messages, and how the actor ended.
/// In a run of version 2 each message has its stamp too, and a firing may have replies.
/// Each fact is a line of words and numbers. So people can read a run and compare two, and a program can check it.
/// The form is this project's own.
///
/// The run has to be one of the plan. After `NoMemory` nothing was appended.
pub fn print_log(alloc: Global, plan: &Plan, run: &Run, out: &mut Bytes) -> Result<(), NoMemory>
    requires fits { RunFits plan.now run.now }
    ensures ok { OnOk result (out.new ≡ out.old ++ log_text plan.now run.now) }
    ensures err { OnErr result (out.new ≡ out.old) }
{
    let mut text = text_with_room(alloc, run.actors.as_slice());
    write_head(&mut text, run)?;
    write_sections(&mut text, plan, run.version, run.actors.as_slice())?;
    append(out, text)
}
