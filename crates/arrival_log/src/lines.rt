//! The lines of a log. Each function appends what its name says. Without memory what stood before stays, and some of it
//! may stay appended.
ghost use Rattle.std.specs.Prelude.{◌≡◌, ◌≤◌, ◌++◌, drop, OnOk, OnErr, length, take};
ghost use Rattle.std.specs.List.{flat_map};
ghost use Rattle.arrival_log.specs.LogText.{actor_lines, arrival_line, effect_line, end_line, entry_lines, fire_line, firing_lines, head_line, heading_line, last_lines, late_line, stamped};

use crate::parts::{
    write_count, write_ending, write_labelled, write_left, write_message_end, write_source,
    write_value,
};
use crate::room::ROOM;
use crate::whole::{put_arrival, put_effect, put_entry, put_fire, put_front};
use fair_semantics::{ActorRun, Effect, Entry, Fired, Firing, LogVersion, Run};
use join_base::{Bytes, NoMemory, Source, write_quoted};
use script_types::{ActorPlan, Plan, write_actor_name};

/// Appends the first line of the log of a run.
pub fn write_head(text: &mut Bytes, run: &Run) -> Result<(), NoMemory>
    ensures ok { OnOk result (text.new ≡ text.old ++ head_line run.now) }
    ensures err { OnErr result (take (length text.old) text.new ≡ text.old) }
{
    write_labelled(text, b"joinlog ", u64::from(run.version.number()))?;
    write_labelled(text, b" arrivals ", u64::from(run.limits.arrivals))?;
    write_labelled(text, b" partials ", run.limits.partials)?;
    write_labelled(text, b" feeds ", u64::from(run.feeds))?;
    text.push_all(b"\n")
}

// Appends what stands in the room from a place on.
#[inline]
fn push_line(text: &mut Bytes, room: &[u8; ROOM], start: usize) -> Result<(), NoMemory>
    requires within { start ≤ 512 }
    ensures ok { OnOk result (text.new ≡ text.old ++ drop start room.now) }
    ensures err { OnErr result (text.new ≡ text.old) }
{
    text.push_all(&room[start..])
}

// The line of an effect, in one piece where the room takes it.
fn write_effect(
    text: &mut Bytes,
    room: &mut [u8; ROOM],
    plan: &Plan,
    effect: &Effect,
) -> Result<(), NoMemory>
    ensures ok { OnOk result (text.new ≡ text.old ++ effect_line plan.now effect.now) }
    ensures err { OnErr result (take (length text.old) text.new ≡ text.old) }
{
    if let Some(start) = put_effect(room, ROOM, plan, effect) {
        return push_line(text, room, start);
    }
    match effect {
        Effect::Print(printed) => {
            text.push_all(b"print ")?;
            write_quoted(text, printed.bytes())?;
            text.push_all(b"\n")
        }
        Effect::Post { target, message } => {
            text.push_all(b"post ")?;
            write_actor_name(text, plan, *target)?;
            text.push_all(b" ")?;
            write_message_end(text, plan, message)
        }
        Effect::Reply { number, value } => {
            write_labelled(text, b"reply ", u64::from(*number))?;
            text.push_all(b" ")?;
            write_value(text, value.seen())?;
            text.push_all(b"\n")
        }
    }
}

fn write_effects(
    text: &mut Bytes,
    room: &mut [u8; ROOM],
    plan: &Plan,
    effects: &[Effect],
) -> Result<(), NoMemory>
    ensures ok { OnOk result (text.new ≡ text.old ++ flat_map (effect_line plan.now) effects.now) }
    ensures err { OnErr result (take (length text.old) text.new ≡ text.old) }
{
    for effect in effects {
        write_effect(text, room, plan, effect)?;
    }
    Ok(())
}

fn write_fire(text: &mut Bytes, room: &mut [u8; ROOM], firing: &Firing) -> Result<(), NoMemory>
    ensures ok { OnOk result (text.new ≡ text.old ++ fire_line firing.now) }
    ensures err { OnErr result (take (length text.old) text.new ≡ text.old) }
{
    let start = put_fire(room, ROOM, firing);
    push_line(text, room, start)
}

// The line of a firing and those of its effects, or nothing where there is no firing.
fn write_firing(
    text: &mut Bytes,
    room: &mut [u8; ROOM],
    plan: &Plan,
    fired: &Fired,
) -> Result<(), NoMemory>
    ensures ok { OnOk result (text.new ≡ text.old ++ firing_lines plan.now fired.now) }
    ensures err { OnErr result (take (length text.old) text.new ≡ text.old) }
{
    match fired.get() {
        Some(firing) => {
            write_fire(text, room, firing)?;
            write_effects(text, room, plan, firing.effects.as_slice())
        }
        None => Ok(()),
    }
}

// The line of an arrival, with this stamp in place of its own, in one piece where the room takes it.
fn write_arrival(
    text: &mut Bytes,
    room: &mut [u8; ROOM],
    plan: &Plan,
    version: LogVersion,
    entry: &Entry,
    stamp: u64,
) -> Result<(), NoMemory>
    ensures ok { OnOk result (text.new ≡ text.old ++ arrival_line plan.now version (stamped entry.now stamp)) }
    ensures err { OnErr result (take (length text.old) text.new ≡ text.old) }
{
    if let Some(start) = put_arrival(room, ROOM, plan, version, entry, stamp) {
        return push_line(text, room, start);
    }
    let start = put_front(room, ROOM, plan, version, entry, stamp);
    push_line(text, room, start)?;
    write_message_end(text, plan, &entry.message)
}

// The lines of an arrival with this stamp in place of its own, and of what it fired, in one piece where the room takes
// them.
fn write_entry_in(
    text: &mut Bytes,
    room: &mut [u8; ROOM],
    plan: &Plan,
    version: LogVersion,
    entry: &Entry,
    stamp: u64,
) -> Result<(), NoMemory>
    ensures ok { OnOk result (text.new ≡ text.old ++ entry_lines plan.now version (stamped entry.now stamp)) }
    ensures err { OnErr result (take (length text.old) text.new ≡ text.old) }
{
    if let Some(start) = put_entry(room, plan, version, entry, stamp) {
        return push_line(text, room, start);
    }
    write_arrival(text, room, plan, version, entry, stamp)?;
    write_firing(text, room, plan, &entry.firing)
}

/// Appends the lines of an arrival with this stamp in place of its own, and of what it fired.
pub fn write_entry(
    text: &mut Bytes,
    plan: &Plan,
    version: LogVersion,
    entry: &Entry,
    stamp: u64,
) -> Result<(), NoMemory>
    ensures ok { OnOk result (text.new ≡ text.old ++ entry_lines plan.now version (stamped entry.now stamp)) }
    ensures err { OnErr result (take (length text.old) text.new ≡ text.old) }
{
    let mut room = [0; ROOM];
    write_entry_in(text, &mut room, plan, version, entry, stamp)
}

fn write_entries(
    text: &mut Bytes,
    plan: &Plan,
    version: LogVersion,
    entries: &[Entry],
) -> Result<(), NoMemory>
    ensures ok { OnOk result (text.new ≡ text.old ++ flat_map (entry_lines plan.now version) entries.now) }
    ensures err { OnErr result (take (length text.old) text.new ≡ text.old) }
{
    let mut room = [0; ROOM];
    for entry in entries {
        write_entry_in(text, &mut room, plan, version, entry, entry.stamp)?;
    }
    Ok(())
}

fn write_late(text: &mut Bytes, plan: &Plan, source: Source, count: u64) -> Result<(), NoMemory>
    ensures ok { OnOk result (text.new ≡ text.old ++ late_line plan.now (source, count)) }
    ensures err { OnErr result (take (length text.old) text.new ≡ text.old) }
{
    text.push_all(b"late ")?;
    write_source(text, plan, source)?;
    text.push_all(b" ")?;
    write_count(text, count)?;
    text.push_all(b"\n")
}

fn write_lates(text: &mut Bytes, plan: &Plan, late: &[(Source, u64)]) -> Result<(), NoMemory>
    ensures ok { OnOk result (text.new ≡ text.old ++ flat_map (late_line plan.now) late.now) }
    ensures err { OnErr result (take (length text.old) text.new ≡ text.old) }
{
    for (source, count) in late {
        write_late(text, plan, *source, *count)?;
    }
    Ok(())
}

#[tactic(auto, using(crate::proofs::HeadLemmas::kept_behind))]
fn write_end(text: &mut Bytes, run: &ActorRun) -> Result<(), NoMemory>
    ensures ok { OnOk result (text.new ≡ text.old ++ end_line run.now) }
    ensures err { OnErr result (take (length text.old) text.new ≡ text.old) }
{
    text.push_all(b"end ")?;
    write_ending(text, run.ending)?;
    text.push_all(b" left ")?;
    write_left(text, run.left.as_slice())?;
    write_labelled(text, b" partials ", run.partials)?;
    text.push_all(b"\n")
}

/// Appends the first line of an actor's section.
pub fn write_heading(text: &mut Bytes, actor: &ActorPlan) -> Result<(), NoMemory>
    ensures ok { OnOk result (text.new ≡ text.old ++ heading_line actor.now) }
    ensures err { OnErr result (take (length text.old) text.new ≡ text.old) }
{
    text.push_all(b"actor ")?;
    text.push_all(actor.name.bytes())?;
    text.push_all(b"\n")
}

/// Appends the lines of an actor's section behind those of its entries.
pub fn write_last_lines(text: &mut Bytes, plan: &Plan, run: &ActorRun) -> Result<(), NoMemory>
    ensures ok { OnOk result (text.new ≡ text.old ++ last_lines plan.now run.now) }
    ensures err { OnErr result (take (length text.old) text.new ≡ text.old) }
{
    write_lates(text, plan, run.late.as_slice())?;
    write_end(text, run)
}

/// Appends the lines of one actor with its run: those that its section of a log has.
pub fn write_actor(
    text: &mut Bytes,
    plan: &Plan,
    version: LogVersion,
    actor: &ActorPlan,
    run: &ActorRun,
) -> Result<(), NoMemory>
    ensures ok { OnOk result (text.new ≡ text.old ++ actor_lines plan.now version actor.now run.now) }
    ensures err { OnErr result (take (length text.old) text.new ≡ text.old) }
{
    write_heading(text, actor)?;
    write_entries(text, plan, version, run.entries.as_slice())?;
    write_last_lines(text, plan, run)
}
