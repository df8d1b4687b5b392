//! The text of the reactions of a run. Each function that writes appends what its name says. Without memory some of it
//! may be appended.
ghost use Rattle.std.specs.Prelude.{◌≡◌, ◌++◌, slice_get, IfOk, OnOk};
ghost use Rattle.std.specs.List.{flat_map};
ghost use Rattle.script_types.specs.Typed.{IsTyped};
ghost use Rattle.fair_semantics.specs.Fits.{RunFits};
ghost use Rattle.reaction_text.specs.ReactionText.{IsReactionsText, fired_by, fired_lines, more_line, reaction_text, row_line, row_text, unfired};

use arrival_log::write_entry;
use fair_semantics::{Entry, Fired, LogVersion, Run};
use feed_causes::{Arrival, Reaction, arrivals_of, reactions};
use itoa::Buffer;
use join_base::{Bytes, NoMemory};
use script_types::{Plan, write_actor_name};
use std::alloc::Global;

// The lines of an entry of an actor, behind its name.
fn write_lines(
    text: &mut Bytes,
    plan: &Plan,
    version: LogVersion,
    actor: u32,
    entry: &Entry,
) -> Result<(), NoMemory>
    ensures { OnOk result (text.new ≡ text.old ++ fired_lines plan.now version (actor, entry.now)) }
{
    write_actor_name(text, plan, actor)?;
    text.push_all(b" ")?;
    write_entry(text, plan, version, entry, entry.stamp)?;
    Ok(())
}

// The lines of the arrival at a place, if there is one.
fn write_fired(
    text: &mut Bytes,
    plan: &Plan,
    version: LogVersion,
    all: &[Arrival],
    place: usize,
) -> Result<(), NoMemory>
    ensures { OnOk result (text.new ≡ text.old ++ fired_by plan.now version (slice_get all.now place)) }
{
    match all.get(place) {
        Some(arrival) => write_lines(text, plan, version, arrival.actor(), arrival.entry()),
        None => Ok(()),
    }
}

// An entry without what it fired.
fn unfired(alloc: Global, entry: &Entry) -> Result<Entry, NoMemory>
    ensures { IfOk result (λ copy. copy ≡ unfired entry.now) }
{
    let message = entry.message.copy(alloc)?;
    Ok(Entry {
        number: entry.number,
        source: entry.source,
        message,
        stamp: entry.stamp,
        firing: Fired::none(),
    })
}

fn write_row(
    alloc: Global,
    text: &mut Bytes,
    plan: &Plan,
    version: LogVersion,
    arrival: &Arrival,
) -> Result<(), NoMemory>
    ensures { OnOk result (text.new ≡ text.old ++ row_line plan.now version arrival.now) }
{
    let entry = unfired(alloc, arrival.entry())?;
    text.push_all(b"row ")?;
    write_lines(text, plan, version, arrival.actor(), &entry)?;
    Ok(())
}

// The line of the row at a place, if there is one.
fn write_row_at(
    alloc: Global,
    text: &mut Bytes,
    plan: &Plan,
    version: LogVersion,
    all: &[Arrival],
    place: usize,
) -> Result<(), NoMemory>
    ensures { OnOk result (text.new ≡ text.old ++ row_text plan.now version all.now place) }
{
    match all.get(place) {
        Some(arrival) => write_row(alloc, text, plan, version, arrival),
        None => Ok(()),
    }
}

fn write_rows(
    alloc: Global,
    text: &mut Bytes,
    plan: &Plan,
    version: LogVersion,
    all: &[Arrival],
    places: &[usize],
) -> Result<(), NoMemory>
    ensures { OnOk result (text.new ≡ text.old ++ flat_map (row_text plan.now version all.now) places.now) }
{
    for place in places {
        write_row_at(alloc, text, plan, version, all, *place)?;
    }
    Ok(())
}

fn write_more(text: &mut Bytes, more: usize) -> Result<(), NoMemory>
    ensures { OnOk result (text.new ≡ text.old ++ more_line more) }
{
    if more == 0 {
        return Ok(());
    }
    let mut buffer = Buffer::new();
    text.push_all(b"more rows ")?;
    text.push_all(buffer.format(more as u64).as_bytes())?;
    text.push_all(b"\n")
}

fn write_reaction(
    alloc: Global,
    text: &mut Bytes,
    plan: &Plan,
    version: LogVersion,
    all: &[Arrival],
    reaction: &Reaction,
) -> Result<(), NoMemory>
    ensures { OnOk result (text.new ≡ text.old ++ reaction_text plan.now version all.now reaction.now) }
{
    write_fired(text, plan, version, all, reaction.place)?;
    write_rows(alloc, text, plan, version, all, reaction.first.as_slice())?;
    write_more(text, reaction.more)?;
    Ok(())
}

fn reactions_text(
    alloc: Global,
    plan: &Plan,
    version: LogVersion,
    all: &[Arrival],
    reactions: &[Reaction],
) -> Result<Bytes, NoMemory>
    ensures { IfOk result (λ text. text ≡ flat_map (reaction_text plan.now version all.now) reactions.now) }
{
    let mut text = Bytes::new(alloc);
    for reaction in reactions {
        write_reaction(alloc, &mut text, plan, version, all, reaction)?;
    }
    Ok(text)
}

/// The text of the reactions of a run that fits a well typed plan: of those of one actor, counted from 0, or of all. In
/// the order of the log each is what an arrival's firing printed, posted and replied, where it printed or posted
/// something, with the rows of feeds that led to it.
pub fn print_reactions(
    alloc: Global,
    plan: &Plan,
    run: &Run,
    only: Option<u32>,
) -> Result<Bytes, NoMemory>
    requires typed { IsTyped plan.now }
    requires fits { RunFits plan.now run.now }
    ensures text { IfOk result (IsReactionsText plan.now run.now only) }
{
    let arrivals = arrivals_of(alloc, run)?;
    let all = arrivals.as_slice();
    let found = reactions(alloc, all, only)?;
    let shown = found.as_slice();
    let text = reactions_text(alloc, plan, run.version, all, shown)?;
    Ok(text)
}
