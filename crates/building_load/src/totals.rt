//! What a run came to.
ghost use Rattle.std.specs.Prelude.{◌≡◌, ◌++◌, length, OnOk, OnErr};
ghost use Rattle.std.specs.Fmt.{decimal};
ghost use Rattle.building_load.specs.Summary.{actor_line, actor_lines, counts_text, firing_count, late_total, summary_text};

use fair_semantics::{ActorRun, Entry, Run};
use join_base::{Bytes, NoMemory, Source};
use script_types::{ActorPlan, Plan};
use std::alloc::Global;

// The words before a number, and the number. Without memory the words may stay.
fn write_labelled(
    alloc: Global,
    text: &mut Bytes,
    label: &[u8],
    number: u128,
) -> Result<(), NoMemory>
    ensures { OnOk result (text.new ≡ text.old ++ (label.now ++ decimal number)) }
{
    text.push_all(label)?;
    let digits = number.to_string(alloc)?;
    text.push_all(digits.as_bytes())
}

// How many of the arrivals fired.
fn firing_count(entries: &[Entry]) -> usize
    ensures { result ≡ firing_count entries.now }
{
    let mut count = 0;
    for entry in entries {
        if entry.firing.get().is_some() {
            count += 1;
        }
    }
    count
}

// How many messages were late.
fn late_total(late: &[(Source, u64)]) -> u128
    ensures { result ≡ late_total late.now }
{
    let mut total: u128 = 0;
    for (_, count) in late {
        total += u128::from(*count);
    }
    total
}

// The counts of an actor. Without memory a part of them may stay.
fn write_counts(alloc: Global, text: &mut Bytes, run: &ActorRun) -> Result<(), NoMemory>
    ensures { OnOk result (text.new ≡ text.old ++ counts_text run.now) }
{
    let entries = run.entries.as_slice();
    let firings = firing_count(entries);
    let late = late_total(run.late.as_slice());
    write_labelled(alloc, text, b" arrivals ", entries.len() as u128)?;
    write_labelled(alloc, text, b" firings ", firings as u128)?;
    write_labelled(alloc, text, b" late ", late)?;
    write_labelled(alloc, text, b" left ", run.left.len() as u128)?;
    write_labelled(alloc, text, b" partials ", u128::from(run.partials))
}

// The line of an actor. Without memory a part of it may stay.
fn write_actor(
    alloc: Global,
    text: &mut Bytes,
    actor: &ActorPlan,
    run: &ActorRun,
) -> Result<(), NoMemory>
    ensures { OnOk result (text.new ≡ text.old ++ actor_line actor.now run.now) }
{
    text.push_all(b"actor ")?;
    text.push_all(actor.name.bytes())?;
    write_counts(alloc, text, run)?;
    text.push_all(b"\n")
}

// The lines of the actors. Without memory some may stay.
fn write_actors(
    alloc: Global,
    text: &mut Bytes,
    plan: &Plan,
    runs: &[ActorRun],
) -> Result<(), NoMemory>
    requires { length runs.now ≡ length plan.now.actors }
    ensures { OnOk result (text.new ≡ text.old ++ actor_lines plan.now.actors runs.now) }
{
    for (place, run) in runs.iter().enumerate() {
        write_actor(alloc, text, plan.actors.at(place), run)?;
    }
    Ok(())
}

// The summary. Without memory a part of it may stay.
fn write_summary(
    alloc: Global,
    text: &mut Bytes,
    rows: u32,
    plan: &Plan,
    run: &Run,
) -> Result<(), NoMemory>
    requires actors { length run.now.actors ≡ length plan.now.actors }
    ensures { OnOk result (text.new ≡ text.old ++ summary_text rows plan.now run.now) }
{
    write_labelled(alloc, text, b"load ", u128::from(rows))?;
    write_labelled(alloc, text, b" feeds ", u128::from(run.feeds))?;
    text.push_all(b"\n")?;
    write_actors(alloc, text, plan, run.actors.as_slice())
}

/// Appends the summary of a run over feeds of so many rows: `load N feeds F`, and for each actor the line `actor NAME
/// arrivals N firings N late N left N partials N`, with the number of its arrivals, of those that fired, of the
/// messages that were late, of those that are left, and of its partial matches. After `NoMemory` nothing was appended.
pub fn summary(
    alloc: Global,
    rows: u32,
    plan: &Plan,
    run: &Run,
    out: &mut Bytes,
) -> Result<(), NoMemory>
    requires actors { length run.now.actors ≡ length plan.now.actors }
    ensures ok { OnOk result (out.new ≡ out.old ++ summary_text rows plan.now run.now) }
    ensures err { OnErr result (out.new ≡ out.old) }
{
    let mut text = Bytes::new(alloc);
    write_summary(alloc, &mut text, rows, plan, run)?;
    out.push_all(text.bytes())
}
