//! The log of the expected run, piece by piece, and where it parts from bytes.
ghost use Rattle.std.specs.Prelude.{◌≡◌, ◌≤◌, length, slice_get, IfOk, IfSome};
ghost use Rattle.std.specs.List.{flat_map};
ghost use Rattle.arrival_log.specs.LogText.{actor_lines, entry_lines, head_line, log_text};
ghost use Rattle.log_replay.specs.Apart.{IsWithin, behind, lines_before};
ghost use Rattle.log_posts.specs.Stamps.{with_stamps};
ghost use Rattle.log_replay.specs.Shared.{shown, shown_run, shown_stamps, stamp_or};

use crate::apart::{Progress, behind, parted};
use crate::shared::{Shared, plain};
use arrival_log::{write_entry, write_head, write_heading, write_last_lines};
use fair_semantics::{ActorRun, Entry, LogVersion, Run};
use join_base::{Bytes, NoMemory};
use script_types::{ActorPlan, Plan};
use std::alloc::Global;

// The stamp at a place, or the other where there is none.
fn stamp_or(stamps: &[u64], place: usize, other: u64) -> u64
    ensures { result ≡ stamp_or (slice_get stamps.now place) other }
{
    match stamps.get(place) {
        Some(stamp) => *stamp,
        None => other,
    }
}

// The stamps that entries are shown with, as far as these are not their own.
fn shown_stamps(shared: &Shared) -> &[u64]
    ensures { result.now ≡ shown_stamps shared.now }
{
    if shared.as_read {
        shared.stamps.as_slice()
    } else {
        &[]
    }
}

// With the lines of the entries, with these stamps as far as there are any. The lines of one entry are held at a time.
fn behind_entries(
    alloc: Global,
    bytes: &[u8],
    start: Progress,
    plan: &Plan,
    version: LogVersion,
    entries: &[Entry],
    stamps: &[u64],
) -> Result<Progress, NoMemory>
    requires within { IsWithin bytes.now start }
    ensures progress { IfOk result (λ p. p ≡ behind bytes.now start (flat_map (entry_lines plan.now version)
        (with_stamps stamps.now entries.now))) }
    ensures within { IfOk result (IsWithin bytes.now) }
{
    let mut text = Bytes::new(alloc);
    let mut progress = start;
    for (place, entry) in entries.iter().enumerate() {
        let stamp = stamp_or(stamps, place, entry.stamp);
        text.truncate(0);
        write_entry(&mut text, plan, version, entry, stamp)?;
        progress = behind(bytes, progress, text.bytes());
    }
    Ok(progress)
}

// With the section of an actor.
fn behind_section(
    alloc: Global,
    bytes: &[u8],
    start: Progress,
    plan: &Plan,
    version: LogVersion,
    named: &ActorPlan,
    read: &ActorRun,
    expected: &Shared,
) -> Result<Progress, NoMemory>
    requires within { IsWithin bytes.now start }
    ensures progress { IfOk result (λ p. p ≡ behind bytes.now start (actor_lines plan.now version named.now
        (shown read.now expected.now))) }
    ensures within { IfOk result (IsWithin bytes.now) }
{
    let mut heading = Bytes::new(alloc);
    write_heading(&mut heading, named)?;
    let first = behind(bytes, start, heading.bytes());
    let entries = plain(read, expected);
    let stamps = shown_stamps(expected);
    let further = behind_entries(alloc, bytes, first, plan, version, entries, stamps)?;
    let mut last = Bytes::new(alloc);
    write_last_lines(&mut last, plan, &expected.own)?;
    Ok(behind(bytes, further, last.bytes()))
}

// How far the bytes are the first line.
fn behind_head(alloc: Global, bytes: &[u8], run: &Run) -> Result<Progress, NoMemory>
    ensures progress { IfOk result (λ p. p ≡ behind bytes.now (Progress.Along 0) (head_line run.now)) }
    ensures within { IfOk result (IsWithin bytes.now) }
{
    let mut text = Bytes::new(alloc);
    write_head(&mut text, run)?;
    let start = Progress::Along { place: 0 };
    Ok(behind(bytes, start, text.bytes()))
}

/// How many lines end in front of the first difference of the bytes and the log of the expected run, or `None` where
/// they are one. That log is written in pieces, each no more than the lines of one entry or those behind the entries of
/// an actor.
pub(crate) fn parted_at(
    alloc: Global,
    plan: &Plan,
    bytes: &[u8],
    run: &Run,
    expected: &[Shared],
) -> Result<Option<u64>, NoMemory>
    requires many { length expected.now ≡ length plan.now.actors }
    requires reads { length run.now.actors ≡ length plan.now.actors }
    ensures lines { IfOk result (λ found. found ≡ lines_before 0 bytes.now
        (log_text plan.now (shown_run run.now expected.now))) }
    ensures few { IfOk result (λ found. IfSome found (λ line. line ≤ length bytes.now)) }
{
    let mut progress = behind_head(alloc, bytes, run)?;
    for (place, read) in run.actors.as_slice().iter().enumerate() {
        let named = plan.actors.at(place);
        let version = run.version;
        let own = &expected[place];
        progress = behind_section(alloc, bytes, progress, plan, version, named, read, own)?;
    }
    Ok(parted(bytes, progress))
}
