//! Fetches and writes that fail.
ghost use Rattle.std.specs.Prelude.{◌≡◌, ◌≤◌};

use crate::calls::{gives, inputs_of, writes};
use join_base::{MemoryInputs, MemorySink, NoMemory};
use join_command::Status;
use std::alloc::Global;
use std::sync::Wait;
use std::thread::Threads;

// The log of s over f, which has 170 bytes.
const LOG: &[u8] = b"joinlog 2 arrivals 50000 partials 65536 feeds 1\n\
      actor m\n\
      1 at 1 from feed 1 a(1)\n\
      2 at 2 from feed 1 b(2)\n\
      fire rule 1 take 1,2\n\
      print \"hit 12\"\n\
      end running left - partials 1\n";

// The same with a second feed that has no rows.
const TWO_FEEDS: &[u8] = b"joinlog 2 arrivals 50000 partials 65536 feeds 2\n\
      actor m\n\
      1 at 1 from feed 1 a(1)\n\
      2 at 2 from feed 1 b(2)\n\
      fire rule 1 take 1,2\n\
      print \"hit 12\"\n\
      end running left - partials 1\n";

// A script that joins two kinds, a feed with one message of each, one without rows, one to another actor, and a log.
const FILES: &[(&str, &[u8])] = &[
    (
        "s",
        b"message a(x: int) message b(x: int) actor m { when a(x) & b(y) { print \"hit \" x y; } }",
    ),
    ("f", b"m,a,1\nm,b,2\n"),
    ("empty", b""),
    ("other", b"n,a,1\n"),
    ("log", LOG),
];

const RUN: &[&str] = &["run", "s", "f"];

fn own_inputs(alloc: Global) -> Result<MemoryInputs, NoMemory> {
    inputs_of(alloc, FILES)
}

// The files, of which the fetch of this number fails.
fn failing_inputs(alloc: Global, call: u64) -> Result<MemoryInputs, NoMemory> {
    let mut inputs = own_inputs(alloc)?;
    inputs.fail(call)?;
    Ok(inputs)
}

// Whether a run over two feeds ends with nothing written where this fetch fails.
fn stops_at<R: Threads + Wait + Sync>(rt: &R, alloc: Global, call: u64) -> Result<bool, NoMemory> {
    let mut inputs = failing_inputs(alloc, call)?;
    let words = ["run", "s", "f", "empty"].as_slice();
    gives(rt, alloc, words, &mut inputs, Status::ReadFault, b"")
}

#[test]
fn each_fetch_may_fail(rt: HostRuntime) {
    let alloc = rt.alloc();
    let all = stops_at(&rt, alloc, 1) == Ok(true)
        && stops_at(&rt, alloc, 2) == Ok(true)
        && stops_at(&rt, alloc, 3) == Ok(true);
    assert!(rt; all);
}

// Whether the words come to this, and this fetch, which is to fail, is made by the command behind them alone.
fn ends_before<R: Threads + Wait + Sync>(
    rt: &R,
    alloc: Global,
    call: u64,
    words: &[&str],
    status: Status,
    output: &[u8],
) -> Result<bool, NoMemory> {
    let mut inputs = failing_inputs(alloc, call)?;
    if !gives(rt, alloc, words, &mut inputs, status, output)? {
        return Ok(false);
    }
    gives(
        rt,
        alloc,
        &["check", "s"],
        &mut inputs,
        Status::ReadFault,
        b"",
    )
}

// A call with the number of the fetch that it doesn't make.
type Case<'a> = (u64, &'a [&'a str], Status, &'a [u8]);

const CASES: &[Case<'static>] = &[
    (1, &["run", "s"], Status::Usage, b"refused usage\n"),
    (
        2,
        &["run", "f", "f"],
        Status::ScriptRefused,
        b"refused script 0 BadSyntax\n",
    ),
    (
        3,
        &["run", "s", "other", "g"],
        Status::FeedRefused,
        b"refused feed 1 row 1 UnknownActor\n",
    ),
    (4, &["run", "s", "f", "empty"], Status::Done, TWO_FEEDS),
    (3, &["replay", "s", "log"], Status::Done, b"accepted 2\n"),
    (2, &["lint", "s"], Status::Done, b"lint 0\n"),
];

fn all_end_before<R: Threads + Wait + Sync>(
    rt: &R,
    alloc: Global,
    cases: &[Case<'static>],
) -> Result<bool, NoMemory> {
    for (call, words, status, output) in cases {
        if !ends_before(rt, alloc, *call, words, *status, output)? {
            return Ok(false);
        }
    }
    Ok(true)
}

fn early_ends() -> &'static [Case<'static>] {
    CASES
}

#[test]
fn nothing_is_fetched_behind_the_end(rt: HostRuntime) {
    assert!(rt; all_end_before(&rt, rt.alloc(), early_ends()) == Ok(true));
}

// A sink with so much room, of which one write takes at most so many bytes, and the write of this number fails.
#[derive(Clone, Copy)]
struct Narrow {
    room: u64,
    most: u64,
    call: u64,
}

// Whether the words leave the output in such a sink.
fn leaves<R: Threads + Wait + Sync>(
    rt: &R,
    alloc: Global,
    words: &[&str],
    sink: Narrow,
    status: Status,
    output: &[u8],
) -> Result<bool, NoMemory>
    requires { 1 ≤ sink.most }
{
    let mut inputs = own_inputs(alloc)?;
    let mut out = MemorySink::new(alloc, sink.room, sink.most)?;
    out.fail(sink.call)?;
    writes(rt, alloc, words, &mut inputs, out, status, output)
}

// A sink of ten bytes at a time.
fn tens(call: u64) -> Narrow
    ensures { 1 ≤ result.most }
{
    Narrow {
        room: 1000,
        most: 10,
        call,
    }
}

// Whether each write of ten bytes leaves what was written before it where it fails.
fn each_leaves_a_beginning<R: Threads + Wait + Sync>(
    rt: &R,
    alloc: Global,
    log: &[u8],
) -> Result<bool, NoMemory> {
    for call in 0..17usize {
        let Some(written) = log.get(..10 * call) else {
            return Ok(false);
        };
        let sink = tens(call as u64 + 1);
        if !leaves(rt, alloc, RUN, sink, Status::WriteFault, written)? {
            return Ok(false);
        }
    }
    Ok(true)
}

// A sink with room for so many bytes.
fn room_for(room: u64, most: u64) -> Narrow
    ensures { result.most ≡ most }
{
    Narrow {
        room,
        most,
        call: 0,
    }
}

// Whether what was written stays where there is no more room, and where no write is taken.
fn others_leave_a_beginning<R: Threads + Wait + Sync>(
    rt: &R,
    alloc: Global,
) -> Result<bool, NoMemory> {
    let front = b"joinlog 2 arrivals 50000 ".as_slice();
    if !leaves(rt, alloc, RUN, room_for(25, 10), Status::WriteFault, front)? {
        return Ok(false);
    }
    leaves(rt, alloc, &["run", "s"], tens(1), Status::WriteFault, b"")
}

fn whole_log() -> &'static [u8] {
    LOG
}

#[test]
fn a_write_that_fails_leaves_a_beginning(rt: HostRuntime) {
    let alloc = rt.alloc();
    let all = each_leaves_a_beginning(&rt, alloc, whole_log()) == Ok(true)
        && others_leave_a_beginning(&rt, alloc) == Ok(true);
    assert!(rt; all);
}

// Whether the log is written by one byte at a time, and by ten, where the write behind the last one is to fail.
fn pieces_make_one<R: Threads + Wait + Sync>(rt: &R, alloc: Global) -> Result<bool, NoMemory> {
    if !leaves(rt, alloc, RUN, room_for(170, 1), Status::Done, whole_log())? {
        return Ok(false);
    }
    leaves(rt, alloc, RUN, tens(18), Status::Done, whole_log())
}

#[test]
fn pieces_of_any_size_make_one_output(rt: HostRuntime) {
    assert!(rt; pieces_make_one(&rt, rt.alloc()) == Ok(true));
}
