//! Logs that are accepted, and the same with a line changed.

use crate::example::{PAIRS, PING_PONG, REPLAY, comes_to, push};
use crate::telling::{counted, told};
use join_base::{Bytes, NoMemory};
use join_command::Status;
use std::alloc::Global;
use std::sync::Wait;
use std::thread::Threads;

// A log that is accepted, the script of its run, and what is told of it.
#[derive(Clone, Copy)]
struct Log {
    name: &'static str,
    script: &'static [u8],
    lines: &'static [&'static str],
    accepted: &'static [u8],
}

// A name, the number of a line, what stands in its place, and what the log is refused with.
type Change = (&'static str, usize, &'static [&'static str], &'static [u8]);

// One message of each kind, in the version without stamps.
const HIT: Log = Log {
    name: "replay hit",
    script: PAIRS,
    lines: &[
        "joinlog 1 arrivals 50000 partials 65536 feeds 1",
        "actor m",
        "1 from feed 1 a(1)",
        "2 from feed 1 b(2)",
        "fire rule 1 take 1,2",
        "print \"hit 12\"",
        "end running left - partials 1",
    ],
    accepted: b"accepted 2\n",
};

const HIT_CHANGES: &[Change] = &[
    (
        "replay invented late",
        7,
        &["late feed 1 3", "end running left - partials 1"],
        b"refused log line 7 Differs\n",
    ),
    (
        "replay leading zero",
        3,
        &["01 from feed 1 a(1)"],
        b"refused log line 3 LogFault\n",
    ),
    (
        "replay line after the end",
        7,
        &["end running left - partials 1", "end"],
        b"refused log line 8 LogFault\n",
    ),
    (
        "replay no arrivals allowed",
        1,
        &["joinlog 1 arrivals 0 partials 65536 feeds 1"],
        b"refused log line 1 LogFault\n",
    ),
    (
        "replay number too big",
        3,
        &["4294967296 from feed 1 a(1)"],
        b"refused log line 3 LogFault\n",
    ),
    (
        "replay one arrival allowed",
        1,
        &["joinlog 1 arrivals 1 partials 65536 feeds 1"],
        b"refused log line 4 Differs\n",
    ),
    (
        "replay partials at the bound",
        7,
        &["end running left - partials 18446744073709551615"],
        b"refused log line 7 Differs\n",
    ),
    (
        "replay partials over the bound",
        7,
        &["end running left - partials 18446744073709551616"],
        b"refused log line 7 LogFault\n",
    ),
    (
        "replay seventeen feeds",
        1,
        &["joinlog 1 arrivals 50000 partials 65536 feeds 17"],
        b"refused log line 1 LogFault\n",
    ),
    (
        "replay too many arrivals allowed",
        1,
        &["joinlog 1 arrivals 1000001 partials 65536 feeds 1"],
        b"refused log line 1 LogFault\n",
    ),
    (
        "replay turned take",
        5,
        &["fire rule 1 take 2,1"],
        b"refused log line 5 Differs\n",
    ),
    (
        "replay unknown feed",
        3,
        &["1 from feed 2 a(1)"],
        b"refused log line 3 LogFault\n",
    ),
    (
        "replay wrong partials",
        7,
        &["end running left - partials 2"],
        b"refused log line 7 Differs\n",
    ),
    (
        "replay wrong print",
        6,
        &["print \"hit 13\""],
        b"refused log line 6 Differs\n",
    ),
];

const STAMPED_HIT: Log = Log {
    name: "replay hit with stamps",
    script: PAIRS,
    lines: &[
        "joinlog 2 arrivals 50000 partials 65536 feeds 1",
        "actor m",
        "1 at 1 from feed 1 a(1)",
        "2 at 2 from feed 1 b(2)",
        "fire rule 1 take 1,2",
        "print \"hit 12\"",
        "end running left - partials 1",
    ],
    accepted: b"accepted 2\n",
};

const STAMPED_HIT_CHANGES: &[Change] = &[
    (
        "replay stampless line",
        4,
        &["2 from feed 1 b(2)"],
        b"refused log line 4 LogFault\n",
    ),
    (
        "replay leading zero with stamps",
        3,
        &["01 at 1 from feed 1 a(1)"],
        b"refused log line 3 LogFault\n",
    ),
    (
        "replay turned take with stamps",
        5,
        &["fire rule 1 take 2,1"],
        b"refused log line 5 Differs\n",
    ),
    (
        "replay actor after the end",
        7,
        &["end running left - partials 1", "actor m"],
        b"refused log line 8 LogFault\n",
    ),
];

// Three rounds of two actors that answer each other, in the version without stamps.
const ANSWERS: Log = Log {
    name: "replay ping pong",
    script: PING_PONG,
    lines: &[
        "joinlog 1 arrivals 3 partials 65536 feeds 1",
        "actor p",
        "1 from feed 1 ping(0)",
        "fire rule 1 take 1",
        "post q ping(1)",
        "2 from actor q ping(2)",
        "fire rule 1 take 2",
        "post q ping(3)",
        "3 from actor q ping(4)",
        "fire rule 1 take 3",
        "post q ping(5)",
        "late actor q 1",
        "end spent left - partials 1",
        "actor q",
        "1 from actor p ping(1)",
        "fire rule 1 take 1",
        "post p ping(2)",
        "2 from actor p ping(3)",
        "fire rule 1 take 2",
        "post p ping(4)",
        "3 from actor p ping(5)",
        "fire rule 1 take 3",
        "post p ping(6)",
        "end running left - partials 1",
    ],
    accepted: b"accepted 6\n",
};

const ANSWERS_CHANGES: &[Change] = &[
    (
        "replay invented post",
        3,
        &["1 from actor q ping(7)"],
        b"refused log line 3 Differs\n",
    ),
    (
        "replay missing late",
        12,
        &[],
        b"refused log line 12 Differs\n",
    ),
];

const STAMPED_ANSWERS: Log = Log {
    name: "replay ping pong with stamps",
    script: PING_PONG,
    lines: &[
        "joinlog 2 arrivals 3 partials 65536 feeds 1",
        "actor p",
        "1 at 1 from feed 1 ping(0)",
        "fire rule 1 take 1",
        "post q ping(1)",
        "2 at 3 from actor q ping(2)",
        "fire rule 1 take 2",
        "post q ping(3)",
        "3 at 5 from actor q ping(4)",
        "fire rule 1 take 3",
        "post q ping(5)",
        "late actor q 1",
        "end spent left - partials 1",
        "actor q",
        "1 at 2 from actor p ping(1)",
        "fire rule 1 take 1",
        "post p ping(2)",
        "2 at 4 from actor p ping(3)",
        "fire rule 1 take 2",
        "post p ping(4)",
        "3 at 6 from actor p ping(5)",
        "fire rule 1 take 3",
        "post p ping(6)",
        "end running left - partials 1",
    ],
    accepted: b"accepted 6\n",
};

const STAMPED_ANSWERS_CHANGES: &[Change] = &[(
    "replay wrong stamp",
    6,
    &["2 at 4 from actor q ping(2)"],
    b"refused log line 6 Differs\n",
)];

fn push_lines(text: &mut Bytes, lines: &[&str]) -> Result<(), NoMemory> {
    for line in lines {
        push(text, line.as_bytes())?;
        push(text, b"\n")?;
    }
    Ok(())
}

// The lines with others in place of the one of this number. No line has the number 0.
fn with_lines(
    alloc: Global,
    lines: &[&str],
    number: usize,
    others: &[&str],
) -> Result<Bytes, NoMemory> {
    let mut text = Bytes::new(alloc);
    for place in 0..lines.len() {
        if place + 1 == number {
            push_lines(&mut text, others)?;
        } else {
            push_lines(&mut text, &[lines[place]])?;
        }
    }
    Ok(text)
}

// Whether a replay of the script answers this to the log.
fn is_answered<R: Threads + Wait + Sync>(
    rt: &R,
    alloc: Global,
    script: &[u8],
    log: &[u8],
    status: Status,
    printed: &[u8],
) -> Result<bool, NoMemory> {
    let files = [("script", script), ("input", log)];
    comes_to(rt, alloc, REPLAY, &files, status, printed)
}

fn is_accepted<R: Threads + Wait + Sync>(
    rt: &R,
    alloc: Global,
    log: &Log,
) -> Result<bool, NoMemory> {
    let text = with_lines(alloc, log.lines, 0, &[])?;
    is_answered(
        rt,
        alloc,
        log.script,
        text.bytes(),
        Status::Done,
        log.accepted,
    )
}

fn is_refused<R: Threads + Wait + Sync>(
    rt: &R,
    alloc: Global,
    log: &Log,
    number: usize,
    others: &[&str],
    printed: &[u8],
) -> Result<bool, NoMemory> {
    let text = with_lines(alloc, log.lines, number, others)?;
    is_answered(
        rt,
        alloc,
        log.script,
        text.bytes(),
        Status::LogRefused,
        printed,
    )
}

// A log, and changes of it.
fn tell_changes<R: Print + Threads + Wait + Sync>(
    rt: &R,
    alloc: Global,
    heading: &str,
    log: &Log,
    changes: &[Change],
) -> bool {
    let mut all = told(rt, log.name, is_accepted(rt, alloc, log));
    for (name, number, others, printed) in changes {
        let found = is_refused(rt, alloc, log, *number, others, printed);
        all &= told(rt, name, found);
    }
    counted(rt, heading, changes.len(), all)
}

fn hit_is_changed<R: Print + Threads + Wait + Sync>(rt: &R, alloc: Global) -> bool {
    tell_changes(rt, alloc, "changes of a log of pairs", &HIT, HIT_CHANGES)
}

fn stamped_hit_is_changed<R: Print + Threads + Wait + Sync>(rt: &R, alloc: Global) -> bool {
    let heading = "changes of a stamped log of pairs";
    tell_changes(rt, alloc, heading, &STAMPED_HIT, STAMPED_HIT_CHANGES)
}

fn answers_are_changed<R: Print + Threads + Wait + Sync>(rt: &R, alloc: Global) -> bool {
    tell_changes(
        rt,
        alloc,
        "changes of a log of answers",
        &ANSWERS,
        ANSWERS_CHANGES,
    )
}

fn stamped_answers_are_changed<R: Print + Threads + Wait + Sync>(rt: &R, alloc: Global) -> bool {
    let heading = "changes of a stamped log of answers";
    tell_changes(
        rt,
        alloc,
        heading,
        &STAMPED_ANSWERS,
        STAMPED_ANSWERS_CHANGES,
    )
}

/// Tells of these logs and all changes of them, and answers whether all come to what they should.
pub fn are_right<R: Print + Threads + Wait + Sync>(rt: &R, alloc: Global) -> bool {
    let hit = hit_is_changed(rt, alloc);
    let stamped_hit = stamped_hit_is_changed(rt, alloc);
    let answers = answers_are_changed(rt, alloc);
    let stamped_answers = stamped_answers_are_changed(rt, alloc);
    hit && stamped_hit && answers && stamped_answers
}
