//! Examples whose files are made by numbers.
ghost use Rattle.std.specs.Prelude.{◌≤◌};

use crate::example::{CHECK, HEAD, PAIR, PAIRS, PING_PONG, RUN, comes_to, push};
use crate::telling::{counted, told};
use join_base::{Bytes, NoMemory};
use join_command::Status;
use std::alloc::Global;
use std::sync::Wait;
use std::thread::Threads;

/// Appends the pieces, each behind its number.
pub fn push_numbered(
    alloc: Global,
    text: &mut Bytes,
    pieces: &[(u64, &[u8])],
) -> Result<(), NoMemory> {
    for (number, piece) in pieces {
        push(text, number.to_string(alloc)?.as_bytes())?;
        push(text, piece)?;
    }
    Ok(())
}

// The values from 1 to 1,000, in turn in a message of either kind that is joined.
fn thousand_rows(alloc: Global) -> Result<Bytes, NoMemory> {
    let mut feed = Bytes::new(alloc);
    for pair in 0u64..500 {
        push(&mut feed, b"m,a,")?;
        push_numbered(
            alloc,
            &mut feed,
            &[(2 * pair + 1, b"\nm,b,"), (2 * pair + 2, b"\n")],
        )?;
    }
    Ok(feed)
}

fn thousand_arrivals(alloc: Global) -> Result<Bytes, NoMemory> {
    let mut log = Bytes::new(alloc);
    push(&mut log, HEAD)?;
    for pair in 0u64..500 {
        let first = 2 * pair + 1;
        let second = 2 * pair + 2;
        let pieces: [(u64, &[u8]); 10] = [
            (first, b" at "),
            (first, b" from feed 1 a("),
            (first, b")\n"),
            (second, b" at "),
            (second, b" from feed 1 b("),
            (second, b")\nfire rule 1 take "),
            (first, b","),
            (second, b"\nprint \"hit "),
            (first, b""),
            (second, b"\"\n"),
        ];
        push_numbered(alloc, &mut log, &pieces)?;
    }
    push(&mut log, b"end running left - partials 1\n")?;
    Ok(log)
}

// Names, and words that join the rows.
const JOINING: &[(&str, &[&str])] = &[
    ("thousand rows", RUN),
    (
        "thousand rows ring of one",
        &["run", "--ring", "1", "--workers", "1", "script", "input"],
    ),
    (
        "thousand rows eight workers",
        &["run", "--ring", "64", "--workers", "8", "script", "input"],
    ),
    (
        "thousand rows most workers",
        &["run", "--ring=4096", "--workers=64", "script", "input"],
    ),
    (
        "thousand rows stealing, ring of one",
        &[
            "run",
            "--pool=steal",
            "--ring",
            "1",
            "--workers",
            "1",
            "script",
            "input",
        ],
    ),
    (
        "thousand rows stealing, eight workers",
        &[
            "run",
            "--pool=steal",
            "--ring",
            "64",
            "--workers",
            "8",
            "script",
            "input",
        ],
    ),
];

fn are_joined<R: Threads + Wait + Sync>(
    rt: &R,
    alloc: Global,
    words: &[&str],
) -> Result<bool, NoMemory> {
    let feed = thousand_rows(alloc)?;
    let log = thousand_arrivals(alloc)?;
    let files = [("script", PAIRS), ("input", feed.bytes())];
    comes_to(rt, alloc, words, &files, Status::Done, log.bytes())
}

fn tell_joining<R: Print + Threads + Wait + Sync>(
    rt: &R,
    alloc: Global,
    rows: &[(&str, &[&str])],
) -> bool {
    let mut all = true;
    for (name, words) in rows {
        all &= told(rt, name, are_joined(rt, alloc, words));
    }
    counted(rt, "thousands of rows", rows.len(), all)
}

fn thousands_are_joined<R: Print + Threads + Wait + Sync>(rt: &R, alloc: Global) -> bool {
    tell_joining(rt, alloc, JOINING)
}

// The arrivals that are allowed where no word says so.
const ALLOWED: u64 = 50_000;

// What an actor of the two records. All of its arrivals but the first come from the other one, and each stamp is the
// value and 1.
fn push_answers(
    alloc: Global,
    log: &mut Bytes,
    first: u64,
    source: &[u8],
    other: &[u8],
) -> Result<(), NoMemory>
    requires { first ≤ 1 }
{
    for turn in 0..ALLOWED {
        let value = 2 * turn + first;
        push_numbered(alloc, log, &[(turn + 1, b" at "), (value + 1, b" from ")])?;
        if turn == 0 {
            push(log, source)?;
        } else {
            push(log, b"actor ")?;
            push(log, other)?;
        }
        push(log, b" ping(")?;
        push_numbered(
            alloc,
            log,
            &[(value, b")\nfire rule 1 take "), (turn + 1, b"\npost ")],
        )?;
        push(log, other)?;
        push(log, b" ping(")?;
        push_numbered(alloc, log, &[(value + 1, b")\n")])?;
    }
    Ok(())
}

// Two actors answer each other until the first one has recorded all arrivals that it may.
fn answers_to_the_limit(alloc: Global) -> Result<Bytes, NoMemory> {
    let mut log = Bytes::new(alloc);
    push(
        &mut log,
        b"joinlog 2 arrivals 50000 partials 65536 feeds 1\nactor p\n",
    )?;
    push_answers(alloc, &mut log, 0, b"feed 1", b"q")?;
    push(
        &mut log,
        b"late actor q 1\nend spent left - partials 1\nactor q\n",
    )?;
    push_answers(alloc, &mut log, 1, b"actor p", b"p")?;
    push(&mut log, b"end running left - partials 1\n")?;
    Ok(log)
}

fn actors_answer_to_the_limit<R: Threads + Wait + Sync>(
    rt: &R,
    alloc: Global,
) -> Result<bool, NoMemory> {
    let log = answers_to_the_limit(alloc)?;
    let files: [(&str, &[u8]); 2] = [("script", PING_PONG), ("input", b"p,ping,0\n")];
    comes_to(rt, alloc, RUN, &files, Status::Limits, log.bytes())
}

// Its proof has the count as it is: a number that stands in the call would be counted out.
fn repeated(alloc: Global, byte: u8, count: usize) -> Result<Bytes, NoMemory> {
    let mut text = Bytes::new(alloc);
    push(&mut text, vec![in alloc; byte; count]?.as_slice())?;
    Ok(text)
}

// A guard that opens so many brackets.
fn brackets(alloc: Global, count: usize) -> Result<Bytes, NoMemory> {
    let mut script = Bytes::new(alloc);
    push(&mut script, b"message a(x: int) actor m { when a(x) if ")?;
    push(&mut script, repeated(alloc, b'(', count)?.bytes())?;
    push(&mut script, b"x == 1 { } }")?;
    Ok(script)
}

fn brackets_are_refused<R: Threads + Wait + Sync>(rt: &R, alloc: Global) -> Result<bool, NoMemory> {
    let script = brackets(alloc, 200_000)?;
    let refused = b"refused script 73 BadSyntax\n";
    let files = [("script", script.bytes())];
    comes_to(rt, alloc, CHECK, &files, Status::ScriptRefused, refused)
}

fn a_feed_is_too_long<R: Threads + Wait + Sync>(rt: &R, alloc: Global) -> Result<bool, NoMemory> {
    let spaces = repeated(alloc, b' ', 16_777_217)?;
    let files = [("script", PAIRS), ("input", spaces.bytes())];
    comes_to(
        rt,
        alloc,
        RUN,
        &files,
        Status::TooLong,
        b"refused file 2 too long\n",
    )
}

fn tell_large<R: Print + Threads + Wait + Sync>(rt: &R, alloc: Global) -> bool {
    let answers = actors_answer_to_the_limit(rt, alloc);
    let answers = told(rt, "answers to the limit", answers);
    let brackets = brackets_are_refused(rt, alloc);
    let brackets = told(rt, "hundred thousands of brackets", brackets);
    let feed = told(rt, "a feed over the limit", a_feed_is_too_long(rt, alloc));
    counted(rt, "large files", 3, answers && brackets && feed)
}

// Words over a script of so many spaces, and what they come to.
#[derive(Clone, Copy)]
struct Spaces {
    name: &'static str,
    words: &'static [&'static str],
    count: usize,
    status: Status,
    printed: &'static [u8],
}

// A file may have 16,777,216 bytes.
const SPACES: &[Spaces] = &[
    Spaces {
        name: "check spaces at the limit",
        words: CHECK,
        count: 16_777_216,
        status: Status::ScriptRefused,
        printed: b"refused script 16777216 BadSyntax\n",
    },
    Spaces {
        name: "check spaces over the limit",
        words: CHECK,
        count: 16_777_217,
        status: Status::TooLong,
        printed: b"refused file 1 too long\n",
    },
    Spaces {
        name: "spaces at the limit",
        words: RUN,
        count: 16_777_216,
        status: Status::ScriptRefused,
        printed: b"refused script 16777216 BadSyntax\n",
    },
    Spaces {
        name: "spaces over the limit",
        words: RUN,
        count: 16_777_217,
        status: Status::TooLong,
        printed: b"refused file 1 too long\n",
    },
];

fn are_refused<R: Threads + Wait + Sync>(
    rt: &R,
    alloc: Global,
    spaces: &Spaces,
) -> Result<bool, NoMemory> {
    let script = repeated(alloc, b' ', spaces.count)?;
    let files = [("script", script.bytes()), ("input", PAIR)];
    comes_to(
        rt,
        alloc,
        spaces.words,
        &files,
        spaces.status,
        spaces.printed,
    )
}

fn tell_spaces<R: Print + Threads + Wait + Sync>(
    rt: &R,
    alloc: Global,
    scripts: &[Spaces],
) -> bool {
    let mut all = true;
    for spaces in scripts {
        all &= told(rt, spaces.name, are_refused(rt, alloc, spaces));
    }
    counted(rt, "scripts of spaces", scripts.len(), all)
}

fn spaces_are_refused<R: Print + Threads + Wait + Sync>(rt: &R, alloc: Global) -> bool {
    tell_spaces(rt, alloc, SPACES)
}

/// Tells of all these, and answers whether all of them come to what they should.
pub fn are_right<R: Print + Threads + Wait + Sync>(rt: &R, alloc: Global) -> bool {
    let thousands = thousands_are_joined(rt, alloc);
    let large = tell_large(rt, alloc);
    let spaces = spaces_are_refused(rt, alloc);
    thousands && large && spaces
}
