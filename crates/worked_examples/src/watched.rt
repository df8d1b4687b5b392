//! Runs that monitors watch: the totals of the actors stand behind the log.

use crate::example::{ANSWERED, HEAD, HIT, PAIR, PAIRS, PING_PONG, comes_to, joined};
use crate::telling::{counted, told};
use join_base::NoMemory;
use join_command::Status;
use std::alloc::Global;
use std::sync::Wait;
use std::thread::Threads;

/// Words and files, and what is printed, in parts that stand one behind the other.
#[derive(Clone, Copy)]
struct Watched<'a> {
    name: &'a str,
    words: &'a [&'a str],
    files: &'a [(&'a str, &'a [u8])],
    status: Status,
    parts: &'a [&'a [u8]],
}

const FILES: &[(&str, &[u8])] = &[("script", PAIRS), ("feed", PAIR)];

const TOTALS: &[u8] = b"board m arrivals 2 firings 1 posts 0\n";

// The posts of both have their places in the totals, also the last one, which finds the other actor spent.
const ANSWERED_TOTALS: &[u8] =
    b"board p arrivals 3 firings 3 posts 3\nboard q arrivals 3 firings 3 posts 3\n";

const RUNS: &[Watched<'static>] = &[
    Watched {
        name: "watch hit",
        words: &["watch", "script", "feed"],
        files: FILES,
        status: Status::Done,
        parts: &[HEAD, HIT, TOTALS],
    },
    Watched {
        name: "watch eight monitors",
        words: &["watch", "--monitors", "8", "script", "feed"],
        files: FILES,
        status: Status::Done,
        parts: &[HEAD, HIT, TOTALS],
    },
    Watched {
        name: "watch ping pong",
        words: &["watch", "--arrivals", "3", "script", "feed"],
        files: &[("script", PING_PONG), ("feed", b"p,ping,0\n")],
        status: Status::Limits,
        parts: &[ANSWERED, ANSWERED_TOTALS],
    },
    Watched {
        name: "watch refused feed",
        words: &["watch", "script", "feed"],
        files: &[("script", PAIRS), ("feed", b"m,a\n")],
        status: Status::FeedRefused,
        parts: &[b"refused feed 1 row 1 WrongCount\n"],
    },
];

// Whether the run prints its parts with its status.
fn is_right<R: Threads + Wait + Sync>(
    rt: &R,
    alloc: Global,
    run: &Watched<'_>,
) -> Result<bool, NoMemory> {
    let text = joined(alloc, run.parts)?;
    comes_to(rt, alloc, run.words, run.files, run.status, text.bytes())
}

fn tell_watched<R: Print + Threads + Wait + Sync>(
    rt: &R,
    alloc: Global,
    runs: &[Watched<'static>],
) -> bool {
    let mut all = true;
    for run in runs {
        let found = is_right(rt, alloc, run);
        all &= told(rt, run.name, found);
    }
    counted(rt, "watched runs", runs.len(), all)
}

/// Tells of all these runs, and answers whether all of them come to what they should.
pub fn are_right<R: Print + Threads + Wait + Sync>(rt: &R, alloc: Global) -> bool {
    tell_watched(rt, alloc, RUNS)
}
