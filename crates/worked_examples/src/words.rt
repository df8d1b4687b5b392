//! Words that are a command, and words that are none.

use crate::example::{HIT, PAIR, PAIRS, comes_to, joined};
use crate::telling::{counted, told};
use join_base::NoMemory;
use join_command::Status;
use std::alloc::Global;
use std::sync::Wait;
use std::thread::Threads;

// A name, and words.
type Refused = (&'static str, &'static [&'static str]);

// Words with an option that is none, or none of its command.
const OPTIONS: &[Refused] = &[
    ("arrivals empty value", &["run", "--arrivals=", "s", "f"]),
    (
        "arrivals too big",
        &["run", "--arrivals", "1000001", "s", "f"],
    ),
    (
        "arrivals twice",
        &["run", "--arrivals", "5", "--arrivals=6", "s", "f"],
    ),
    ("arrivals with sign", &["run", "--arrivals", "+5", "s", "f"]),
    ("arrivals without value", &["run", "s", "f", "--arrivals"]),
    ("arrivals zero", &["run", "--arrivals", "0", "s", "f"]),
    ("help option", &["run", "--help", "s", "f"]),
    (
        "monitors without watch",
        &["run", "--monitors", "2", "s", "f"],
    ),
    (
        "partials too big",
        &["run", "--partials", "1000001", "s", "f"],
    ),
    ("partials zero", &["run", "--partials", "0", "s", "f"]),
    ("pool of no kind", &["run", "--pool", "other", "s", "f"]),
    ("pool of ask", &["ask", "--pool", "steal", "s", "f"]),
    ("pool without value", &["run", "s", "f", "--pool"]),
    ("ring too big", &["run", "--ring", "4097", "s", "f"]),
    (
        "ring twice",
        &["run", "--ring", "5", "--ring", "6", "s", "f"],
    ),
    ("ring with sign", &["run", "--ring", "+5", "s", "f"]),
    ("ring zero", &["run", "--ring", "0", "s", "f"]),
    ("single dash option", &["run", "-x", "s", "f"]),
    ("unknown option", &["run", "--rings", "5", "s", "f"]),
    ("workers too many", &["run", "--workers", "65", "s", "f"]),
    ("workers zero", &["run", "--workers", "0", "s", "f"]),
];

// Words with too few or too many files, or of no command.
const OTHERS: &[Refused] = &[
    ("ask without feed", &["ask", "s"]),
    ("ask with another option", &["ask", "--rows", "2", "s", "f"]),
    ("check two words", &["check", "s", "t"]),
    ("check with option", &["check", "--arrivals", "5", "s"]),
    ("help word", &["help"]),
    ("lint two words", &["lint", "s", "t"]),
    ("load too big", &["load", "20001"]),
    ("load with option", &["load", "--workers", "2", "3"]),
    ("load with sign", &["load", "+3"]),
    ("load without number", &["load"]),
    ("load zero", &["load", "0"]),
    ("no word", &[]),
    ("replay without log", &["replay", "s"]),
    ("run alone", &["run"]),
    ("run without feed", &["run", "s"]),
    (
        "seventeen feeds",
        &[
            "run", "s", "f", "f", "f", "f", "f", "f", "f", "f", "f", "f", "f", "f", "f", "f", "f",
            "f", "f",
        ],
    ),
    ("version option", &["--version"]),
    ("watch no monitor", &["watch", "--monitors", "0", "s", "f"]),
    (
        "watch too many monitors",
        &["watch", "--monitors", "9", "s", "f"],
    ),
    ("watch without feed", &["watch", "s"]),
];

// The script is the file s.
const FILES: &[(&str, &[u8])] = &[("s", PAIRS), ("f", PAIR), ("-", PAIR), ("--partials", PAIR)];

// Whether the words are refused.
fn is_refused<R: Threads + Wait + Sync>(
    rt: &R,
    alloc: Global,
    words: &[&str],
    files: &[(&str, &[u8])],
) -> Result<bool, NoMemory> {
    comes_to(rt, alloc, words, files, Status::Usage, b"refused usage\n")
}

fn tell_refused<R: Print + Threads + Wait + Sync>(
    rt: &R,
    alloc: Global,
    heading: &str,
    files: &[(&str, &[u8])],
    rows: &[Refused],
) -> bool {
    let mut all = true;
    for (name, words) in rows {
        all &= told(rt, name, is_refused(rt, alloc, words, files));
    }
    counted(rt, heading, rows.len(), all)
}

fn options_are_refused<R: Print + Threads + Wait + Sync>(rt: &R, alloc: Global) -> bool {
    tell_refused(rt, alloc, "options that are refused", FILES, OPTIONS)
}

fn others_are_refused<R: Print + Threads + Wait + Sync>(rt: &R, alloc: Global) -> bool {
    tell_refused(rt, alloc, "other words that are refused", FILES, OTHERS)
}

// A name, words that run the pair, and the limits in the first line of the log.
type Taken = (&'static str, &'static [&'static str], &'static [u8]);

const USUAL: &[u8] = b"arrivals 50000 partials 65536";

const FIVE: &[u8] = b"arrivals 5 partials 65536";

const BOTH: &[u8] = b"arrivals 2000 partials 40000";

const TAKEN: &[Taken] = &[
    (
        "arrivals after files",
        &["run", "s", "f", "--arrivals", "5"],
        FIVE,
    ),
    (
        "arrivals and double dash",
        &["run", "--arrivals", "5", "--", "s", "f"],
        FIVE,
    ),
    (
        "arrivals before files",
        &["run", "--arrivals", "5", "s", "f"],
        FIVE,
    ),
    (
        "arrivals with equals sign",
        &["run", "--arrivals=05", "s", "f"],
        FIVE,
    ),
    ("ring after files", &["run", "s", "f", "--ring", "5"], USUAL),
    (
        "ring and double dash",
        &["run", "--ring", "5", "--", "s", "f"],
        USUAL,
    ),
    (
        "ring before files",
        &["run", "--ring", "5", "s", "f"],
        USUAL,
    ),
    (
        "ring with equals sign",
        &["run", "--ring=05", "s", "f"],
        USUAL,
    ),
    (
        "limits around the files",
        &["run", "--arrivals", "2000", "s", "f", "--partials=40000"],
        BOTH,
    ),
    (
        "four options among the files",
        &[
            "run",
            "--workers=3",
            "s",
            "--ring",
            "05",
            "f",
            "--partials=40000",
            "--arrivals=2000",
        ],
        BOTH,
    ),
    (
        "most workers and places",
        &[
            "run",
            "--workers=064",
            "--ring=4096",
            "--partials=40000",
            "--arrivals=2000",
            "--",
            "s",
            "-",
        ],
        BOTH,
    ),
    (
        "single dash is a feed",
        &["run", "--partials=040000", "s", "--arrivals", "2000", "-"],
        BOTH,
    ),
    (
        "limits and double dash",
        &[
            "run",
            "--arrivals=2000",
            "--partials",
            "40000",
            "--",
            "s",
            "f",
        ],
        BOTH,
    ),
    (
        "double dash then an option",
        &[
            "run",
            "--arrivals=2000",
            "--partials",
            "40000",
            "--",
            "s",
            "--partials",
        ],
        BOTH,
    ),
];

const POOLS: &[Taken] = &[
    (
        "pool of tickets",
        &["run", "--pool", "queue", "s", "f"],
        USUAL,
    ),
    (
        "pool with equals sign",
        &["run", "--pool=steal", "s", "f"],
        USUAL,
    ),
    (
        "stealing, two workers",
        &["run", "--pool", "steal", "--workers", "2", "s", "f"],
        USUAL,
    ),
];

const DASHED: &[Taken] = &[
    (
        "double dash then dashed name",
        &["run", "--", "-s", "f"],
        USUAL,
    ),
    ("single dash is a name", &["run", "-", "f"], USUAL),
];

// The script has a name with a dash in front.
const DASHED_FILES: &[(&str, &[u8])] = &[("-s", PAIRS), ("-", PAIRS), ("f", PAIR)];

// Whether the words print the log of the pair with these limits.
fn is_taken<R: Threads + Wait + Sync>(
    rt: &R,
    alloc: Global,
    words: &[&str],
    files: &[(&str, &[u8])],
    limits: &[u8],
) -> Result<bool, NoMemory> {
    let pieces: [&[u8]; 4] = [b"joinlog 2 ", limits, b" feeds 1\nactor m\n", HIT];
    let log = joined(alloc, &pieces)?;
    comes_to(rt, alloc, words, files, Status::Done, log.bytes())
}

fn tell_taken<R: Print + Threads + Wait + Sync>(
    rt: &R,
    alloc: Global,
    heading: &str,
    files: &[(&str, &[u8])],
    rows: &[Taken],
) -> bool {
    let mut all = true;
    for (name, words, limits) in rows {
        all &= told(rt, name, is_taken(rt, alloc, words, files, limits));
    }
    counted(rt, heading, rows.len(), all)
}

fn options_are_taken<R: Print + Threads + Wait + Sync>(rt: &R, alloc: Global) -> bool {
    tell_taken(rt, alloc, "options that are taken", FILES, TAKEN)
}

fn dashes_are_taken<R: Print + Threads + Wait + Sync>(rt: &R, alloc: Global) -> bool {
    tell_taken(rt, alloc, "scripts with a dash", DASHED_FILES, DASHED)
}

fn pools_are_taken<R: Print + Threads + Wait + Sync>(rt: &R, alloc: Global) -> bool {
    tell_taken(rt, alloc, "pools", FILES, POOLS)
}

/// Tells of all words, and answers whether all of them come to what they should.
pub fn are_right<R: Print + Threads + Wait + Sync>(rt: &R, alloc: Global) -> bool {
    let options = options_are_refused(rt, alloc);
    let others = others_are_refused(rt, alloc);
    let taken = options_are_taken(rt, alloc);
    let pools = pools_are_taken(rt, alloc);
    let dashes = dashes_are_taken(rt, alloc);
    options && others && taken && pools && dashes
}
