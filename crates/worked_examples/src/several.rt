//! Runs of several actors, and of actors that meet a limit.
ghost use Rattle.std.specs.Prelude.{◌≤◌};

use crate::example::{ANSWERED, Example, HEAD, PAIRS, PING_PONG, RUN, comes_to, push};
use crate::made::push_numbered;
use crate::runs::THREE;
use crate::telling::{counted, tell_examples, told};
use join_base::{Bytes, NoMemory};
use join_command::Status;
use std::alloc::Global;
use std::sync::Wait;
use std::thread::Threads;

// Each actor gets its messages from one source alone, or from the second only after all of the first, so there is one
// log.
const EXAMPLES: &[Example<'static>] = &[
    Example {
        name: "at the limit of partials",
        words: &["run", "--partials", "4", "script", "input"],
        files: &[("script", THREE), ("input", b"m,a,1\nm,a,2\nm,a,3\n")],
        status: Status::Done,
        printed: b"joinlog 2 arrivals 50000 partials 4 feeds 1\n\
          actor m\n\
          1 at 1 from feed 1 a(1)\n\
          2 at 2 from feed 1 a(2)\n\
          3 at 3 from feed 1 a(3)\n\
          end running left 1,2,3 partials 4\n",
    },
    Example {
        name: "jammed",
        words: &["run", "--partials", "4", "script", "input"],
        files: &[
            ("script", THREE),
            ("input", b"m,a,1\nm,a,2\nm,a,3\nm,a,4\n"),
        ],
        status: Status::Limits,
        printed: b"joinlog 2 arrivals 50000 partials 4 feeds 1\n\
          actor m\n\
          1 at 1 from feed 1 a(1)\n\
          2 at 2 from feed 1 a(2)\n\
          3 at 3 from feed 1 a(3)\n\
          4 at 4 from feed 1 a(4)\n\
          end jammed left - partials 1\n",
    },
    Example {
        name: "spent",
        words: &["run", "--arrivals", "2", "script", "input"],
        files: &[
            ("script", PAIRS),
            ("input", b"m,a,1\nm,a,2\nm,a,3\nm,a,4\n"),
        ],
        status: Status::Limits,
        printed: b"joinlog 2 arrivals 2 partials 65536 feeds 1\n\
          actor m\n\
          1 at 1 from feed 1 a(1)\n\
          2 at 2 from feed 1 a(2)\n\
          late feed 1 2\n\
          end spent left - partials 1\n",
    },
    Example {
        name: "window keeps from jamming",
        words: &["run", "--partials", "4", "script", "input"],
        files: &[
            (
                "script",
                b"message a(x: int) message b(x: int) message c(x: int) actor m { when a(x) & b(y) & c(z) \
                  within 3 { } }",
            ),
            ("input", b"m,a,1\nm,a,2\nm,a,3\nm,a,4\n"),
        ],
        status: Status::Done,
        printed: b"joinlog 2 arrivals 50000 partials 4 feeds 1\n\
          actor m\n\
          1 at 1 from feed 1 a(1)\n\
          2 at 2 from feed 1 a(2)\n\
          3 at 3 from feed 1 a(3)\n\
          4 at 4 from feed 1 a(4)\n\
          end running left 1,2,3,4 partials 4\n",
    },
    Example {
        name: "ping pong",
        words: &["run", "--arrivals", "3", "script", "input"],
        files: &[("script", PING_PONG), ("input", b"p,ping,0\n")],
        status: Status::Limits,
        printed: ANSWERED,
    },
    Example {
        name: "ping pong ring of one",
        words: &["run", "--ring", "1", "--arrivals", "3", "script", "input"],
        files: &[("script", PING_PONG), ("input", b"p,ping,0\n")],
        status: Status::Limits,
        printed: ANSWERED,
    },
    Example {
        name: "circle of three",
        words: &["run", "--arrivals", "3", "script", "input"],
        files: &[
            (
                "script",
                b"message ping(n: int) actor p { when ping(n) { post q ping(n + 1); } } actor q { when \
                  ping(n) { post r ping(n + 1); } } actor r { when ping(n) { post p ping(n + 1); } }",
            ),
            ("input", b"p,ping,0\n"),
        ],
        status: Status::Limits,
        printed: b"joinlog 2 arrivals 3 partials 65536 feeds 1\n\
          actor p\n\
          1 at 1 from feed 1 ping(0)\n\
          fire rule 1 take 1\n\
          post q ping(1)\n\
          2 at 4 from actor r ping(3)\n\
          fire rule 1 take 2\n\
          post q ping(4)\n\
          3 at 7 from actor r ping(6)\n\
          fire rule 1 take 3\n\
          post q ping(7)\n\
          late actor r 1\n\
          end spent left - partials 1\n\
          actor q\n\
          1 at 2 from actor p ping(1)\n\
          fire rule 1 take 1\n\
          post r ping(2)\n\
          2 at 5 from actor p ping(4)\n\
          fire rule 1 take 2\n\
          post r ping(5)\n\
          3 at 8 from actor p ping(7)\n\
          fire rule 1 take 3\n\
          post r ping(8)\n\
          end running left - partials 1\n\
          actor r\n\
          1 at 3 from actor q ping(2)\n\
          fire rule 1 take 1\n\
          post p ping(3)\n\
          2 at 6 from actor q ping(5)\n\
          fire rule 1 take 2\n\
          post p ping(6)\n\
          3 at 9 from actor q ping(8)\n\
          fire rule 1 take 3\n\
          post p ping(9)\n\
          end running left - partials 1\n",
    },
    Example {
        name: "sixteen posts of one body",
        words: RUN,
        files: &[
            (
                "script",
                b"message n(v: int) message o(v: int) actor m { when n(v) { post s o(1); post s o(2); \
                  post s o(3); post s o(4); post s o(5); post s o(6); post s o(7); post s o(8); post s \
                  o(9); post s o(10); post s o(11); post s o(12); post s o(13); post s o(14); post s \
                  o(15); post s o(16); } } actor s { }",
            ),
            ("input", b"m,n,0\n"),
        ],
        status: Status::Done,
        printed: b"joinlog 2 arrivals 50000 partials 65536 feeds 1\n\
          actor m\n\
          1 at 1 from feed 1 n(0)\n\
          fire rule 1 take 1\n\
          post s o(1)\n\
          post s o(2)\n\
          post s o(3)\n\
          post s o(4)\n\
          post s o(5)\n\
          post s o(6)\n\
          post s o(7)\n\
          post s o(8)\n\
          post s o(9)\n\
          post s o(10)\n\
          post s o(11)\n\
          post s o(12)\n\
          post s o(13)\n\
          post s o(14)\n\
          post s o(15)\n\
          post s o(16)\n\
          end running left - partials 1\n\
          actor s\n\
          1 at 2 from actor m o(1)\n\
          2 at 3 from actor m o(2)\n\
          3 at 4 from actor m o(3)\n\
          4 at 5 from actor m o(4)\n\
          5 at 6 from actor m o(5)\n\
          6 at 7 from actor m o(6)\n\
          7 at 8 from actor m o(7)\n\
          8 at 9 from actor m o(8)\n\
          9 at 10 from actor m o(9)\n\
          10 at 11 from actor m o(10)\n\
          11 at 12 from actor m o(11)\n\
          12 at 13 from actor m o(12)\n\
          13 at 14 from actor m o(13)\n\
          14 at 15 from actor m o(14)\n\
          15 at 16 from actor m o(15)\n\
          16 at 17 from actor m o(16)\n\
          end running left 1,2,3,4,5,6,7,8,9,10,11,12,13,14,15,16 partials 0\n",
    },
];

fn examples_are_run<R: Print + Threads + Wait + Sync>(rt: &R, alloc: Global) -> bool {
    tell_examples(
        rt,
        alloc,
        "runs of several actors, and up to a limit",
        EXAMPLES,
    )
}

// Two actors that print what they get.
const TWO_ACTORS: &[u8] =
    b"message a(x: int) actor m { when a(x) { print x; } } actor n { when a(x) { print x; } }";

// The values from 1 to 10 for the first one, and those from 101 to 110 for the second one, in turn.
fn ten_for_each(alloc: Global) -> Result<Bytes, NoMemory> {
    let mut feed = Bytes::new(alloc);
    for value in 1u64..11 {
        push(&mut feed, b"m,a,")?;
        push_numbered(
            alloc,
            &mut feed,
            &[(value, b"\nn,a,"), (100 + value, b"\n")],
        )?;
    }
    Ok(feed)
}

// What an actor records of ten values above the base.
fn push_ten(alloc: Global, log: &mut Bytes, base: u64) -> Result<(), NoMemory>
    requires { base ≤ 100 }
{
    for number in 1u64..11 {
        let value = base + number;
        let pieces: [(u64, &[u8]); 5] = [
            (number, b" at "),
            (number, b" from feed 1 a("),
            (value, b")\nfire rule 1 take "),
            (number, b"\nprint \""),
            (value, b"\"\n"),
        ];
        push_numbered(alloc, log, &pieces)?;
    }
    push(log, b"end running left - partials 1\n")
}

fn log_of_each(alloc: Global) -> Result<Bytes, NoMemory> {
    let mut log = Bytes::new(alloc);
    push(&mut log, HEAD)?;
    push_ten(alloc, &mut log, 0)?;
    push(&mut log, b"actor n\n")?;
    push_ten(alloc, &mut log, 100)?;
    Ok(log)
}

fn are_printed<R: Threads + Wait + Sync>(
    rt: &R,
    alloc: Global,
    words: &[&str],
) -> Result<bool, NoMemory> {
    let feed = ten_for_each(alloc)?;
    let log = log_of_each(alloc)?;
    let files = [("script", TWO_ACTORS), ("input", feed.bytes())];
    comes_to(rt, alloc, words, &files, Status::Done, log.bytes())
}

const TWO_WORKERS: &[&str] = &["run", "--ring", "64", "--workers", "2", "script", "input"];

const TWO_THAT_STEAL: &[&str] = &[
    "run",
    "--pool",
    "steal",
    "--ring",
    "64",
    "--workers",
    "2",
    "script",
    "input",
];

fn tell_two_actors<R: Print + Threads + Wait + Sync>(rt: &R, alloc: Global) -> bool {
    let one = told(rt, "two actors one feed", are_printed(rt, alloc, RUN));
    let two = are_printed(rt, alloc, TWO_WORKERS);
    let two = told(rt, "two actors two workers", two);
    let steal = are_printed(rt, alloc, TWO_THAT_STEAL);
    let steal = told(rt, "two actors stealing", steal);
    counted(rt, "runs of two actors", 3, one && two && steal)
}

/// Tells of all these runs, and answers whether all of them come to what they should.
pub fn are_right<R: Print + Threads + Wait + Sync>(rt: &R, alloc: Global) -> bool {
    let examples = examples_are_run(rt, alloc);
    let two_actors = tell_two_actors(rt, alloc);
    examples && two_actors
}
