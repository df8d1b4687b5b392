//! Runs of one actor, and their logs.

use crate::example::{EQUAL, HEAD, HIT, PAIR, PAIRS, REPLIES, RUN, Row, each_comes_to, joined};
use crate::telling::{counted, told};
use join_base::NoMemory;
use join_command::Status;
use std::alloc::Global;
use std::sync::Wait;
use std::thread::Threads;

/// Joins three kinds.
pub const THREE: &[u8] =
    b"message a(x: int) message b(x: int) message c(x: int) actor m { when a(x) & b(y) & c(z) { } }";

// Of two conjuncts the first one looks at the first kind alone.
const CONJUNCTS: &[u8] =
    b"message a(x: int) message b(x: int) actor m { when a(x) & b(y) if x == 1 && x == y { print \"hit \" \
      x y; } }";

// Joins two messages of one kind.
const GREATER: &[u8] =
    b"message a(x: int) message b(x: int) actor m { when a(x) & a(y) if x > y { print x y; } }";

// A script, a feed, and the log behind its head.
const EXAMPLES: &[Row] = &[
    (
        "clamped post",
        b"message n(v: int) message o(v: int) actor m { when n(v) { post m o(v + 1); print (v + 1); } }",
        b"m,n,9223372036854775807\n",
        b"1 at 1 from feed 1 n(9223372036854775807)\n\
          fire rule 1 take 1\n\
          post m o(9223372036854775807)\n\
          print \"9223372036854775808\"\n\
          2 at 2 from actor m o(9223372036854775807)\n\
          end running left 2 partials 1\n",
    ),
    (
        "conjunct cuts",
        CONJUNCTS,
        b"m,a,1\nm,a,2\nm,a,3\n",
        b"1 at 1 from feed 1 a(1)\n\
          2 at 2 from feed 1 a(2)\n\
          3 at 3 from feed 1 a(3)\n\
          end running left 1,2,3 partials 2\n",
    ),
    (
        "conjunct cuts and b stays",
        CONJUNCTS,
        b"m,a,1\nm,a,2\nm,a,3\nm,b,7\n",
        b"1 at 1 from feed 1 a(1)\n\
          2 at 2 from feed 1 a(2)\n\
          3 at 3 from feed 1 a(3)\n\
          4 at 4 from feed 1 b(7)\n\
          end running left 1,2,3,4 partials 3\n",
    ),
    (
        "equal guard",
        EQUAL,
        b"m,a,1\nm,a,2\nm,b,2\n",
        b"1 at 1 from feed 1 a(1)\n\
          2 at 2 from feed 1 a(2)\n\
          3 at 3 from feed 1 b(2)\n\
          fire rule 1 take 2,3\n\
          print \"hit 22\"\n\
          end running left 1 partials 2\n",
    ),
    (
        "first of equal definitions",
        b"message a(x: int) message b(x: int) actor m { when a(x) & b(y) { } when a(x) & b(y) { } }",
        PAIR,
        b"1 at 1 from feed 1 a(1)\n\
          2 at 2 from feed 1 b(2)\n\
          fire rule 1 take 1,2\n\
          end running left - partials 2\n",
    ),
    (
        "guard turns the order",
        GREATER,
        b"m,a,1\nm,a,2\n",
        b"1 at 1 from feed 1 a(1)\n\
          2 at 2 from feed 1 a(2)\n\
          fire rule 1 take 2,1\n\
          print \"21\"\n\
          end running left - partials 1\n",
    ),
    ("hit", PAIRS, PAIR, HIT),
    (
        "larger set later",
        b"message a(x: int) message b(x: int) actor m { when b(y) { } when a(x) & b(y) { } }",
        PAIR,
        b"1 at 1 from feed 1 a(1)\n\
          2 at 2 from feed 1 b(2)\n\
          fire rule 2 take 1,2\n\
          end running left - partials 2\n",
    ),
    (
        "older beats definition order",
        b"message a(x: int) message b(x: int) message c(x: int) actor m { when a(x) & b(y) { } when c(x) \
          & b(y) { } }",
        b"m,c,1\nm,a,2\nm,b,3\n",
        b"1 at 1 from feed 1 c(1)\n\
          2 at 2 from feed 1 a(2)\n\
          3 at 3 from feed 1 b(3)\n\
          fire rule 2 take 1,3\n\
          end running left 2 partials 3\n",
    ),
    (
        "older first",
        PAIRS,
        b"m,a,1\nm,a,2\nm,b,9\n",
        b"1 at 1 from feed 1 a(1)\n\
          2 at 2 from feed 1 a(2)\n\
          3 at 3 from feed 1 b(9)\n\
          fire rule 1 take 1,3\n\
          print \"hit 19\"\n\
          end running left 2 partials 2\n",
    ),
    (
        "one message in two places",
        GREATER,
        b"m,a,1\n",
        b"1 at 1 from feed 1 a(1)\n\
          end running left 1 partials 3\n",
    ),
    (
        "run with reply",
        REPLIES,
        b"m,q,4\n",
        b"1 at 1 from feed 1 q(4)\n\
          fire rule 1 take 1\n\
          reply 1 5\n\
          end running left - partials 1\n",
    ),
    (
        "same kind twice",
        b"message a(x: int) message b(x: int) actor m { when a(x) & a(y) { print x y; } }",
        b"m,a,1\nm,a,2\n",
        b"1 at 1 from feed 1 a(1)\n\
          2 at 2 from feed 1 a(2)\n\
          fire rule 1 take 1,2\n\
          print \"12\"\n\
          end running left - partials 1\n",
    ),
    (
        "stopped",
        b"message a(x: int) message b(x: int) actor m { when a(x) { print \"bye\"; stop; } }",
        b"m,a,1\nm,a,2\nm,b,3\n",
        b"1 at 1 from feed 1 a(1)\n\
          fire rule 1 take 1\n\
          print \"bye\"\n\
          late feed 1 2\n\
          end stopped left - partials 1\n",
    ),
    (
        "text and sum",
        b"message say(s: text) message a(x: int) actor m { when say(s) & a(x) if s == \"go\" || x > 5 { \
          print s (x + x - 1); } }",
        b"m,say,no\nm,a,3\nm,a,6\n",
        b"1 at 1 from feed 1 say(\"no\")\n\
          2 at 2 from feed 1 a(3)\n\
          3 at 3 from feed 1 a(6)\n\
          fire rule 1 take 1,3\n\
          print \"no11\"\n\
          end running left 2 partials 2\n",
    ),
    (
        "three patterns",
        THREE,
        b"m,c,1\nm,a,2\nm,a,3\nm,b,4\n",
        b"1 at 1 from feed 1 c(1)\n\
          2 at 2 from feed 1 a(2)\n\
          3 at 3 from feed 1 a(3)\n\
          4 at 4 from feed 1 b(4)\n\
          fire rule 1 take 2,4,1\n\
          end running left 3 partials 2\n",
    ),
    (
        "wider window fires",
        b"message a(x: int) message b(x: int) message c(x: int) actor m { when a(x) & b(y) within 2 { } \
          when a(x) & b(y) within 3 { } }",
        b"m,a,1\nm,c,2\nm,b,3\n",
        b"1 at 1 from feed 1 a(1)\n\
          2 at 2 from feed 1 c(2)\n\
          3 at 3 from feed 1 b(3)\n\
          fire rule 2 take 1,3\n\
          end running left 2 partials 2\n",
    ),
    (
        "window of one",
        b"message a(x: int) message b(x: int) actor m { when a(x) & b(y) within 1 { } }",
        PAIR,
        b"1 at 1 from feed 1 a(1)\n\
          2 at 2 from feed 1 b(2)\n\
          end running left 1,2 partials 2\n",
    ),
    (
        "window of two",
        b"message a(x: int) message b(x: int) actor m { when a(x) & b(y) within 2 { } }",
        b"m,a,1\nm,a,2\nm,b,3\n",
        b"1 at 1 from feed 1 a(1)\n\
          2 at 2 from feed 1 a(2)\n\
          3 at 3 from feed 1 b(3)\n\
          fire rule 1 take 2,3\n\
          end running left 1 partials 1\n",
    ),
    (
        "clamped reply to the older",
        b"message q(x: int) message n(x: int) actor m { when n(x) & q(y) { reply 2 x + y; } }",
        b"m,q,9223372036854775807\nm,n,1\n",
        b"1 at 1 from feed 1 q(9223372036854775807)\n\
          2 at 2 from feed 1 n(1)\n\
          fire rule 1 take 2,1\n\
          reply 1 9223372036854775807\n\
          end running left - partials 1\n",
    ),
];

// One worker and a place for one message, and the most of both.
const LEAST: &[&str] = &["run", "--ring", "1", "--workers", "1", "script", "input"];

const MOST: &[&str] = &["run", "--ring=4096", "--workers=64", "script", "input"];

// By any numbers the log of one actor and one feed is the same.
const NUMBERS: &[&[&str]] = &[RUN, LEAST, MOST];

// Whether a run by each of the words has this log.
fn is_logged<R: Threads + Wait + Sync>(
    rt: &R,
    alloc: Global,
    numbers: &[&[&str]],
    script: &[u8],
    feed: &[u8],
    rest: &[u8],
) -> Result<bool, NoMemory> {
    let files = [("script", script), ("input", feed)];
    let log = joined(alloc, &[HEAD, rest])?;
    each_comes_to(rt, alloc, numbers, &files, Status::Done, log.bytes())
}

/// Each script is run on its feed by the least, the usual and the most numbers of workers and places.
pub fn tell_logs<R: Print + Threads + Wait + Sync>(
    rt: &R,
    alloc: Global,
    heading: &str,
    rows: &[Row],
) -> bool {
    let mut all = true;
    for (name, script, feed, rest) in rows {
        let found = is_logged(rt, alloc, NUMBERS, script, feed, rest);
        all &= told(rt, name, found);
    }
    counted(rt, heading, rows.len(), all)
}

/// Tells of all runs of one actor, and answers whether all of them come to what they should.
pub fn are_right<R: Print + Threads + Wait + Sync>(rt: &R, alloc: Global) -> bool {
    tell_logs(rt, alloc, "runs of one actor", EXAMPLES)
}
