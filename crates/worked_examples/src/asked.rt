//! The answers of rows, behind the log of their run.

use crate::example::{HEAD, HIT, PAIR, PAIRS, REPLIES, Row, comes_to, joined};
use crate::telling::{counted, told};
use join_base::NoMemory;
use join_command::Status;
use std::alloc::Global;
use std::sync::Wait;
use std::thread::Threads;

const ASK: &[&str] = &["ask", "script", "input"];

// A script, a feed, and what stands behind the head of the log.
const EXAMPLES: &[Row] = &[
    (
        "ask clamped",
        REPLIES,
        b"m,q,9223372036854775807\n",
        b"1 at 1 from feed 1 q(9223372036854775807)\n\
          fire rule 1 take 1\n\
          reply 1 9223372036854775807\n\
          end running left - partials 1\n\
          answer feed 1 row 1 9223372036854775807\n",
    ),
    (
        "ask one",
        REPLIES,
        b"m,q,4\n",
        b"1 at 1 from feed 1 q(4)\n\
          fire rule 1 take 1\n\
          reply 1 5\n\
          end running left - partials 1\n\
          answer feed 1 row 1 5\n",
    ),
    (
        "ask second pattern",
        b"message a(x: int) message b(x: int) actor m { when a(x) & b(y) { reply 2 x + y; } } actor n { }",
        b"n,a,7\nm,a,1\nm,b,2\n",
        b"1 at 1 from feed 1 a(1)\n\
          2 at 2 from feed 1 b(2)\n\
          fire rule 1 take 1,2\n\
          reply 2 3\n\
          end running left - partials 1\n\
          actor n\n\
          1 at 1 from feed 1 a(7)\n\
          end running left 1 partials 0\n\
          answer feed 1 row 3 3\n",
    ),
    (
        "ask text",
        b"message say(s: text) actor m { when say(s) { reply 1 s; } }",
        b"m,say,go\n",
        b"1 at 1 from feed 1 say(\"go\")\n\
          fire rule 1 take 1\n\
          reply 1 \"go\"\n\
          end running left - partials 1\n\
          answer feed 1 row 1 \"go\"\n",
    ),
    ("ask without reply", PAIRS, PAIR, HIT),
    (
        "a row that waits has no answer",
        b"message q(x: int) message go() actor m { when q(x) & go() { reply 1 x; reply 2 0; } }",
        b"m,q,7\nm,q,8\nm,go\n",
        b"1 at 1 from feed 1 q(7)\n\
          2 at 2 from feed 1 q(8)\n\
          3 at 3 from feed 1 go()\n\
          fire rule 1 take 1,3\n\
          reply 1 7\n\
          reply 3 0\n\
          end running left 2 partials 2\n\
          answer feed 1 row 1 7\n\
          answer feed 1 row 3 0\n",
    ),
];

fn is_answered<R: Threads + Wait + Sync>(
    rt: &R,
    alloc: Global,
    script: &[u8],
    feed: &[u8],
    rest: &[u8],
) -> Result<bool, NoMemory> {
    let files = [("script", script), ("input", feed)];
    let text = joined(alloc, &[HEAD, rest])?;
    comes_to(rt, alloc, ASK, &files, Status::Done, text.bytes())
}

fn tell_answers<R: Print + Threads + Wait + Sync>(rt: &R, alloc: Global, rows: &[Row]) -> bool {
    let mut all = true;
    for (name, script, feed, rest) in rows {
        let found = is_answered(rt, alloc, script, feed, rest);
        all &= told(rt, name, found);
    }
    counted(rt, "answers of rows", rows.len(), all)
}

// A reply to a pattern that there is not.
const REFUSED: &[(&str, &[u8])] = &[
    (
        "script",
        b"message q(x: int) actor m { when q(x) { reply 2 x; } }",
    ),
    ("input", b"m,q,4\n"),
];

/// Tells of the answers of rows, and answers whether all of them come to what they should.
pub fn are_right<R: Print + Threads + Wait + Sync>(rt: &R, alloc: Global) -> bool {
    let printed = b"refused script 46 BadReply\n";
    let found = comes_to(rt, alloc, ASK, REFUSED, Status::ScriptRefused, printed);
    let refused = told(rt, "ask reply to no pattern", found);
    tell_answers(rt, alloc, EXAMPLES) && refused
}
