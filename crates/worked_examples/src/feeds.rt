//! Feeds that are read, and feeds that are refused.

use crate::example::{HIT, PAIRS, RUN, Row};
use crate::runs::tell_logs;
use crate::telling::tell_rows;
use join_command::Status;
use std::alloc::Global;
use std::sync::Wait;
use std::thread::Threads;

// Takes integers and texts.
const SAYS: &[u8] = b"message a(x: int) message say(s: text) actor m { when say(s) { print s; } }";

// A script, a feed, and what it is refused with.
const REFUSED: &[Row] = &[
    (
        "feed actor alone",
        SAYS,
        b"m\n",
        b"refused feed 1 row 1 WrongCount\n",
    ),
    (
        "feed cut before a value",
        PAIRS,
        b"m,a,1\nm,b,",
        b"refused feed 1 row 2 BadInt\n",
    ),
    (
        "feed decimal point",
        SAYS,
        b"m,a,1.5\n",
        b"refused feed 1 row 1 BadInt\n",
    ),
    (
        "feed empty integer",
        SAYS,
        b"m,a,\n",
        b"refused feed 1 row 1 BadInt\n",
    ),
    (
        "feed fault in second row",
        PAIRS,
        b"m,a,1\nm",
        b"refused feed 1 row 2 WrongCount\n",
    ),
    (
        "feed integer too big",
        SAYS,
        b"m,a,9223372036854775808\n",
        b"refused feed 1 row 1 BadInt\n",
    ),
    (
        "feed no text",
        SAYS,
        b"m,say,\xFF\n",
        b"refused feed 1 row 1 NotText\n",
    ),
    (
        "feed no value",
        SAYS,
        b"m,a\n",
        b"refused feed 1 row 1 WrongCount\n",
    ),
    (
        "feed plus sign",
        SAYS,
        b"m,a,+1\n",
        b"refused feed 1 row 1 BadInt\n",
    ),
    (
        "feed text too long",
        SAYS,
        b"m,say,kkkkkkkkkkkkkkkkkkkkkkkkkkkkkkkkkkkkkkkkkkkkkkkkkkkkkkkkkkkkkkkkkkkkkkkkkkkkkkkkkkkkkkkkkk\
          kkkkkkkkkkkkkkkkkkkkkkkkkkkkkkk\n",
        b"refused feed 1 row 1 TooLong\n",
    ),
    (
        "feed unknown actor",
        SAYS,
        b"x,a,1\n",
        b"refused feed 1 row 1 UnknownActor\n",
    ),
    (
        "feed unknown kind",
        SAYS,
        b"m,z,1\n",
        b"refused feed 1 row 1 UnknownMessage\n",
    ),
    (
        "feed value too many",
        SAYS,
        b"m,a,1,2\n",
        b"refused feed 1 row 1 WrongCount\n",
    ),
    (
        "feed first field in fault",
        SAYS,
        b"x,z",
        b"refused feed 1 row 1 UnknownActor\n",
    ),
    (
        "feed first of two rows in fault",
        SAYS,
        b"m,a,1\nm,z,1\nx,a,1\n",
        b"refused feed 1 row 2 UnknownMessage\n",
    ),
    (
        "feed row behind a quoted line end",
        SAYS,
        b"m,a,1\r\nm,say,\"k\nk\"\nm,a,\n",
        b"refused feed 1 row 3 BadInt\n",
    ),
];

// A script, a feed, and the log behind its head.
const READ: &[Row] = &[
    ("empty feed", PAIRS, b"", b"end running left - partials 1\n"),
    (
        "feed leading zeros",
        SAYS,
        b"m,a,007\n",
        b"1 at 1 from feed 1 a(7)\n\
          end running left 1 partials 1\n",
    ),
    (
        "feed least integer",
        SAYS,
        b"m,a,-9223372036854775808\n",
        b"1 at 1 from feed 1 a(-9223372036854775808)\n\
          end running left 1 partials 1\n",
    ),
    (
        "feed longest text",
        SAYS,
        b"m,say,kkkkkkkkkkkkkkkkkkkkkkkkkkkkkkkkkkkkkkkkkkkkkkkkkkkkkkkkkkkkkkkkkkkkkkkkkkkkkkkkkkkkkkkkkk\
          kkkkkkkkkkkkkkkkkkkkkkkkkkkkkk\n",
        b"1 at 1 from feed 1 \
          say(\"kkkkkkkkkkkkkkkkkkkkkkkkkkkkkkkkkkkkkkkkkkkkkkkkkkkkkkkkkkkkkkkkkkkkkkkkkkkkkkkkkkkkkkkkkkk\
          kkkkkkkkkkkkkkkkkkkkkkkkkkkkk\")\n\
          fire rule 1 take 1\n\
          print \
          \"kkkkkkkkkkkkkkkkkkkkkkkkkkkkkkkkkkkkkkkkkkkkkkkkkkkkkkkkkkkkkkkkkkkkkkkkkkkkkkkkkkkkkkkkkkkkkkk\
          kkkkkkkkkkkkkkkkkkkkkkkkk\"\n\
          end running left - partials 1\n",
    ),
    (
        "feed quoted text",
        SAYS,
        b"m,say,\"a \"\"b\"\"\"\n",
        b"1 at 1 from feed 1 say(\"a \\\"b\\\"\")\n\
          fire rule 1 take 1\n\
          print \"a \\\"b\\\"\"\n\
          end running left - partials 1\n",
    ),
    (
        "feed with carriage returns",
        PAIRS,
        b"m,a,1\r\nm,b,2\r\n",
        HIT,
    ),
    ("feed without last line end", PAIRS, b"m,a,1\nm,b,2", HIT),
    (
        "feed least integer with a carriage return",
        SAYS,
        b"m,a,-9223372036854775808\r\n",
        b"1 at 1 from feed 1 a(-9223372036854775808)\n\
          end running left 1 partials 1\n",
    ),
    (
        "feed quoted kind and comma",
        SAYS,
        b"m,\"say\",\"a,b\"\n",
        b"1 at 1 from feed 1 say(\"a,b\")\n\
          fire rule 1 take 1\n\
          print \"a,b\"\n\
          end running left - partials 1\n",
    ),
];

fn are_refused<R: Print + Threads + Wait + Sync>(rt: &R, alloc: Global) -> bool {
    let heading = "feeds that are refused";
    tell_rows(rt, alloc, heading, RUN, Status::FeedRefused, REFUSED)
}

fn are_read<R: Print + Threads + Wait + Sync>(rt: &R, alloc: Global) -> bool {
    tell_logs(rt, alloc, "feeds that are read", READ)
}

/// Tells of all feeds, and answers whether all of them come to what they should.
pub fn are_right<R: Print + Threads + Wait + Sync>(rt: &R, alloc: Global) -> bool {
    let refused = are_refused(rt, alloc);
    let read = are_read(rt, alloc);
    refused && read
}
