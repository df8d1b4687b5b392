//! Whole logs that are accepted or refused.

use crate::example::{PAIRS, REPLAY, REPLIES, Row};
use crate::telling::tell_rows;
use join_command::Status;
use std::alloc::Global;
use std::sync::Wait;
use std::thread::Threads;

// Two actors that send the message on as it is.
const CIRCLE: &[u8] =
    b"message ping(n: int) actor p { when ping(n) { post q ping(n); } } actor q { when ping(n) { post p \
      ping(n); } }";

const ACCEPTED: &[Row] = &[
    (
        "replay circle",
        CIRCLE,
        b"joinlog 1 arrivals 3 partials 65536 feeds 1\n\
          actor p\n\
          1 from actor q ping(7)\n\
          fire rule 1 take 1\n\
          post q ping(7)\n\
          end running left - partials 1\n\
          actor q\n\
          1 from actor p ping(7)\n\
          fire rule 1 take 1\n\
          post p ping(7)\n\
          end running left - partials 1\n",
        b"accepted 2\n",
    ),
    (
        "replay reply",
        REPLIES,
        b"joinlog 2 arrivals 50000 partials 65536 feeds 1\n\
          actor m\n\
          1 at 1 from feed 1 q(4)\n\
          fire rule 1 take 1\n\
          reply 1 5\n\
          end running left - partials 1\n",
        b"accepted 1\n",
    ),
];

const REFUSED: &[Row] = &[
    (
        "replay circle of equal stamps",
        CIRCLE,
        b"joinlog 2 arrivals 3 partials 65536 feeds 1\n\
          actor p\n\
          1 at 1 from actor q ping(7)\n\
          fire rule 1 take 1\n\
          post q ping(7)\n\
          end running left - partials 1\n\
          actor q\n\
          1 at 1 from actor p ping(7)\n\
          fire rule 1 take 1\n\
          post p ping(7)\n\
          end running left - partials 1\n",
        b"refused log line 3 Differs\n",
    ),
    (
        "replay circle of rising stamps",
        CIRCLE,
        b"joinlog 2 arrivals 3 partials 65536 feeds 1\n\
          actor p\n\
          1 at 2 from actor q ping(7)\n\
          fire rule 1 take 1\n\
          post q ping(7)\n\
          end running left - partials 1\n\
          actor q\n\
          1 at 1 from actor p ping(7)\n\
          fire rule 1 take 1\n\
          post p ping(7)\n\
          end running left - partials 1\n",
        b"refused log line 8 Differs\n",
    ),
    (
        "replay cut between lines",
        PAIRS,
        b"joinlog 1 arrivals 50000 partials 65536 feeds 1\n\
          actor m\n\
          1 from feed 1 a(1)\n\
          2 from feed 1 b(2)\n",
        b"refused log line 5 LogFault\n",
    ),
    (
        "replay cut in a line",
        PAIRS,
        b"joinlog 1 arrivals 50000 partials 65536 feeds 1\n\
          actor m\n\
          1 from feed 1 a(1)\n\
          2 from feed",
        b"refused log line 4 LogFault\n",
    ),
    (
        "replay reply in old version",
        REPLIES,
        b"joinlog 1 arrivals 50000 partials 65536 feeds 1\n\
          actor m\n\
          1 from feed 1 q(4)\n\
          fire rule 1 take 1\n\
          end running left - partials 1\n",
        b"refused log line 1 LogFault\n",
    ),
];

fn are_accepted<R: Print + Threads + Wait + Sync>(rt: &R, alloc: Global) -> bool {
    tell_rows(
        rt,
        alloc,
        "whole logs that are accepted",
        REPLAY,
        Status::Done,
        ACCEPTED,
    )
}

fn are_refused<R: Print + Threads + Wait + Sync>(rt: &R, alloc: Global) -> bool {
    let heading = "whole logs that are refused";
    tell_rows(rt, alloc, heading, REPLAY, Status::LogRefused, REFUSED)
}

/// Tells of all whole logs, and answers whether all of them come to what they should.
pub fn are_right<R: Print + Threads + Wait + Sync>(rt: &R, alloc: Global) -> bool {
    let accepted = are_accepted(rt, alloc);
    let refused = are_refused(rt, alloc);
    accepted && refused
}
