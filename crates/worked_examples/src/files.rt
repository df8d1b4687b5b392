//! Files that are missing, that are named more than once, or that are not looked at any more.

use crate::example::{Example, PAIR, PAIRS, REPLAY, RUN};
use crate::telling::tell_examples;
use join_command::Status;
use std::alloc::Global;
use std::sync::Wait;
use std::thread::Threads;

const EXAMPLES: &[Example<'static>] = &[
    Example {
        name: "fault in second feed",
        words: &["run", "script", "feed-1", "feed-2"],
        files: &[
            ("script", PAIRS),
            ("feed-1", PAIR),
            ("feed-2", b"m,a,1\nm,a\n"),
        ],
        status: Status::FeedRefused,
        printed: b"refused feed 2 row 2 WrongCount\n",
    },
    Example {
        name: "missing feed",
        words: RUN,
        files: &[("script", PAIRS)],
        status: Status::ReadFault,
        printed: b"",
    },
    Example {
        name: "missing script",
        words: RUN,
        files: &[("input", PAIR)],
        status: Status::ReadFault,
        printed: b"",
    },
    Example {
        name: "missing second feed",
        words: &["run", "script", "feed-1", "feed-2"],
        files: &[("script", PAIRS), ("feed-1", PAIR)],
        status: Status::ReadFault,
        printed: b"",
    },
    Example {
        name: "refused feed before missing feed",
        words: &["run", "script", "feed-1", "feed-2"],
        files: &[("script", PAIRS), ("feed-1", b"m,a\n")],
        status: Status::FeedRefused,
        printed: b"refused feed 1 row 1 WrongCount\n",
    },
    Example {
        name: "refused script before missing feed",
        words: RUN,
        files: &[("script", b"message a(x: int) actor m { when b(x) { } }")],
        status: Status::ScriptRefused,
        printed: b"refused script 33 UnknownMessage\n",
    },
    Example {
        name: "sixteen empty feeds",
        words: &[
            "run", "script", "input", "input", "input", "input", "input", "input", "input",
            "input", "input", "input", "input", "input", "input", "input", "input", "input",
        ],
        files: &[("script", PAIRS), ("input", b"")],
        status: Status::Done,
        printed: b"joinlog 2 arrivals 50000 partials 65536 feeds 16\n\
          actor m\n\
          end running left - partials 1\n",
    },
    Example {
        name: "missing log",
        words: REPLAY,
        files: &[("script", PAIRS)],
        status: Status::ReadFault,
        printed: b"",
    },
    Example {
        name: "fault in second and third feed",
        words: &["run", "script", "feed-1", "feed-2", "feed-2"],
        files: &[
            (
                "script",
                b"message a(x: int) message say(s: text) actor m { when say(s) { print s; } }",
            ),
            ("feed-1", b"m,a,7"),
            ("feed-2", b"x,a,1"),
        ],
        status: Status::FeedRefused,
        printed: b"refused feed 2 row 1 UnknownActor\n",
    },
];

/// Tells of all files, and answers whether all of them come to what they should.
pub fn are_right<R: Print + Threads + Wait + Sync>(rt: &R, alloc: Global) -> bool {
    tell_examples(rt, alloc, "calls on several files or none", EXAMPLES)
}
