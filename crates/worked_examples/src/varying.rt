//! Runs whose log varies with the threads, and all of their right logs.

use crate::example::{PAIRS, RUN, is_one_of};
use crate::telling::{counted, told};
use std::alloc::Global;
use std::sync::Wait;
use std::thread::Threads;

// A run that ends without a fault, and all logs that it may print.
#[derive(Clone, Copy)]
struct Varying {
    name: &'static str,
    words: &'static [&'static str],
    files: &'static [(&'static str, &'static [u8])],
    logs: &'static [&'static [u8]],
}

const TWO_FEEDS: &[&str] = &["run", "script", "feed-1", "feed-2"];

const OF_TWO_FEEDS: &[Varying] = &[
    // One message from each feed, in either order.
    Varying {
        name: "same feed twice",
        words: &["run", "script", "feed-1", "feed-1"],
        files: &[("script", PAIRS), ("feed-1", b"m,a,1\n")],
        logs: &[
            b"joinlog 2 arrivals 50000 partials 65536 feeds 2\n\
              actor m\n\
              1 at 1 from feed 1 a(1)\n\
              2 at 2 from feed 2 a(1)\n\
              end running left 1,2 partials 3\n",
            b"joinlog 2 arrivals 50000 partials 65536 feeds 2\n\
              actor m\n\
              1 at 1 from feed 2 a(1)\n\
              2 at 2 from feed 1 a(1)\n\
              end running left 1,2 partials 3\n",
        ],
    },
    // The six ways to merge two messages with two. The older of a kind is taken first, so the pairs are the same in
    // all.
    Varying {
        name: "two by two",
        words: TWO_FEEDS,
        files: &[
            ("script", PAIRS),
            ("feed-1", b"m,a,1\nm,a,2\n"),
            ("feed-2", b"m,b,3\nm,b,4\n"),
        ],
        logs: &[
            b"joinlog 2 arrivals 50000 partials 65536 feeds 2\n\
              actor m\n\
              1 at 1 from feed 1 a(1)\n\
              2 at 2 from feed 1 a(2)\n\
              3 at 3 from feed 2 b(3)\n\
              fire rule 1 take 1,3\n\
              print \"hit 13\"\n\
              4 at 4 from feed 2 b(4)\n\
              fire rule 1 take 2,4\n\
              print \"hit 24\"\n\
              end running left - partials 1\n",
            b"joinlog 2 arrivals 50000 partials 65536 feeds 2\n\
              actor m\n\
              1 at 1 from feed 1 a(1)\n\
              2 at 2 from feed 2 b(3)\n\
              fire rule 1 take 1,2\n\
              print \"hit 13\"\n\
              3 at 3 from feed 1 a(2)\n\
              4 at 4 from feed 2 b(4)\n\
              fire rule 1 take 3,4\n\
              print \"hit 24\"\n\
              end running left - partials 1\n",
            b"joinlog 2 arrivals 50000 partials 65536 feeds 2\n\
              actor m\n\
              1 at 1 from feed 1 a(1)\n\
              2 at 2 from feed 2 b(3)\n\
              fire rule 1 take 1,2\n\
              print \"hit 13\"\n\
              3 at 3 from feed 2 b(4)\n\
              4 at 4 from feed 1 a(2)\n\
              fire rule 1 take 4,3\n\
              print \"hit 24\"\n\
              end running left - partials 1\n",
            b"joinlog 2 arrivals 50000 partials 65536 feeds 2\n\
              actor m\n\
              1 at 1 from feed 2 b(3)\n\
              2 at 2 from feed 1 a(1)\n\
              fire rule 1 take 2,1\n\
              print \"hit 13\"\n\
              3 at 3 from feed 1 a(2)\n\
              4 at 4 from feed 2 b(4)\n\
              fire rule 1 take 3,4\n\
              print \"hit 24\"\n\
              end running left - partials 1\n",
            b"joinlog 2 arrivals 50000 partials 65536 feeds 2\n\
              actor m\n\
              1 at 1 from feed 2 b(3)\n\
              2 at 2 from feed 1 a(1)\n\
              fire rule 1 take 2,1\n\
              print \"hit 13\"\n\
              3 at 3 from feed 2 b(4)\n\
              4 at 4 from feed 1 a(2)\n\
              fire rule 1 take 4,3\n\
              print \"hit 24\"\n\
              end running left - partials 1\n",
            b"joinlog 2 arrivals 50000 partials 65536 feeds 2\n\
              actor m\n\
              1 at 1 from feed 2 b(3)\n\
              2 at 2 from feed 2 b(4)\n\
              3 at 3 from feed 1 a(1)\n\
              fire rule 1 take 3,1\n\
              print \"hit 13\"\n\
              4 at 4 from feed 1 a(2)\n\
              fire rule 1 take 4,2\n\
              print \"hit 24\"\n\
              end running left - partials 1\n",
        ],
    },
];

const TWO_WORKERS: &[&str] = &["run", "--workers", "2", "script", "input"];

// The third actor takes the two posts in either order, and the fourth one takes what the third one posts in that
// order.
const POSTERS: &[(&str, &[u8])] = &[
    (
        "script",
        b"message g(n: int) actor x { when g(n) { post d g(n); } } actor y { when g(n) { post d g(n); } } \
          actor d { when g(n) { post e g(n); } } actor e { when g(n) { } }",
    ),
    ("input", b"x,g,1\ny,g,2\n"),
];

const POSTED: &[&[u8]] = &[
    b"joinlog 2 arrivals 50000 partials 65536 feeds 1\n\
      actor x\n\
      1 at 1 from feed 1 g(1)\n\
      fire rule 1 take 1\n\
      post d g(1)\n\
      end running left - partials 1\n\
      actor y\n\
      1 at 1 from feed 1 g(2)\n\
      fire rule 1 take 1\n\
      post d g(2)\n\
      end running left - partials 1\n\
      actor d\n\
      1 at 2 from actor x g(1)\n\
      fire rule 1 take 1\n\
      post e g(1)\n\
      2 at 3 from actor y g(2)\n\
      fire rule 1 take 2\n\
      post e g(2)\n\
      end running left - partials 1\n\
      actor e\n\
      1 at 3 from actor d g(1)\n\
      fire rule 1 take 1\n\
      2 at 4 from actor d g(2)\n\
      fire rule 1 take 2\n\
      end running left - partials 1\n",
    b"joinlog 2 arrivals 50000 partials 65536 feeds 1\n\
      actor x\n\
      1 at 1 from feed 1 g(1)\n\
      fire rule 1 take 1\n\
      post d g(1)\n\
      end running left - partials 1\n\
      actor y\n\
      1 at 1 from feed 1 g(2)\n\
      fire rule 1 take 1\n\
      post d g(2)\n\
      end running left - partials 1\n\
      actor d\n\
      1 at 2 from actor y g(2)\n\
      fire rule 1 take 1\n\
      post e g(2)\n\
      2 at 3 from actor x g(1)\n\
      fire rule 1 take 2\n\
      post e g(1)\n\
      end running left - partials 1\n\
      actor e\n\
      1 at 3 from actor d g(2)\n\
      fire rule 1 take 1\n\
      2 at 4 from actor d g(1)\n\
      fire rule 1 take 2\n\
      end running left - partials 1\n",
];

const OF_TWO_POSTERS: &[Varying] = &[
    Varying {
        name: "two posters one target",
        words: RUN,
        files: POSTERS,
        logs: POSTED,
    },
    Varying {
        name: "two posters two workers",
        words: TWO_WORKERS,
        files: POSTERS,
        logs: POSTED,
    },
];

fn tell_varying<R: Print + Threads + Wait + Sync>(
    rt: &R,
    alloc: Global,
    heading: &str,
    runs: &[Varying],
) -> bool {
    let mut all = true;
    for run in runs {
        let found = is_one_of(rt, alloc, run.words, run.files, run.logs);
        all &= told(rt, run.name, found);
    }
    counted(rt, heading, runs.len(), all)
}

fn feeds_are_merged<R: Print + Threads + Wait + Sync>(rt: &R, alloc: Global) -> bool {
    tell_varying(rt, alloc, "runs of two feeds", OF_TWO_FEEDS)
}

fn posts_are_merged<R: Print + Threads + Wait + Sync>(rt: &R, alloc: Global) -> bool {
    tell_varying(rt, alloc, "runs of two posters", OF_TWO_POSTERS)
}

/// Tells of all these runs, and answers whether all of them come to what they should.
pub fn are_right<R: Print + Threads + Wait + Sync>(rt: &R, alloc: Global) -> bool {
    let feeds = feeds_are_merged(rt, alloc);
    let posts = posts_are_merged(rt, alloc);
    feeds && posts
}
