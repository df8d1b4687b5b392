//! What a person is told of a run besides its log: actors that ended at a limit, and what is remarked.
use fault_places::{EndWatch, LIMITS, Tie, feed_remark, push_tie};
use join_base::{Bytes, NoMemory};
use script_hints::script_of;
use std::alloc::Global;

// What is told of a log that comes in pieces of so many bytes.
fn ended_note(alloc: Global, log: &[u8], size: usize) -> Result<Bytes, NoMemory> {
    let mut watch = EndWatch::new(alloc);
    for piece in log.chunks(size.max(1)) {
        watch.see(piece)?;
    }
    watch.note()
}

const ENDED_LOG: &[u8] = b"joinlog 2 arrivals 3 partials 2 feeds 2
actor m
1 at 1 from feed 1 a(1)
2 at 2 from feed 1 say(\"end jammed\")
late feed 1 3
late actor n 2
end jammed left - partials 3
actor n
1 at 3 from actor m a(1)
end running left 1 partials 2
actor o
1 at 1 from feed 2 a(1)
2 at 2 from feed 2 a(1)
3 at 3 from feed 2 a(1)
late feed 2 1
end spent left - partials 1
";

const ENDED: &[u8] =
    b"joinactors: actor m ended behind arrival 2: it would keep more than 2 partial matches (--partials), and did not look at 5 later messages
joinactors: actor o ended behind arrival 3: it records at most 3 messages (--arrivals), and did not look at 1 later message
";

// A log with limits of one.
const ENDED_AT_ONE_LOG: &[u8] = b"joinlog 2 arrivals 1 partials 1 feeds 1
actor m
1 at 1 from feed 1 a(1)
end jammed left - partials 1
actor n
1 at 2 from feed 1 a(1)
late feed 1 1
end spent left - partials 1
";

const ENDED_AT_ONE: &[u8] =
    b"joinactors: actor m ended behind arrival 1: it would keep more than 1 partial match (--partials), and did not look at 0 later messages
joinactors: actor n ended behind arrival 1: it records at most 1 message (--arrivals), and did not look at 1 later message
";

// What is told of the summary of a load, which names no actor that ended.
const SUMMARY: &[u8] = b"load 3 feeds 4
actor m arrivals 3
";

fn is_note(note: Result<Bytes, NoMemory>, want: &[u8]) -> bool {
    match note {
        Ok(note) => note.bytes() == want,
        Err(NoMemory) => false,
    }
}

// Whether the same is told of a log, whatever the size of its pieces.
fn is_told_in_pieces(alloc: Global, log: &[u8], want: &[u8]) -> bool {
    for place in 0..log.len() {
        if !is_note(ended_note(alloc, log, place.saturating_add(1)), want) {
            return false;
        }
    }
    true
}

fn is_run_told(alloc: Global) -> bool {
    is_told_in_pieces(alloc, ENDED_LOG, ENDED)
}

fn is_end_at_one_told(alloc: Global) -> bool {
    is_note(
        ended_note(alloc, ENDED_AT_ONE_LOG, ENDED_AT_ONE_LOG.len()),
        ENDED_AT_ONE,
    )
}

fn is_summary_told(alloc: Global) -> bool {
    is_told_in_pieces(alloc, SUMMARY, LIMITS)
}

#[test]
fn actors_that_ended_are_told(rt: HostRuntime) {
    assert!(rt;
        is_run_told(rt.alloc()) && is_end_at_one_told(rt.alloc()) && is_summary_told(rt.alloc())
    );
}

// Feeds, and what is remarked of each.
const REMARKS: &[(&[u8], &[u8])] = &[
    (b"m,a,1\nm,say,\"one\n\"\"two\"\"\"\nm,a,2\n", b""),
    (b"m,say,5\" wide\nm,a,2\n", b""),
    (b"m,say,\"one,\"\r\nm,say,\"\"\n", b""),
    (
        b"m,a,1\nm,say,\"open\nm,a,2\nm,a,3\n",
        b"f:2:7: note: the quote that opens here is never closed, and takes the rest of the feed as one value\n",
    ),
    (
        b"\xEF\xBB\xBF\"m,a,2\n",
        b"f:1:2: note: the quote that opens here is never closed, and takes the rest of the feed as one value\n",
    ),
    (
        b"m,say,\"a\" b,\"c\"\"\n",
        b"f:1:13: note: the quote that opens here is never closed, and takes the rest of the feed as one value\n",
    ),
    (
        b"\"\"\"\nm,a,1\n",
        b"f:1:1: note: the quote that opens here is never closed, and takes the rest of the feed as one value\n",
    ),
];

fn remarked_feeds() -> &'static [(&'static [u8], &'static [u8])] {
    REMARKS
}

fn are_remarked(alloc: Global, cases: &[(&[u8], &[u8])]) -> bool {
    for (feed, want) in cases {
        if !is_note(feed_remark(alloc, "f", feed), want) {
            return false;
        }
    }
    true
}

#[test]
fn quotes_that_are_never_closed_are_remarked(rt: HostRuntime) {
    assert!(rt; are_remarked(rt.alloc(), remarked_feeds()));
}

const HALL: &[u8] = b"message a(x: int)
actor n {
  when a(x) { }
}
actor m {
  when a(x) { }
  when a(x) & a(y) & a(z) if x == y && x == z { }
}
";

fn tie() -> Tie<'static> {
    Tie {
        left_kind: b"paid",
        right_kind: b"confirm",
        link_kind: b"order",
        left: b"p",
        right: b"x",
    }
}

fn tie_remark(alloc: Global) -> Result<Bytes, NoMemory> {
    let script = script_of(alloc, HALL)?;
    let mut out = Bytes::new(alloc);
    push_tie(&mut out, "hall.join", &script, 1, 1, tie())?;
    Ok(out)
}

fn is_tie_remarked(alloc: Global) -> bool {
    is_note(
        tie_remark(alloc),
        b"hall.join:7:3: note: paid and confirm are tied only through order, so pairs of them are kept: add p == x\n",
    )
}

#[test]
fn patterns_that_keep_each_other_are_remarked(rt: HostRuntime) {
    assert!(rt; is_tie_remarked(rt.alloc()));
}
