//! Feeds, their posts and their faults.
ghost use Rattle.script_types.specs.Typed.{IsTyped};

use join_base::{Message, ValueRef};
use script_check::read_plan;
use script_types::Plan;
use sensor_feed::{FeedCause, FeedFault, feed_law, read_feed};
use std::alloc::Global;

const SCRIPT: &[u8] =
    b"message a(x: int) message say(x: text) message both(x: int, y: text) actor m { } actor n { }";

const REFUSED: &[(&[u8], u64, FeedCause)] = &[
    (b"x", 1, FeedCause::UnknownActor),
    (b"x,z", 1, FeedCause::UnknownActor),
    (b"a,m,1", 1, FeedCause::UnknownActor),
    (b" m,a,1", 1, FeedCause::UnknownActor),
    (b"m,", 1, FeedCause::UnknownMessage),
    (b"m,m,1", 1, FeedCause::UnknownMessage),
    (b"m,a,z,2", 1, FeedCause::WrongCount),
    (b"m,a,1,", 1, FeedCause::WrongCount),
    (b"m,both,1", 1, FeedCause::WrongCount),
    (b"m,a,-9223372036854775809", 1, FeedCause::BadInt),
    (b"m,a,-", 1, FeedCause::BadInt),
    (b"m,a, 1", 1, FeedCause::BadInt),
    (b"m,both,z,\xFF", 1, FeedCause::BadInt),
    (b"m,both,1,\xFF", 1, FeedCause::NotText),
    (b"m,a,1\r\nm,a,2\r\nm,a,", 3, FeedCause::BadInt),
    (b"m,a,z\nx", 1, FeedCause::BadInt),
];

// Feeds, and the number of their posts.
const ACCEPTED: &[(&[u8], usize)] = &[
    (b"m,a,1\nn,a,2\n", 2),
    (b"m,a,1\rn,a,2\r", 2),
    (b"\xEF\xBB\xBFm,a,1\n", 1),
    (b"m,a,9223372036854775807", 1),
    (b"\"m\",\"a\",\"1\"\n", 1),
    (b"m,say,\"a,\nb\"\nm,a,1\n", 2),
    (b"m,say,\nn,both,-0,\"\"\n", 2),
];

fn are_refused(alloc: Global, plan: &Plan, rows: &[(&[u8], u64, FeedCause)]) -> bool
    requires { IsTyped plan.now }
{
    for (feed, row, cause) in rows {
        let fault = FeedFault::Bad {
            row: *row,
            cause: *cause,
        };
        if read_feed(alloc, plan, feed).err() != Some(fault) {
            return false;
        }
    }
    true
}

// Whether a feed is read, and has so many posts.
fn is_accepted(alloc: Global, plan: &Plan, feed: &[u8], count: usize) -> bool
    requires { IsTyped plan.now }
{
    let Ok(feed) = read_feed(alloc, plan, feed) else {
        return false;
    };
    match feed.unpacked(alloc) {
        Ok(posts) => posts.as_slice().len() == count,
        Err(_) => false,
    }
}

fn are_accepted(alloc: Global, plan: &Plan, rows: &[(&[u8], usize)]) -> bool
    requires { IsTyped plan.now }
{
    for (feed, count) in rows {
        if !is_accepted(alloc, plan, feed, *count) {
            return false;
        }
    }
    true
}

// Whether a message is of this kind, and has this text as its last field.
fn is_said(message: &Message, kind: u32, said: &[u8]) -> bool {
    let last = message.fields.len().saturating_sub(1);
    match message.fields.get(last) {
        Some(ValueRef::Words(words)) => message.kind == kind && words.bytes() == said,
        _ => false,
    }
}

// Quoted fields, and blanks that count.
fn are_posted(alloc: Global, plan: &Plan) -> bool
    requires { IsTyped plan.now }
{
    let Ok(feed) = read_feed(alloc, plan, b"m,both,7,\"x,\ny\"\nn,say, z \n") else {
        return false;
    };
    let Ok(posts) = feed.unpacked(alloc) else {
        return false;
    };
    match posts.as_slice() {
        [(first, both), (second, say)] => {
            *first == 0 && *second == 1 && is_said(both, 2, b"x,\ny") && is_said(say, 1, b" z ")
        }
        _ => false,
    }
}

fn refused_feeds() -> &'static [(&'static [u8], u64, FeedCause)] {
    REFUSED
}

fn accepted_feeds() -> &'static [(&'static [u8], usize)] {
    ACCEPTED
}

fn are_read(alloc: Global, plan: &Plan) -> bool
    requires { IsTyped plan.now }
{
    are_refused(alloc, plan, refused_feeds())
        && are_accepted(alloc, plan, accepted_feeds())
        && are_posted(alloc, plan)
}

fn is_read(alloc: Global) -> bool {
    match read_plan(alloc, SCRIPT) {
        Ok(plan) => are_read(alloc, &plan),
        Err(_) => false,
    }
}

#[test]
fn a_feed_has_a_post_for_each_record_or_a_first_fault(rt: HostRuntime) {
    feed_law();
    assert!(rt; is_read(rt.alloc()));
}

fn is_told(alloc: Global) -> bool {
    let fault = FeedFault::Bad {
        row: 3,
        cause: FeedCause::BadInt,
    };
    match format!(in alloc; "{fault}") {
        Ok(text) => text.as_str() == "record 3: no integer of 64 bits",
        Err(_) => false,
    }
}

#[test]
fn a_fault_says_the_record_and_its_cause(rt: HostRuntime) {
    assert!(rt; is_told(rt.alloc()));
}
