//! Whole logs, and what they are to come to.

use crate::answer::{Answer, plan_of};
use crate::tally::Tally;
use join_base::{Bytes, NoMemory};
use std::alloc::Global;

// Two actors that answer each other, and two that send the message on as it is.
const ANSWERS: &str =
    "message ping(n: int) actor p { when ping(n) { post q ping(n + 1); } } actor q { when ping(n) { post p ping(n + 1); } }";

const CIRCLE: &str =
    "message ping(n: int) actor p { when ping(n) { post q ping(n); } } actor q { when ping(n) { post p ping(n); } }";

// Three rounds of the two that answer each other.
const ROUNDS_1: &[&str] = &[
    "joinlog 1 arrivals 3 partials 65536 feeds 1",
    "actor p",
    "1 from feed 1 ping(0)",
    "fire rule 1 take 1",
    "post q ping(1)",
    "2 from actor q ping(2)",
    "fire rule 1 take 2",
    "post q ping(3)",
    "3 from actor q ping(4)",
    "fire rule 1 take 3",
    "post q ping(5)",
    "late actor q 1",
    "end spent left - partials 1",
    "actor q",
    "1 from actor p ping(1)",
    "fire rule 1 take 1",
    "post p ping(2)",
    "2 from actor p ping(3)",
    "fire rule 1 take 2",
    "post p ping(4)",
    "3 from actor p ping(5)",
    "fire rule 1 take 3",
    "post p ping(6)",
    "end running left - partials 1",
];

// The same with the stamps of a run on one thread.
const STAMPS: &[Others] = &[
    (1, &["joinlog 2 arrivals 3 partials 65536 feeds 1"]),
    (3, &["1 at 1 from feed 1 ping(0)"]),
    (6, &["2 at 3 from actor q ping(2)"]),
    (9, &["3 at 5 from actor q ping(4)"]),
    (15, &["1 at 2 from actor p ping(1)"]),
    (18, &["2 at 4 from actor p ping(3)"]),
    (21, &["3 at 6 from actor p ping(5)"]),
];

// Each message of a circle is posted because of the other.
const CIRCLE_1: &[&str] = &[
    "joinlog 1 arrivals 3 partials 65536 feeds 1",
    "actor p",
    "1 from actor q ping(7)",
    "fire rule 1 take 1",
    "post q ping(7)",
    "end running left - partials 1",
    "actor q",
    "1 from actor p ping(7)",
    "fire rule 1 take 1",
    "post p ping(7)",
    "end running left - partials 1",
];

// In place of the line of this number these lines.
type Others = (usize, &'static [&'static str]);

// A script, the lines of a log with others in place of some, and its answer. Of two rows for one line the first counts.
type Whole = (
    &'static str,
    &'static [&'static str],
    &'static [Others],
    &'static [Others],
    Answer,
);

const WHOLE: &[Whole] = &[
    (ANSWERS, ROUNDS_1, &[], &[], Answer::Accepted(6)),
    // A post that is neither taken nor late.
    (ANSWERS, ROUNDS_1, &[(12, &[])], &[], Answer::Differs(12)),
    // An arrival that was never posted.
    (
        ANSWERS,
        ROUNDS_1,
        &[(3, &["1 from actor q ping(7)"])],
        &[],
        Answer::Differs(3),
    ),
    (ANSWERS, ROUNDS_1, &[], STAMPS, Answer::Accepted(6)),
    // A stamp that does not follow from the one before and that of the post.
    (
        ANSWERS,
        ROUNDS_1,
        &[(6, &["2 at 4 from actor q ping(2)"])],
        STAMPS,
        Answer::Differs(6),
    ),
    // Without stamps each link of a circle is right alone.
    (CIRCLE, CIRCLE_1, &[], &[], Answer::Accepted(2)),
    // With stamps none can be the first.
    (
        CIRCLE,
        CIRCLE_1,
        &[
            (1, &["joinlog 2 arrivals 3 partials 65536 feeds 1"]),
            (3, &["1 at 1 from actor q ping(7)"]),
            (8, &["1 at 1 from actor p ping(7)"]),
        ],
        &[],
        Answer::Differs(3),
    ),
    (
        CIRCLE,
        CIRCLE_1,
        &[
            (1, &["joinlog 2 arrivals 3 partials 65536 feeds 1"]),
            (3, &["1 at 2 from actor q ping(7)"]),
            (8, &["1 at 1 from actor p ping(7)"]),
        ],
        &[],
        Answer::Differs(8),
    ),
];

fn whole_rows() -> &'static [Whole] {
    WHOLE
}

// The lines in place of the one of this number, where there are any.
fn others_at(number: usize, others: &[Others]) -> Option<&'static [&'static str]> {
    for (place, lines) in others {
        if *place == number {
            return Some(*lines);
        }
    }
    None
}

// Appends the lines, each ended by LF.
fn push_lines(text: &mut Bytes, lines: &[&str]) -> Result<(), NoMemory> {
    for line in lines {
        text.push_all(line.as_bytes())?;
        text.push_all(b"\n")?;
    }
    Ok(())
}

// Appends the line of this number, or those in its place.
fn push_at(
    text: &mut Bytes,
    number: usize,
    line: &str,
    first: &[Others],
    second: &[Others],
) -> Result<(), NoMemory> {
    match (others_at(number, first), others_at(number, second)) {
        (Some(lines), _) | (None, Some(lines)) => push_lines(text, lines),
        (None, None) => push_lines(text, &[line]),
    }
}

fn text_of(
    alloc: Global,
    lines: &[&str],
    first: &[Others],
    second: &[Others],
) -> Result<Bytes, NoMemory> {
    let mut text = Bytes::new(alloc);
    for (place, line) in lines.iter().enumerate() {
        push_at(&mut text, place + 1, *line, first, second)?;
    }
    Ok(text)
}

// Counts the answer to a whole log.
fn count_whole(alloc: Global, whole: &Whole, tally: &mut Tally) -> Result<(), NoMemory> {
    let (script, lines, first, second, wanted) = whole;
    let Some(plan) = plan_of(alloc, script.as_bytes())? else {
        tally.miss();
        return Ok(());
    };
    let text = text_of(alloc, lines, first, second)?;
    tally.count(alloc, &plan, text.bytes(), 0, "whole", *wanted)
}

/// The answers to the whole logs.
pub fn whole_logs(alloc: Global) -> Result<Tally, NoMemory> {
    let mut tally = Tally::new();
    for row in whole_rows() {
        count_whole(alloc, row, &mut tally)?;
    }
    Ok(tally)
}
