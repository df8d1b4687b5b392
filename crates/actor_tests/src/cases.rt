//! Scripts with a feed, and the log of their run.
//!
//! Each actor of these scripts gets its messages from one source alone, so that a script has one run.
use join_base::{Bytes, NoMemory, write_number};
use std::alloc::Global;

// A script, the most arrivals and partial matches of an actor, a feed, and the log of the run.
#[derive(Clone, Copy)]
pub struct Case<'a> {
    pub script: &'a [u8],
    pub most: (u32, u64),
    pub rows: &'a [u8],
    pub log: &'a [u8],
}

const USUAL: (u32, u64) = (50_000, 65_536);

const HIT: &[u8] =
    b"message a(x: int) message b(x: int) actor m { when a(x) & b(y) { print \"hit \" x y; } }";

// The body stops the actor.
pub const STOPS: &[u8] =
    b"message a(x: int) message b(x: int) actor m { when a(x) { print \"bye\"; stop; } }";

// The older of two fires.
const OLDER_FIRST: Case<'static> = Case {
    script: HIT,
    most: USUAL,
    rows: b"m,a,1\nm,a,2\nm,b,9\n",
    log: b"joinlog 2 arrivals 50000 partials 65536 feeds 1\n\
      actor m\n\
      1 at 1 from feed 1 a(1)\n\
      2 at 2 from feed 1 a(2)\n\
      3 at 3 from feed 1 b(9)\n\
      fire rule 1 take 1,3\n\
      print \"hit 19\"\n\
      end running left 2 partials 2\n",
};

// Two actors answer each other, until one of them has had as many messages as it may.
const PING_PONG: Case<'static> = Case {
    script: b"message ping(n: int) actor p { when ping(n) { post q ping(n + 1); } } actor q { when ping(n) { post p ping(n + 1); } }",
    most: (3, 65_536),
    rows: b"p,ping,0\n",
    log: b"joinlog 2 arrivals 3 partials 65536 feeds 1\n\
      actor p\n\
      1 at 1 from feed 1 ping(0)\n\
      fire rule 1 take 1\n\
      post q ping(1)\n\
      2 at 3 from actor q ping(2)\n\
      fire rule 1 take 2\n\
      post q ping(3)\n\
      3 at 5 from actor q ping(4)\n\
      fire rule 1 take 3\n\
      post q ping(5)\n\
      late actor q 1\n\
      end spent left - partials 1\n\
      actor q\n\
      1 at 2 from actor p ping(1)\n\
      fire rule 1 take 1\n\
      post p ping(2)\n\
      2 at 4 from actor p ping(3)\n\
      fire rule 1 take 2\n\
      post p ping(4)\n\
      3 at 6 from actor p ping(5)\n\
      fire rule 1 take 3\n\
      post p ping(6)\n\
      end running left - partials 1\n",
};

const STOPPED: Case<'static> = Case {
    script: STOPS,
    most: USUAL,
    rows: b"m,a,1\nm,a,2\nm,b,3\n",
    log: b"joinlog 2 arrivals 50000 partials 65536 feeds 1\n\
      actor m\n\
      1 at 1 from feed 1 a(1)\n\
      fire rule 1 take 1\n\
      print \"bye\"\n\
      late feed 1 2\n\
      end stopped left - partials 1\n",
};

const CASES: &[Case<'static>] = &[
    Case {
        script: HIT,
        most: USUAL,
        rows: b"m,a,1\nm,b,2\n",
        log: b"joinlog 2 arrivals 50000 partials 65536 feeds 1\n\
          actor m\n\
          1 at 1 from feed 1 a(1)\n\
          2 at 2 from feed 1 b(2)\n\
          fire rule 1 take 1,2\n\
          print \"hit 12\"\n\
          end running left - partials 1\n",
    },
    OLDER_FIRST,
    // A guard leaves the older out.
    Case {
        script: b"message a(x: int) message b(x: int) actor m { when a(x) & b(y) if x == y { print \"hit \" x y; } }",
        most: USUAL,
        rows: b"m,a,1\nm,a,2\nm,b,2\n",
        log: b"joinlog 2 arrivals 50000 partials 65536 feeds 1\n\
          actor m\n\
          1 at 1 from feed 1 a(1)\n\
          2 at 2 from feed 1 a(2)\n\
          3 at 3 from feed 1 b(2)\n\
          fire rule 1 take 2,3\n\
          print \"hit 22\"\n\
          end running left 1 partials 2\n",
    },
    // The second definition has the older message.
    Case {
        script: b"message a(x: int) message b(x: int) message c(x: int) actor m { when a(x) & b(y) { } when c(x) & b(y) { } }",
        most: USUAL,
        rows: b"m,c,1\nm,a,2\nm,b,3\n",
        log: b"joinlog 2 arrivals 50000 partials 65536 feeds 1\n\
          actor m\n\
          1 at 1 from feed 1 c(1)\n\
          2 at 2 from feed 1 a(2)\n\
          3 at 3 from feed 1 b(3)\n\
          fire rule 2 take 1,3\n\
          end running left 2 partials 3\n",
    },
    // The first of two that are equal fires.
    Case {
        script: b"message a(x: int) message b(x: int) actor m { when a(x) & b(y) { } when a(x) & b(y) { } }",
        most: USUAL,
        rows: b"m,a,1\nm,b,2\n",
        log: b"joinlog 2 arrivals 50000 partials 65536 feeds 1\n\
          actor m\n\
          1 at 1 from feed 1 a(1)\n\
          2 at 2 from feed 1 b(2)\n\
          fire rule 1 take 1,2\n\
          end running left - partials 2\n",
    },
    // Two messages of one kind.
    Case {
        script: b"message a(x: int) message b(x: int) actor m { when a(x) & a(y) if x > y { print x y; } }",
        most: USUAL,
        rows: b"m,a,1\nm,a,2\n",
        log: b"joinlog 2 arrivals 50000 partials 65536 feeds 1\n\
          actor m\n\
          1 at 1 from feed 1 a(1)\n\
          2 at 2 from feed 1 a(2)\n\
          fire rule 1 take 2,1\n\
          print \"21\"\n\
          end running left - partials 1\n",
    },
    // One partial match too many.
    Case {
        script: b"message a(x: int) message b(x: int) message c(x: int) actor m { when a(x) & b(y) & c(z) { } }",
        most: (50_000, 4),
        rows: b"m,a,1\nm,a,2\nm,a,3\nm,a,4\n",
        log: b"joinlog 2 arrivals 50000 partials 4 feeds 1\n\
          actor m\n\
          1 at 1 from feed 1 a(1)\n\
          2 at 2 from feed 1 a(2)\n\
          3 at 3 from feed 1 a(3)\n\
          4 at 4 from feed 1 a(4)\n\
          end jammed left - partials 1\n",
    },
    // No room for the third message.
    Case {
        script: HIT,
        most: (2, 65_536),
        rows: b"m,a,1\nm,a,2\nm,a,3\nm,a,4\n",
        log: b"joinlog 2 arrivals 2 partials 65536 feeds 1\n\
          actor m\n\
          1 at 1 from feed 1 a(1)\n\
          2 at 2 from feed 1 a(2)\n\
          late feed 1 2\n\
          end spent left - partials 1\n",
    },
    PING_PONG,
    STOPPED,
];

pub fn ten_cases() -> &'static [Case<'static>] {
    CASES
}

pub fn older_first() -> Case<'static> {
    OLDER_FIRST
}

pub fn ping_pong() -> Case<'static> {
    PING_PONG
}

pub fn stopped() -> Case<'static> {
    STOPPED
}

// ---- a thousand rows of two kinds in turn

// Appends the pieces, each behind its number.
fn push_numbered(text: &mut Bytes, pieces: &[(u32, &[u8])]) -> Result<(), NoMemory> {
    for (number, piece) in pieces {
        write_number(text, i128::from(*number))?;
        text.push_all(piece)?;
    }
    Ok(())
}

fn push_rows(text: &mut Bytes, first: u32, second: u32) -> Result<(), NoMemory> {
    text.push_all(b"m,a,")?;
    push_numbered(text, &[(first, b"\nm,b,"), (second, b"\n")])
}

// The second message fires with the first.
fn push_lines(text: &mut Bytes, first: u32, second: u32) -> Result<(), NoMemory> {
    let pieces: [(u32, &[u8]); 10] = [
        (first, b" at "),
        (first, b" from feed 1 a("),
        (first, b")\n"),
        (second, b" at "),
        (second, b" from feed 1 b("),
        (second, b")\nfire rule 1 take "),
        (first, b","),
        (second, b"\nprint \"hit "),
        (first, b""),
        (second, b"\"\n"),
    ];
    push_numbered(text, &pieces)
}

fn thousand_rows(alloc: Global) -> Result<Bytes, NoMemory> {
    let mut text = Bytes::new(alloc);
    for pair in 0u32..500 {
        push_rows(&mut text, 2 * pair + 1, 2 * pair + 2)?;
    }
    Ok(text)
}

fn thousand_lines(alloc: Global) -> Result<Bytes, NoMemory> {
    let mut text = Bytes::new(alloc);
    text.push_all(b"joinlog 2 arrivals 50000 partials 65536 feeds 1\nactor m\n")?;
    for pair in 0u32..500 {
        push_lines(&mut text, 2 * pair + 1, 2 * pair + 2)?;
    }
    text.push_all(b"end running left - partials 1\n")?;
    Ok(text)
}

// A thousand rows and the log of their run, of which `thousand` makes a case.
pub fn thousand_texts(alloc: Global) -> Result<(Bytes, Bytes), NoMemory> {
    let rows = thousand_rows(alloc)?;
    let log = thousand_lines(alloc)?;
    Ok((rows, log))
}

pub fn thousand(texts: &(Bytes, Bytes)) -> Case<'_> {
    Case {
        script: HIT,
        most: USUAL,
        rows: texts.0.bytes(),
        log: texts.1.bytes(),
    }
}
