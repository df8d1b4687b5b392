//! As much as is allowed, and one more.

use crate::given::{INT, has_plan, is_refused, joined};
use join_base::{Bytes, NoMemory, write_number};
use script_grammar::ScriptCause;
use std::alloc::Global;

// A front, a piece that may stand so many times, a rest, and the place of the fault where the piece stands once more.
type Limit = (&'static [u8], &'static [u8], usize, &'static [u8], u64);

const COUNTS: &[Limit] = &[
    (INT, b"when a(_) { } ", 16, b"}", 252),
    (
        b"message a(x: int) actor m { when a(x) { ",
        b"print x; ",
        16,
        b"} }",
        184,
    ),
    (
        b"message a(x: int) actor m { when a(x) { print",
        b" x",
        16,
        b"; } }",
        78,
    ),
    (
        b"message a(x: int) actor m { when a(x) if 1 == 0",
        b" + 1",
        63,
        b" { } }",
        302,
    ),
    (
        b"message a(x: int) actor m { when a(x) if x == 1",
        b" || x == 1",
        63,
        b" { } }",
        681,
    ),
    (
        b"message a(x: int) actor m { when a(x) if x == 1",
        b" && x == 1",
        63,
        b" { } }",
        681,
    ),
];

const PRINT: &[u8] = b"message a(x: int) actor m { when a(x) { print \"";

// The bytes of a name, and those that a quoted text stands for.
const LENGTHS: &[Limit] = &[
    (b"message ", b"a", 64, b"() actor m { }", 8),
    (PRINT, b"k", 120, b"\"; } }", 46),
    (PRINT, b"\\x01", 120, b"\"; } }", 46),
    (PRINT, b"\\n", 120, b"\"; } }", 46),
];

fn is_the_most(alloc: Global, limit: &Limit, cause: ScriptCause) -> Result<bool, NoMemory> {
    let (front, piece, most, rest, place) = limit;
    let allowed = joined(alloc, front, piece, *most, rest)?;
    if !has_plan(alloc, allowed.bytes()) {
        return Ok(false);
    }
    let more = joined(alloc, front, piece, most.saturating_add(1), rest)?;
    Ok(is_refused(alloc, more.bytes(), *place, cause))
}

fn are_the_most(alloc: Global, limits: &[Limit], cause: ScriptCause) -> Result<bool, NoMemory> {
    for limit in limits {
        if !is_the_most(alloc, limit, cause)? {
            return Ok(false);
        }
    }
    Ok(true)
}

fn limits_of_counts() -> &'static [Limit] {
    COUNTS
}

fn limits_of_lengths() -> &'static [Limit] {
    LENGTHS
}

#[test]
fn each_limit_at_its_edge(rt: HostRuntime) {
    let alloc = rt.alloc();
    let all = are_the_most(alloc, limits_of_counts(), ScriptCause::TooMany) == Ok(true)
        && are_the_most(alloc, limits_of_lengths(), ScriptCause::BadToken) == Ok(true);
    assert!(rt; all);
}

fn push_numbered(
    bytes: &mut Bytes,
    before: &[u8],
    number: u8,
    after: &[u8],
) -> Result<(), NoMemory> {
    bytes.push_all(before)?;
    write_number(bytes, i128::from(number) + 10)?;
    bytes.push_all(after)
}

// A front, declarations whose names end in numbers of two digits, and a rest.
fn numbered(
    alloc: Global,
    before: &[u8],
    count: u8,
    after: &[u8],
    rest: &[u8],
) -> Result<Bytes, NoMemory> {
    let mut bytes = Bytes::new(alloc);
    for number in 0..count {
        push_numbered(&mut bytes, before, number, after)?;
    }
    bytes.push_all(rest)?;
    Ok(bytes)
}

fn are_most_names(
    alloc: Global,
    before: &[u8],
    most: u8,
    after: &[u8],
    rest: &[u8],
    place: u64,
) -> Result<bool, NoMemory> {
    let allowed = numbered(alloc, before, most, after, rest)?;
    if !has_plan(alloc, allowed.bytes()) {
        return Ok(false);
    }
    let more = numbered(alloc, before, most.saturating_add(1), after, rest)?;
    Ok(is_refused(alloc, more.bytes(), place, ScriptCause::TooMany))
}

// A message of so many fields and one more.
fn has_fields(alloc: Global, count: u8) -> Result<Bytes, NoMemory> {
    let fields = numbered(alloc, b"f", count, b": int, ", b"g: int) actor m { }")?;
    joined(alloc, b"message a(", fields.bytes(), 1, b"")
}

fn are_most_fields(alloc: Global) -> Result<bool, NoMemory> {
    let allowed = has_fields(alloc, 7)?;
    if !has_plan(alloc, allowed.bytes()) {
        return Ok(false);
    }
    let more = has_fields(alloc, 8)?;
    Ok(is_refused(alloc, more.bytes(), 90, ScriptCause::TooMany))
}

#[test]
fn as_many_names_as_are_allowed(rt: HostRuntime) {
    let alloc = rt.alloc();
    let all = are_most_names(alloc, b"actor m", 32, b" { } ", b"", 454) == Ok(true)
        && are_most_names(alloc, b"message a", 64, b"() ", b"actor m { }", 904) == Ok(true)
        && are_most_fields(alloc) == Ok(true);
    assert!(rt; all);
}
