//! Where texts are refused, and why.

use crate::given::{INT, Refused, all_are_refused, have_plans, is_refused, joined};
use join_base::{Bytes, NoMemory};
use script_grammar::{ScriptCause, Stop, mark_at, name_at, skip_rule};
use script_reader::read_outline;
use script_tokens::{Mark, Tokens};
use std::alloc::Global;

// The front of scripts with a text, 29 bytes.
const TEXT: &[u8] = b"message s(t: text) actor m { ";

// What no text goes on with, and what begins no token.
const UNREADABLE: &[Refused] = &[
    (
        b"",
        ScriptCause::BadSyntax,
        &[
            (b"messages", 0),
            (b"message within(x: int)", 8),
            (b"message a(reply: int)", 10),
            (b"message _(x: int)", 8),
            (b"message 1a()", 8),
            (b"message a(x: word)", 13),
            (b"// c\rmessage a() actor m { }", 28),
        ],
    ),
    (
        b"",
        ScriptCause::NotText,
        &[(b"message \xff when", 8), (b"= \xff", 2)],
    ),
    (
        b"",
        ScriptCause::BadToken,
        &[
            (b"message \xc3\xa9(x: int)", 8),
            (b"/* c */ message a() actor m { }", 0),
            (b"actor m { } =", 12),
        ],
    ),
    (
        INT,
        ScriptCause::BadToken,
        &[
            (b"when a(x) if x == 9223372036854775808 { } }", 46),
            (b"when a(x) if x == -9223372036854775808 { } }", 47),
            (b"when a(x) if x | 1 { } }", 43),
            (b"when a(x) if x / 1 { } }", 43),
            (b"when a(x) if x == 'k' { } }", 46),
            (b"when a(x) if x < = 1 { } }", 45),
            (b"when a(x) if x == \"k { } }", 46),
            (b"when a(x) if x == \"\\q\" { } }", 46),
            (b"when a(x) within 9223372036854775808 { } }", 45),
        ],
    ),
    (
        INT,
        ScriptCause::BadSyntax,
        &[
            (b"when a(x) && a(y) { } }", 38),
            (b"when a(x) if (x == 1 && x == 2) { } }", 49),
            (b"when a(x) if x == 1a { } }", 47),
            (b"when a(x) if x + == 1 { } }", 45),
            (b"when a(x) if - - x == 1 { } }", 43),
            (b"when a(x) if !x { } }", 44),
            (b"when a(x) if \"k\" + 1 == x { } }", 45),
            (b"when a(_) if _ == 1 { } }", 41),
            (b"when a(x,) { } }", 37),
            (b"when a x { } }", 35),
            (b"when a(x) { print; } }", 45),
            (b"when a(x) { print -x; } }", 46),
            (b"when a(x) { print (x; } }", 48),
            (b"when a(x) { post m a x; } }", 49),
            (b"when a(x) { post a(x); } }", 46),
            (b"when a(x) { stop } }", 45),
            (b"when a(x) { within; } }", 40),
            (b"when a(x) within { } }", 45),
            (b"when a(x) within x { } }", 45),
            (b"when a(x) within -1 { } }", 45),
            (b"when a(x) within 1 2 { } }", 47),
            (b"when a(x) within 3 within 3 { } }", 47),
            (b"when a(x) if x == 1 within 3 { } }", 48),
            (b"when within 3 { } }", 33),
            (b"when a(x) { reply; } }", 45),
            (b"when a(x) { reply x; } }", 46),
            (b"when a(x) { reply -1 x; } }", 46),
            (b"when a(x) { reply 1; } }", 47),
            (b"when a(x) { reply 1 (x); } }", 48),
            (b"when a(x) { reply 1 x y; } }", 50),
            (b"when a(x) { reply 1 x } }", 50),
            (b"when a(x) { }", 41),
            (b"} extra", 30),
        ],
    ),
];

fn texts_unreadable() -> &'static [Refused] {
    UNREADABLE
}

#[test]
fn a_text_is_refused_at_its_first_wrong_token(rt: HostRuntime) {
    assert!(rt; all_are_refused(rt.alloc(), texts_unreadable()) == Ok(true));
}

// What is read, though it may look odd, and though names or types may be wrong.
const READABLE: &[(&[u8], &[u8])] = &[
    (b"", b"actor m { }"),
    (b"", b"actor m{}message a()actor m{}"),
    (b"", b"message a() actor m { } // end"),
    (b"", b"// c\nmessage a() // d\r\n\tactor m { }"),
    (
        b"",
        b"message within_2(stop_: text, printx: int) actor posts { }",
    ),
    (INT, b"when a(x) if x==9223372036854775807&&x<=007 { } }"),
    (
        INT,
        b"when a(x)if x<-1||!x>=1+2-x&&((x!=\"\")||!!x>x)&&x<x{print\"a\\\"b\"x(-x+1);post m a(x,-1,\"k\");stop;}}",
    ),
    (
        INT,
        b"when a() { print \"1\"\"2\"; post m a(); } when a(_,_) { } }",
    ),
    (
        INT,
        b"when a(x) within 0 { } when a(x)within 9223372036854775807{ } }",
    ),
    (INT, b"when a(x) & a(y) within 007 if x == y { } }"),
    (
        INT,
        b"when a(x) { reply 1x; reply 0\"k\";reply 9223372036854775807 -1+x; } }",
    ),
    (
        INT,
        b"when a(x) & a(_) & a(y) { } when a(x) & a(_) & a(y) { } when a(x) & a(_) & a(y) { } }",
    ),
];

fn are_read(alloc: Global, rows: &[(&[u8], &[u8])]) -> Result<bool, NoMemory> {
    for (front, rest) in rows {
        let script = joined(alloc, front, b"", 0, rest)?;
        if read_outline(alloc, script.bytes()).is_err() {
            return Ok(false);
        }
    }
    Ok(true)
}

fn texts_readable() -> &'static [(&'static [u8], &'static [u8])] {
    READABLE
}

#[test]
fn what_looks_odd_is_read(rt: HostRuntime) {
    assert!(rt; are_read(rt.alloc(), texts_readable()) == Ok(true));
}

// Wrong names and numbers over an integer.
const WRONG: &[Refused] = &[
    (
        INT,
        ScriptCause::UnknownMessage,
        &[(b"when a(x) { post m b(x); } }", 47)],
    ),
    (
        INT,
        ScriptCause::WrongCount,
        &[(b"when a(x) { post m a(); } }", 47)],
    ),
    (
        INT,
        ScriptCause::UnknownName,
        &[
            (b"when a(x) if \"k\" == y { } }", 48),
            (b"when a(x) { print y; } }", 46),
            (b"when a(x) { print (y); } }", 47),
            (b"when a(_) { print _x; } }", 46),
            (b"when a(x) { } when a(y) { print x; } }", 60),
            (b"when a(x) { reply 1 y; } }", 48),
            (b"when a(x) & a(y) { reply 2 -y; reply 1 x + z; } }", 71),
        ],
    ),
    (
        INT,
        ScriptCause::WrongType,
        &[
            (b"when a(x) if \"k\" < x { } }", 41),
            (b"when a(x) { post m a(\"k\"); } }", 49),
        ],
    ),
    (
        INT,
        ScriptCause::StopNotLast,
        &[(b"when a(x) { stop; reply 1 x; } }", 40)],
    ),
    // Of two causes at one place the first counts.
    (
        INT,
        ScriptCause::TooMany,
        &[(
            b"when a(x1) & a(x2) & a(x3) & a(x4) & a(x5) & a(x6) & a(x7) & a(x8) & b(x8) { } }",
            97,
        )],
    ),
    (
        INT,
        ScriptCause::BadWindow,
        &[
            (b"when a(x) within 00 { } }", 45),
            (b"when a(x) within 1000001 { } }", 45),
            (b"when a(x) within 9223372036854775807 { } }", 45),
            (b"when a(x) & a(y) within 0 if z == 1 { reply 9 z; } }", 52),
        ],
    ),
    (
        INT,
        ScriptCause::BadReply,
        &[
            (b"when a(x) { reply 0 x; } }", 46),
            (b"when a(x) { reply 2 x; } }", 46),
            (b"when a(x) { reply 3 y; } }", 46),
            (b"when a(x) & a(y) { reply 1 x; reply 1 y; } }", 64),
            (
                b"when a(x) & a(y) { reply 2 x; print x; reply 02 y; } }",
                73,
            ),
        ],
    ),
];

// A text where an integer has to stand, or the other way round.
const WRONG_TEXTS: &[Refused] = &[(
    TEXT,
    ScriptCause::WrongType,
    &[
        (b"when s(x) if x < 1 { } }", 42),
        (b"when s(x) if x >= \"k\" { } }", 42),
        (b"when s(x) if 1 == x { } }", 47),
        (b"when s(x) if -x == 1 { } }", 43),
        (b"when s(x) if x + 1 == 1 { } }", 42),
        (b"when s(x) if 1 == 1 - x { } }", 51),
        (b"when s(x) { print (x); } }", 48),
        (b"when s(x) { post m s(1); } }", 50),
        (b"when s(x) { reply 1 x + 1; } }", 49),
        (b"when s(x) & s(y) { reply 1 x; reply 2 -y; } }", 68),
    ],
)];

const TWICE: &[Refused] = &[
    (
        INT,
        ScriptCause::TwiceDeclared,
        &[(b"when a(x) & a(x) { } }", 42)],
    ),
    (
        b"",
        ScriptCause::TwiceDeclared,
        &[
            (b"message a() message a() actor m { }", 20),
            (b"actor m { } actor m { }", 18),
            (b"message a(x: int, x: int) actor m { }", 18),
            (
                b"message a(x: int, y: int) actor m { when a(v, v) { } }",
                46,
            ),
        ],
    ),
];

fn wrong_numbers() -> &'static [Refused] {
    WRONG
}

fn wrong_texts() -> &'static [Refused] {
    WRONG_TEXTS
}

fn names_twice() -> &'static [Refused] {
    TWICE
}

#[test]
fn each_cause_has_its_place(rt: HostRuntime) {
    let alloc = rt.alloc();
    let all = all_are_refused(alloc, wrong_numbers()) == Ok(true)
        && all_are_refused(alloc, wrong_texts()) == Ok(true)
        && all_are_refused(alloc, names_twice()) == Ok(true);
    assert!(rt; all);
}

const RIGHT_NUMBERS: &[&[u8]] = &[
    b"when a(x) within 1 { } }",
    b"when a(x) within 1000000 { } }",
    b"when a(x) & a(y) within 0002 { reply 2 x; reply 1 \"k\"; stop; } }",
    b"when a(x) { reply 1 x; } when a(y) { reply 1 y; } }",
    b"when a(_) & a(_) & a(_) { reply 3 -1; reply 1 0; reply 2 5; } }",
];

const RIGHT_NAMES: &[&[u8]] = &[
    b"actor m { when a(x) { post n a(x); stop; } } actor n { } message a(x: int)",
    b"message a(a: int) actor a { when a(a) { print a (a); } }",
    b"message s(t: text) actor m { when s(x) & s(y) if x == y || !(x != \"k\") { print x; post m s(x); } }",
    b"message a(x: int, y: int) actor m { when a(_, _) { } when a(x, _) { } }",
];

fn right_numbers() -> &'static [&'static [u8]] {
    RIGHT_NUMBERS
}

fn right_names() -> &'static [&'static [u8]] {
    RIGHT_NAMES
}

#[test]
fn right_names_and_numbers_have_plans(rt: HostRuntime) {
    let alloc = rt.alloc();
    let all = have_plans(alloc, INT, right_numbers()) == Ok(true)
        && have_plans(alloc, b"", right_names()) == Ok(true);
    assert!(rt; all);
}

fn many(alloc: Global, rest: &[u8]) -> Result<Bytes, NoMemory> {
    joined(alloc, b"actor m { ", b"when a(x) { stop; } ", 30_000, rest)
}

fn is_refused_behind_many(
    alloc: Global,
    rest: &[u8],
    cause: ScriptCause,
) -> Result<bool, NoMemory> {
    let script = many(alloc, rest)?;
    Ok(is_refused(alloc, script.bytes(), 600_010, cause))
}

fn has_one_actor(alloc: Global, script: &[u8]) -> bool {
    match read_outline(alloc, script) {
        Ok(outline) => outline.actors.len() == 1,
        Err(_) => false,
    }
}

// Whether the actor in front of the tokens has so many definitions, and nothing follows.
fn has_rules(alloc: Global, rules: u32, tokens: &mut Tokens<'_>) -> Result<bool, Stop> {
    mark_at(alloc, tokens, Mark::Actor)?;
    name_at(alloc, tokens)?;
    mark_at(alloc, tokens, Mark::OpenBrace)?;
    for _ in 0..rules {
        skip_rule(alloc, tokens)?;
    }
    mark_at(alloc, tokens, Mark::CloseBrace)?;
    Ok(tokens.is_empty())
}

fn are_many_read(alloc: Global) -> Result<bool, Stop> {
    let script = many(alloc, b"}")?;
    let mut tokens = Tokens::new(alloc, script.bytes())?;
    let all = has_rules(alloc, 30_000, &mut tokens)?;
    Ok(all && has_one_actor(alloc, script.bytes()))
}

// The tokens are cut off in fronts: a text of many tokens is read, or refused at its end.
#[test]
fn texts_of_many_tokens_are_read(rt: HostRuntime) {
    assert!(rt; matches!(are_many_read(rt.alloc()), Ok(true)));
}

#[test]
fn texts_of_many_tokens_are_refused(rt: HostRuntime) {
    let alloc = rt.alloc();
    let all = is_refused_behind_many(alloc, b"", ScriptCause::BadSyntax) == Ok(true)
        && is_refused_behind_many(alloc, b"= }", ScriptCause::BadToken) == Ok(true);
    assert!(rt; all);
}
