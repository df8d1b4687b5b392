//! Which patterns are tied only through another one.
use join_base::{Bytes, NoMemory, write_number};
use script_check::read_plan;
use script_types::{Plan, Rule};
use std::alloc::Global;
use tied_patterns::{Tied, tied_pairs};

// The definition of an actor, and its pairs: pattern and field of each variable, and the pattern that ties them.
const TIES: &[(&[u8], &[u8])] = &[
    // Two friends of one pattern that don't know each other.
    (
        b"a(x) & b(y, s) & c(z) if x == y && x == z",
        b"1.0=2.0 by 0;",
    ),
    // All three know each other.
    (b"a(x) & b(y, s) & c(z) if x == y && x == z && y == z", b""),
    (b"a(x) & b(y, s) if x == y", b""),
    // A chain of four: the ends and each second one.
    (
        b"a(x) & b(y, s) & c(z) & a(w) if x == y && y == z && z == w",
        b"0.0=2.0 by 1;0.0=3.0 by 1;1.0=3.0 by 0;",
    ),
    // Two variables of the pattern in the middle tie nothing.
    (b"d(s) & b(y, t) & c(z) if s == t && y == z", b""),
    // Only `==` of two variables, which stands alone, ties.
    (b"a(x) & b(y, s) & c(z) if x == y && x <= z", b""),
    (b"a(x) & b(y, s) & c(z) if x == y && x + 0 == z", b""),
    (b"a(x) & b(y, s) & c(z) if x == y && (x == z || y < 3)", b""),
    // Texts tie too, and an equality may stand either way round.
    (
        b"d(s) & b(y, t) & d(u) if s == t && u == t",
        b"0.0=2.0 by 1;",
    ),
];

fn push_place(out: &mut Bytes, pattern: u32, field: u32) -> Result<(), NoMemory> {
    write_number(out, i128::from(pattern))?;
    out.push_all(b".")?;
    write_number(out, i128::from(field))
}

fn push_tied(out: &mut Bytes, tied: &Tied) -> Result<(), NoMemory> {
    push_place(out, tied.left.pattern, tied.left.field)?;
    out.push_all(b"=")?;
    push_place(out, tied.right.pattern, tied.right.field)?;
    out.push_all(b" by ")?;
    write_number(out, i128::from(tied.link.pattern))?;
    out.push_all(b";")
}

fn push_ties(alloc: Global, out: &mut Bytes, rule: &Rule) -> Result<(), NoMemory> {
    let pairs = tied_pairs(alloc, &rule.definition)?;
    for tied in pairs.as_slice() {
        push_tied(out, tied)?;
    }
    Ok(())
}

fn push_all_ties(alloc: Global, out: &mut Bytes, plan: &Plan) -> Result<(), NoMemory> {
    for actor in plan.actors.as_slice() {
        for rule in actor.rules.as_slice() {
            push_ties(alloc, out, rule)?;
        }
    }
    Ok(())
}

fn ties_of(alloc: Global, plan: &Plan) -> Result<Bytes, NoMemory> {
    let mut out = Bytes::new(alloc);
    push_all_ties(alloc, &mut out, plan)?;
    Ok(out)
}

// A script with an actor of this definition.
fn push_script(text: &mut Bytes, definition: &[u8]) -> Result<(), NoMemory> {
    text.push_all(
        b"message a(x: int) message b(n: int, s: text) message c(x: int) message d(s: text) actor m { when ",
    )?;
    text.push_all(definition)?;
    text.push_all(b" { } }")
}

fn is_found(alloc: Global, definition: &[u8], wanted: &[u8]) -> Result<bool, NoMemory> {
    let mut text = Bytes::new(alloc);
    push_script(&mut text, definition)?;
    match read_plan(alloc, text.bytes()) {
        Ok(plan) => Ok(ties_of(alloc, &plan)?.bytes() == wanted),
        Err(_) => Ok(false),
    }
}

fn tied_definitions() -> &'static [(&'static [u8], &'static [u8])] {
    TIES
}

fn are_found(alloc: Global, cases: &[(&[u8], &[u8])]) -> bool {
    for (definition, wanted) in cases {
        if is_found(alloc, definition, wanted) != Ok(true) {
            return false;
        }
    }
    true
}

#[test]
fn patterns_tied_through_others_are_found(rt: HostRuntime) {
    assert!(rt; are_found(rt.alloc(), tied_definitions()));
}
