use crate::made::{comparison, worded};
use guard_bound::{Bound, Bounds, Same, bound_of, is_same, meets_all, same_of};
use guard_eval::{Leaf, Operand, Place, Signed, Term, WordsLeaf};
use join_base::{Items, Message, MessageList, NoMemory, Relation};
use std::alloc::Global;
use std::test::Fail;

fn number(value: i64) -> Signed {
    Signed {
        minus: false,
        leaf: Leaf::Number(value),
    }
}

// The first field of a pattern.
fn field(minus: bool, pattern: u32) -> Signed {
    Signed {
        minus,
        leaf: Leaf::Field(Place { pattern, field: 0 }),
    }
}

fn sum(alloc: Global, parts: [Signed; 2]) -> Result<Operand, NoMemory> {
    let mut leaves = Items::new(alloc);
    leaves.push(parts[0])?;
    leaves.push(parts[1])?;
    Ok(Operand::Sum(Term::new(leaves)))
}

// The second field of a pattern, a text.
fn words(pattern: u32) -> Operand {
    Operand::Words(WordsLeaf::Field(Place { pattern, field: 1 }))
}

fn push_messages(alloc: Global, messages: &mut MessageList) -> Result<(), Fail> {
    messages.push(worded(alloc, 0, 4, b"left")?)?;
    messages.push(worded(alloc, 0, 5, b"right")?)?;
    messages.push(worded(alloc, 0, 3, b"right")?)?;
    Ok(())
}

// Numbers 1 to 3 with 4, 5 and 3.
fn messages(alloc: Global) -> Result<MessageList, Fail> {
    let mut messages = Items::new(alloc);
    push_messages(alloc, &mut messages)?;
    Ok(messages)
}

// What is found for pattern 0, where pattern 1 has number 2.
fn bound_beside(
    alloc: Global,
    left: [Signed; 2],
    relation: Relation,
    right: Signed,
) -> Result<Option<Bound>, Fail> {
    let left = sum(alloc, left)?;
    let right = sum(alloc, [number(0), right])?;
    let conjunct = comparison(alloc, left, relation, right)?;
    let messages = messages(alloc)?;
    Ok(bound_of(messages.as_slice(), 2, 0, 1, &conjunct))
}

fn at(relation: Relation, value: i128) -> Option<Bound> {
    Some(Bound {
        field: 0,
        relation,
        value,
    })
}

fn are_solved(alloc: Global) -> Result<bool, Fail> {
    let mine = field(false, 0);
    let other = field(false, 1);
    let raised = bound_beside(alloc, [mine, number(2)], Relation::LessEqual, other)?;
    let apart = bound_beside(alloc, [other, field(true, 0)], Relation::Less, number(1))?;
    let behind = bound_beside(alloc, [number(7), other], Relation::Less, mine)?;
    Ok(
        raised == at(Relation::LessEqual, 3)
            && apart == at(Relation::Greater, 4)
            && behind == at(Relation::Greater, 12),
    )
}

#[test]
fn a_comparison_is_solved_for_the_one_field(rt: HostRuntime) -> Result<(), Fail> {
    assert!(rt; are_solved(rt.alloc())?);
    Ok(())
}

fn are_unsolved(alloc: Global) -> Result<bool, Fail> {
    let mine = field(false, 0);
    let other = field(false, 1);
    let twice = bound_beside(alloc, [mine, mine], Relation::Less, number(1))?;
    let never = bound_beside(alloc, [other, other], Relation::Less, number(1))?;
    let third = bound_beside(alloc, [mine, other], Relation::Less, field(false, 2))?;
    Ok(twice.is_none() && never.is_none() && third.is_none())
}

#[test]
fn a_field_that_is_there_twice_or_never_or_beside_a_third_gives_no_bound(
    rt: HostRuntime,
) -> Result<(), Fail> {
    assert!(rt; are_unsolved(rt.alloc())?);
    Ok(())
}

// Less than 5, and not 3.
fn bounds() -> Bounds {
    let mut bounds = Bounds::new();
    bounds.push(Bound {
        field: 0,
        relation: Relation::Less,
        value: 5,
    });
    bounds.push(Bound {
        field: 0,
        relation: Relation::NotEqual,
        value: 3,
    });
    bounds
}

fn are_met(messages: &[Message]) -> bool {
    let bounds = bounds();
    meets_all(messages, &bounds, 1)
        && !meets_all(messages, &bounds, 2)
        && !meets_all(messages, &bounds, 3)
}

#[test]
fn numbers_meet_all_bounds_or_fail_one(rt: HostRuntime) -> Result<(), Fail> {
    let messages = messages(rt.alloc())?;
    assert!(rt; are_met(messages.as_slice()));
    Ok(())
}

// Whether the texts of two patterns are the same where the conjunct says they are equal.
fn are_same_where_equal(alloc: Global) -> Result<bool, Fail> {
    let equal = comparison(alloc, words(1), Relation::Equal, words(0))?;
    let same = same_of(0, 1, &equal);
    let messages = messages(alloc)?;
    Ok(
        same == Some(Same { field: 1, other: 1 })
            && !is_same(messages.as_slice(), 2, same, 1)
            && is_same(messages.as_slice(), 2, same, 3)
            && same_of(0, 2, &equal).is_none(),
    )
}

#[test]
fn texts_that_a_conjunct_says_are_equal(rt: HostRuntime) -> Result<(), Fail> {
    let differ = comparison(rt.alloc(), words(0), Relation::NotEqual, words(1))?;
    assert!(rt; are_same_where_equal(rt.alloc())? && same_of(0, 1, &differ).is_none());
    Ok(())
}
