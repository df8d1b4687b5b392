ghost use Rattle.std.specs.Prelude.{◌≡◌, ◌+◌, length, OnOk};

use crate::made::{comparison, equality, number};
use guard_eval::{
    Atom, Conjunct, ConjunctList, Leaf, Operand, Place, Signed, Term, WordsLeaf, decided, holds,
};
use join_base::{Items, NoMemory, Relation, Slots, Text};
use std::alloc::Global;
use std::test::Fail;

fn push_difference(leaves: &mut Items<Signed>) -> Result<(), NoMemory>
    ensures { OnOk result (length leaves.new ≡ length leaves.old + 2) }
{
    let field = Leaf::Field(Place {
        pattern: 1,
        field: 2,
    });
    leaves.push(Signed {
        minus: false,
        leaf: field,
    })?;
    leaves.push(Signed {
        minus: true,
        leaf: Leaf::Number(3),
    })?;
    Ok(())
}

// x - 3
fn difference(alloc: Global) -> Result<Term, NoMemory> {
    let mut leaves = Items::new(alloc);
    push_difference(&mut leaves)?;
    Ok(Term::new(leaves))
}

// x - 3 < x - 3
fn less(alloc: Global) -> Result<Atom, NoMemory> {
    Ok(Atom::Compare {
        left: Operand::Sum(difference(alloc)?),
        relation: Relation::Less,
        right: Operand::Sum(difference(alloc)?),
    })
}

fn push_less(alloc: Global, conjunct: &mut Conjunct) -> Result<(), NoMemory> {
    conjunct.push(less(alloc)?)
}

// !(x - 3 < x - 3)
fn not_less(alloc: Global) -> Result<Atom, NoMemory> {
    let mut inner = Conjunct::new(alloc);
    push_less(alloc, &mut inner)?;
    Ok(Atom::Not(Box::new(alloc, Atom::Group(inner))?))
}

fn push_both(alloc: Global, conjunct: &mut Conjunct) -> Result<(), NoMemory> {
    conjunct.push(not_less(alloc)?)?;
    push_less(alloc, conjunct)
}

// !(x - 3 < x - 3) || x - 3 < x - 3
fn conjunct(alloc: Global) -> Result<Conjunct, NoMemory> {
    let mut outer = Conjunct::new(alloc);
    push_both(alloc, &mut outer)?;
    Ok(outer)
}

fn is_term_copied(alloc: Global) -> Result<bool, NoMemory> {
    let term = difference(alloc)?;
    let copied = term.copy(alloc)?;
    Ok(copied.leaves() == term.leaves() && copied.leaves().len() == 2)
}

fn are_operands_copied(alloc: Global) -> Result<bool, Fail> {
    let fixed = WordsLeaf::Fixed(Text::from_bytes(alloc, b"open")?);
    let copied = fixed.copy(alloc)?;
    Ok(
        Operand::Sum(difference(alloc)?).copy(alloc).is_ok()
            && Operand::Words(copied).copy(alloc).is_ok(),
    )
}

fn push_conjuncts(alloc: Global, list: &mut ConjunctList) -> Result<(), NoMemory> {
    list.push(conjunct(alloc)?.copy(alloc)?)?;
    list.push(conjunct(alloc)?)
}

fn are_conjuncts_copied(alloc: Global) -> Result<bool, NoMemory> {
    let mut list = ConjunctList::new(alloc);
    push_conjuncts(alloc, &mut list)?;
    Ok(list.copy(alloc)?.as_slice().len() == 2)
}

#[test]
fn terms_operands_and_conjuncts_are_copied(rt: HostRuntime) -> Result<(), Fail> {
    let alloc = rt.alloc();
    let all = is_term_copied(alloc)? && are_operands_copied(alloc)? && are_conjuncts_copied(alloc)?;
    assert!(rt; all && less(alloc)?.copy(alloc).is_ok());
    Ok(())
}

// Whether two numbers compare so.
fn compare(alloc: Global, left: i64, relation: Relation, right: i64) -> Result<bool, NoMemory> {
    let left = number(alloc, left)?;
    let right = number(alloc, right)?;
    let conjunct = comparison(alloc, left, relation, right)?;
    Ok(holds(&conjunct, &Slots::new(1), &[]))
}

// Whether 6, 7 and 8 compare so with 7.
fn is_so(alloc: Global, relation: Relation, wanted: [bool; 3]) -> Result<bool, NoMemory> {
    let found = [
        compare(alloc, 6, relation, 7)?,
        compare(alloc, 7, relation, 7)?,
        compare(alloc, 8, relation, 7)?,
    ];
    Ok(found == wanted)
}

#[test]
fn each_relation_at_its_edge(rt: HostRuntime) -> Result<(), Fail> {
    let alloc = rt.alloc();
    let all = is_so(alloc, Relation::Equal, [false, true, false])?
        && is_so(alloc, Relation::NotEqual, [true, false, true])?
        && is_so(alloc, Relation::Less, [true, false, false])?
        && is_so(alloc, Relation::LessEqual, [true, true, false])?
        && is_so(alloc, Relation::Greater, [false, false, true])?
        && is_so(alloc, Relation::GreaterEqual, [false, true, true])?;
    assert!(rt; all);
    Ok(())
}

// Whether x == y is decided where both patterns are filled alone.
fn is_decided_last(alloc: Global) -> Result<bool, NoMemory> {
    let conjunct = equality(alloc)?;
    let mut slots = Slots::new(2);
    let none = decided(&conjunct, &slots);
    slots.fill(0, 1);
    let one = decided(&conjunct, &slots);
    slots.fill(1, 2);
    Ok(!none && !one && decided(&conjunct, &slots))
}

#[test]
fn a_conjunct_over_two_patterns_is_decided_where_both_are_filled(
    rt: HostRuntime,
) -> Result<(), Fail> {
    assert!(rt; is_decided_last(rt.alloc())?);
    Ok(())
}
