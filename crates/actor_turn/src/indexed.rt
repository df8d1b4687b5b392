//! The index of an actor's messages, by the fields that its definitions compare with fields of other patterns. Which
//! fields these are bears on speed alone, so no clause says it.
ghost use Rattle.std.specs.Prelude.{◌≡◌, [], All, if◌then◌else◌};
ghost use Rattle.pattern_core.specs.Suits.{IsRecorded};
ghost use Rattle.value_index.specs.Index.{AddsNone};
ghost use Rattle.fair_semantics.specs.Step.{is_running};
ghost use Rattle.actor_turn.specs.Indexed.{KeepsUntaken, LacksTaken};

use fair_semantics::Ending;
use guard_eval::{Atom, Conjunct, Leaf, Operand, Place, Signed, WordsLeaf};
use join_base::{Items, Message, NoMemory, Relation};
use pattern_core::Definition;
use script_types::Rule;
use std::alloc::Global;
use value_index::{IndexedField, ValueIndex};

// Adds the field of a place, where the definition has its pattern.
fn add_place(
    index: &mut ValueIndex,
    definition: &Definition,
    place: Place,
    words: bool,
) -> Result<(), NoMemory> {
    match definition.patterns.as_slice().get(place.pattern as usize) {
        None => Ok(()),
        Some(kind) => index.add_field(IndexedField {
            kind: *kind,
            field: place.field,
            words,
        }),
    }
}

// Adds the fields of a sum.
fn add_leaves(
    index: &mut ValueIndex,
    definition: &Definition,
    leaves: &[Signed],
) -> Result<(), NoMemory> {
    for signed in leaves {
        match signed.leaf {
            Leaf::Number(_) => {}
            Leaf::Field(place) => add_place(index, definition, place, false)?,
        }
    }
    Ok(())
}

// Adds the fields of an operand.
fn add_operand(
    index: &mut ValueIndex,
    definition: &Definition,
    operand: &Operand,
) -> Result<(), NoMemory> {
    match operand {
        Operand::Sum(term) => add_leaves(index, definition, term.leaves()),
        Operand::Words(WordsLeaf::Fixed(_)) => Ok(()),
        Operand::Words(WordsLeaf::Field(place)) => add_place(index, definition, *place, true),
    }
}

// The pattern of the first field of an operand, if it has one.
fn first_pattern(operand: &Operand) -> Option<u32> {
    match operand {
        Operand::Sum(term) => {
            for signed in term.leaves() {
                if let Leaf::Field(place) = signed.leaf {
                    return Some(place.pattern);
                }
            }
            None
        }
        Operand::Words(WordsLeaf::Fixed(_)) => None,
        Operand::Words(WordsLeaf::Field(place)) => Some(place.pattern),
    }
}

// Whether an operand has a field of another pattern.
fn has_other(operand: &Operand, pattern: u32) -> bool {
    match operand {
        Operand::Sum(term) => {
            for signed in term.leaves() {
                if let Leaf::Field(place) = signed.leaf {
                    if place.pattern != pattern {
                        return true;
                    }
                }
            }
            false
        }
        Operand::Words(WordsLeaf::Fixed(_)) => false,
        Operand::Words(WordsLeaf::Field(place)) => place.pattern != pattern,
    }
}

// Whether two operands have fields of different patterns.
fn are_tied(left: &Operand, right: &Operand) -> bool {
    match first_pattern(left) {
        Some(pattern) => has_other(left, pattern) || has_other(right, pattern),
        None => match first_pattern(right) {
            Some(pattern) => has_other(right, pattern),
            None => false,
        },
    }
}

// Adds the fields of a conjunct that compares fields of different patterns, and says nothing else. Fields that differ
// are not looked up.
fn add_conjunct(
    index: &mut ValueIndex,
    definition: &Definition,
    conjunct: &Conjunct,
) -> Result<(), NoMemory> {
    match conjunct.atoms.as_slice() {
        [
            Atom::Compare {
                left,
                relation,
                right,
            },
        ] => {
            if *relation == Relation::NotEqual || !are_tied(left, right) {
                return Ok(());
            }
            add_operand(index, definition, left)?;
            add_operand(index, definition, right)
        }
        _ => Ok(()),
    }
}

// Adds the fields of a definition.
fn add_definition(index: &mut ValueIndex, definition: &Definition) -> Result<(), NoMemory> {
    for conjunct in definition.conjuncts.as_slice() {
        add_conjunct(index, definition, conjunct)?;
    }
    Ok(())
}

/// An index of the fields that the rules compare with those of other patterns, without a number.
pub fn index_of(alloc: Global, rules: &Items<Rule>) -> Result<ValueIndex, NoMemory> {
    let mut index = ValueIndex::new(alloc);
    for rule in rules.as_slice() {
        add_definition(&mut index, &rule.definition)?;
    }
    Ok(index)
}

/// The numbers that a firing takes leave the index.
pub fn remove_taken(index: &mut ValueIndex, messages: &[Message], taken: &[u32])
    requires recorded { All (IsRecorded messages.now) taken.now }
    ensures fields { index.new.fields ≡ index.old.fields }
    ensures others { KeepsUntaken taken.now index.old.entries index.new.entries }
    ensures adds_none { AddsNone index.old.entries index.new.entries }
    ensures gone { LacksTaken taken.now index.new messages.now }
{
    for number in taken {
        index.remove(messages, *number);
    }
}

/// All numbers leave the index of an actor that has ended.
pub fn empty_ended(index: &mut ValueIndex, ending: Ending)
    ensures fields { index.new.fields ≡ index.old.fields }
    ensures entries { index.new.entries ≡ (if is_running ending then index.old.entries else []) }
{
    match ending {
        Ending::Running => {}
        Ending::Stopped | Ending::Jammed | Ending::Spent => index.clear(),
    }
}
