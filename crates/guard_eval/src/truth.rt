//! Whether a conjunct is true at an assignment.
ghost use Rattle.std.specs.Prelude.{◌≡◌, ◌++◌, ◌<◌, Some, length};
ghost use Rattle.std.specs.List.{AllByRecursion};
ghost use Rattle.join_base.specs.Fields.{value_seen};
ghost use Rattle.join_base.specs.Text.{IsText};
ghost use Rattle.guard_eval.specs.Meaning.{compares, is_true, needs_of, operand_needs, words_needs, words_of, words_relation, words_value, value_at};
ghost use Rattle.guard_eval.specs.Ready.{AreReady, IsWordsReady};
ghost use Rattle.guard_eval.specs.Shape.{atom_condition, conjunct_condition};

use crate::conjunct::{Atom, Conjunct};
use crate::relation::int_relation;
use crate::sums::sum;
use crate::term::{Operand, Place, WordsLeaf};
use join_base::{Message, Relation, Slots, ValueRef, recorded_message};

// Texts are compared for equality alone.
fn words_relation(relation: Relation, text: &[u8], other: &[u8]) -> bool
    ensures { result ≡ words_relation relation text.now other.now }
{
    match relation {
        Relation::Equal => text == other,
        Relation::NotEqual => text != other,
        _ => false,
    }
}

// The text of a value, and the empty one of an integer.
fn words_of(value: ValueRef<'_>) -> &[u8]
    ensures value { result.now ≡ words_of (Some (value_seen value.entry)) }
    ensures text { IsText 120 result.now }
{
    match value {
        ValueRef::Int(_) => &[],
        ValueRef::Words(text) => text.bytes(),
    }
}

// The text that a variable has.
fn place_words<'a>(place: Place, slots: &Slots, messages: &'a [Message]) -> &'a [u8]
    requires { IsWordsReady messages.now slots.now place }
    ensures value { result.now ≡ words_of (value_at messages.now slots.now place) }
    ensures text { IsText 120 result.now }
{
    match slots.get(place.pattern) {
        Some(number) => {
            let message = recorded_message(messages, number);
            words_of(message.fields.at(place.field as usize))
        }
        None => &[],
    }
}

/// The text of a leaf, of at most 120 bytes.
pub fn words<'a>(leaf: &'a WordsLeaf, slots: &Slots, messages: &'a [Message]) -> &'a [u8]
    requires { AreReady messages.now slots.now (words_needs leaf.now) }
    ensures value { result.now ≡ words_value messages.now slots.now leaf.now }
    ensures text { IsText 120 result.now }
{
    match leaf {
        WordsLeaf::Fixed(text) => text.bytes(),
        WordsLeaf::Field(place) => place_words(*place, slots, messages),
    }
}

// How a comparison of two operands comes out.
fn compares(
    left: &Operand,
    relation: Relation,
    right: &Operand,
    slots: &Slots,
    messages: &[Message],
) -> bool
    requires left { AreReady messages.now slots.now (operand_needs left.now) }
    requires right { AreReady messages.now slots.now (operand_needs right.now) }
    ensures { result ≡ compares messages.now slots.now left.now relation right.now }
{
    match (left, right) {
        (Operand::Sum(left), Operand::Sum(right)) => int_relation(
            relation,
            sum(left, slots, messages),
            sum(right, slots, messages),
        ),
        (Operand::Words(left), Operand::Words(right)) => words_relation(
            relation,
            words(left, slots, messages),
            words(right, slots, messages),
        ),
        _ => false,
    }
}

#[cycle(holds)]
fn atom_holds(atom: &Atom, slots: &Slots, messages: &[Message]) -> bool
    requires ready { AreReady messages.now slots.now (needs_of (atom_condition atom.now)) }
    ensures { result ≡ is_true messages.now slots.now (atom_condition atom.now) }
{
    match atom {
        Atom::Compare {
            left,
            relation,
            right,
        } => compares(left, *relation, right, slots, messages),
        Atom::Not(inner) => !atom_holds(inner, slots, messages),
        Atom::Group(inner) => holds(inner, slots, messages),
    }
}

/// Whether a conjunct is true at an assignment: one of its atoms is. The patterns of its variables are filled with
/// numbers of recorded messages, whose fields have the types that the conjunct needs.
#[cycle(holds)]
pub fn holds(conjunct: &Conjunct, slots: &Slots, messages: &[Message]) -> bool
    requires ready { AreReady messages.now slots.now (needs_of (conjunct_condition conjunct.now)) }
    ensures { result ≡ is_true messages.now slots.now (conjunct_condition conjunct.now) }
{
    for atom in &conjunct.atoms {
        if atom_holds(atom, slots, messages) {
            return true;
        }
    }
    false
}
