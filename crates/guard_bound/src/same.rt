//! Conjuncts that say that two text fields are equal.
ghost use Rattle.std.specs.Prelude.{◌≡◌, IfSome};
ghost use Rattle.guard_eval.specs.Shape.{conjunct_condition};
ghost use Rattle.guard_bound.specs.Same.{SaysSame, are_same, is_same, words_at, words_operand};

use guard_eval::{Atom, Conjunct, Operand, Place, WordsLeaf};
use join_base::{Message, Relation, ValueRef};

/// A text field of a number's message is equal to a field of the known number's.
#[derive(Clone, Copy, PartialEq, Eq, Debug)]
pub struct Same {
    pub field: u32,
    pub other: u32,
}

// The text at a field of a recorded message, and the empty one where there is none.
fn words_at(messages: &[Message], number: u32, field: u32) -> &[u8]
    ensures { result.now ≡ words_at messages.now number field }
{
    let Some(place) = number.checked_sub(1) else {
        return &[];
    };
    let Some(message) = messages.get(place as usize) else {
        return &[];
    };
    match message.fields.get(field as usize) {
        Some(ValueRef::Words(text)) => text.bytes(),
        _ => &[],
    }
}

// The field that an operand is, where it is a text field.
fn words_field(operand: &Operand) -> Option<Place>
    ensures { IfSome result (λ place. operand.now ≡ words_operand place) }
{
    match operand {
        Operand::Words(WordsLeaf::Field(place)) => Some(*place),
        _ => None,
    }
}

// The two text fields that a conjunct says are equal, where it says nothing else.
fn equal_words(conjunct: &Conjunct) -> Option<(Place, Place)>
    ensures { IfSome result (λ fields. conjunct_condition conjunct.now ≡ are_same fields.0 fields.1) }
{
    match conjunct.atoms.as_slice() {
        [
            Atom::Compare {
                left,
                relation: Relation::Equal,
                right,
            },
        ] => Some((words_field(left)?, words_field(right)?)),
        _ => None,
    }
}

/// The text fields of the pattern and of the wanted one that the conjunct says are equal, where it says nothing else.
pub fn same_of(pattern: u32, wanted: u32, conjunct: &Conjunct) -> Option<Same>
    ensures { IfSome result (SaysSame pattern wanted (conjunct_condition conjunct.now)) }
{
    let (first, second) = equal_words(conjunct)?;
    if first.pattern == pattern && second.pattern == wanted {
        return Some(Same {
            field: first.field,
            other: second.field,
        });
    }
    if second.pattern == pattern && first.pattern == wanted {
        return Some(Same {
            field: second.field,
            other: first.field,
        });
    }
    None
}

/// Whether the number's text is that of the known number, and true where no texts are compared.
pub fn is_same(messages: &[Message], known: u32, same: Option<Same>, number: u32) -> bool
    ensures { result ≡ is_same messages.now known same number }
{
    match same {
        None => true,
        Some(same) => {
            words_at(messages, number, same.field) == words_at(messages, known, same.other)
        }
    }
}
