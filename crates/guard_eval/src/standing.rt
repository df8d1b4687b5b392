//! Whether a conjunct is decided at an assignment.
ghost use Rattle.std.specs.Prelude.{◌≡◌, ◌<◌, length};
ghost use Rattle.guard_eval.specs.Meaning.{is_decided, is_slot_filled, leaf_needs, needs_of, number_at, operand_needs, term_needs, words_needs};
ghost use Rattle.guard_eval.specs.Ready.{HavePlaces};
ghost use Rattle.guard_eval.specs.Shape.{atom_condition, conjunct_condition};
ghost use Rattle.guard_eval.specs.Standing.{all_filled, standing_beside, with_one};

use crate::conjunct::{Atom, Conjunct};
use crate::term::{Leaf, Operand, Place, Term, WordsLeaf};
use join_base::Slots;

/// How the patterns of the variables that were seen stand.
#[derive(Clone, Copy, PartialEq, Eq, Debug)]
enum Standing {
    NoVariable,
    /// Each of them has a number.
    Filled,
    /// One of them is empty.
    Open,
}

// With one variable more, whose pattern is filled or not.
fn with_one(before: Standing, filled: bool) -> Standing
    ensures { result ≡ with_one before filled }
{
    if !filled {
        return Standing::Open;
    }
    match before {
        Standing::NoVariable => Standing::Filled,
        Standing::Filled => Standing::Filled,
        Standing::Open => Standing::Open,
    }
}

// Whether the pattern of the variable is filled.
fn is_filled(place: Place, slots: &Slots) -> bool
    requires { place.pattern < length slots.now }
    ensures { result ≡ is_slot_filled (number_at slots.now place.pattern) }
{
    match slots.get(place.pattern) {
        Some(_) => true,
        None => false,
    }
}

fn leaf_standing(before: Standing, leaf: Leaf, slots: &Slots) -> Standing
    requires { HavePlaces slots.now (leaf_needs leaf) }
    ensures { result ≡ standing_beside slots.now before (leaf_needs leaf) }
{
    match leaf {
        Leaf::Number(_) => before,
        Leaf::Field(place) => with_one(before, is_filled(place, slots)),
    }
}

fn term_standing(before: Standing, term: &Term, slots: &Slots) -> Standing
    requires { HavePlaces slots.now (term_needs term.now) }
    ensures { result ≡ standing_beside slots.now before (term_needs term.now) }
{
    let mut standing = before;
    for signed in term.leaves() {
        standing = leaf_standing(standing, signed.leaf, slots);
    }
    standing
}

fn words_standing(before: Standing, words: &WordsLeaf, slots: &Slots) -> Standing
    requires { HavePlaces slots.now (words_needs words.now) }
    ensures { result ≡ standing_beside slots.now before (words_needs words.now) }
{
    match words {
        WordsLeaf::Fixed(_) => before,
        WordsLeaf::Field(place) => with_one(before, is_filled(*place, slots)),
    }
}

fn operand_standing(before: Standing, operand: &Operand, slots: &Slots) -> Standing
    requires { HavePlaces slots.now (operand_needs operand.now) }
    ensures { result ≡ standing_beside slots.now before (operand_needs operand.now) }
{
    match operand {
        Operand::Sum(term) => term_standing(before, term, slots),
        Operand::Words(words) => words_standing(before, words, slots),
    }
}

#[cycle(standing)]
fn atom_standing(before: Standing, atom: &Atom, slots: &Slots) -> Standing
    requires { HavePlaces slots.now (needs_of (atom_condition atom.now)) }
    ensures { result ≡ standing_beside slots.now before (needs_of (atom_condition atom.now)) }
{
    match atom {
        Atom::Compare { left, right, .. } => {
            let seen = operand_standing(before, left, slots);
            operand_standing(seen, right, slots)
        }
        Atom::Not(inner) => atom_standing(before, inner, slots),
        Atom::Group(inner) => conjunct_standing(before, inner, slots),
    }
}

#[cycle(standing)]
fn conjunct_standing(before: Standing, conjunct: &Conjunct, slots: &Slots) -> Standing
    requires { HavePlaces slots.now (needs_of (conjunct_condition conjunct.now)) }
    ensures { result ≡ standing_beside slots.now before (needs_of (conjunct_condition conjunct.now)) }
{
    let mut standing = before;
    for atom in &conjunct.atoms {
        standing = atom_standing(standing, atom, slots);
    }
    standing
}

// Whether there is a variable, and the pattern of each is filled.
fn all_filled(standing: Standing) -> bool
    ensures { result ≡ all_filled standing }
{
    match standing {
        Standing::NoVariable => false,
        Standing::Filled => true,
        Standing::Open => false,
    }
}

/// Whether a conjunct is decided at an assignment: it has a variable, and the patterns of its variables are filled.
/// There is a place for each of these patterns.
pub fn decided(conjunct: &Conjunct, slots: &Slots) -> bool
    requires { HavePlaces slots.now (needs_of (conjunct_condition conjunct.now)) }
    ensures { result ≡ is_decided slots.now (conjunct_condition conjunct.now) }
{
    all_filled(conjunct_standing(Standing::NoVariable, conjunct, slots))
}
