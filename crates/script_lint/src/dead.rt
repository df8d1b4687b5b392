//! Definitions whose guard is never true, and those whose window is too small.
ghost use Rattle.std.specs.Prelude.{◌≡◌, None, Some, MatchOption};
ghost use Rattle.guard_eval.specs.Shape.{atom_condition, conjunct_condition};
ghost use Rattle.script_lint.specs.Bounds.{bound_of};
ghost use Rattle.script_lint.specs.Findings.{fixes_otherwise, fixing_by, fixing_of, fixing_of_atom, is_contradicted, is_dead, is_emptied, is_excluded, is_narrow};

use crate::bounds::{bound_of, interval_of, only_atom};
use crate::constant::is_always_false;
use guard_eval::{Atom, Conjunct, ConjunctList, Operand, Place, WordsLeaf};
use join_base::{Relation, Text};
use pattern_core::Definition;

// A text place and the fixed text that it is compared with.
fn fixing_by<'a>(left: &'a WordsLeaf, right: &'a WordsLeaf) -> Option<(Place, &'a Text)>
    ensures { MatchOption result (fixing_by left.now right.now ≡ None) (λ f. fixing_by left.now right.now
        ≡ Some (f.0, f.1.now)) }
{
    match (left, right) {
        (WordsLeaf::Field(place), WordsLeaf::Fixed(text)) => Some((*place, text)),
        (WordsLeaf::Fixed(text), WordsLeaf::Field(place)) => Some((*place, text)),
        _ => None,
    }
}

fn fixing_of_atom(atom: &Atom) -> Option<(Place, &Text)>
    ensures { MatchOption result (fixing_of_atom (atom_condition atom.now) ≡ None) (λ f. fixing_of_atom
        (atom_condition atom.now) ≡ Some (f.0, f.1.now)) }
{
    match atom {
        Atom::Compare {
            left: Operand::Words(left),
            relation: Relation::Equal,
            right: Operand::Words(right),
        } => fixing_by(left, right),
        _ => None,
    }
}

fn fixing_of(conjunct: &Conjunct) -> Option<(Place, &Text)>
    ensures { MatchOption result (fixing_of (conjunct_condition conjunct.now) ≡ None)
        (λ f. fixing_of (conjunct_condition conjunct.now) ≡ Some (f.0, f.1.now)) }
{
    match only_atom(conjunct) {
        Some(atom) => fixing_of_atom(atom),
        None => None,
    }
}

// Whether the conjunct fixes the place to another text.
fn fixes_otherwise(place: Place, text: &Text, conjunct: &Conjunct) -> bool
    ensures { result ≡ fixes_otherwise (place, text.now) (fixing_of (conjunct_condition conjunct.now)) }
{
    match fixing_of(conjunct) {
        Some((other, words)) => place == other && text.bytes() != words.bytes(),
        None => false,
    }
}

// Whether one of the conjuncts fixes the text place of this one to another text.
fn is_contradicted(conjuncts: &ConjunctList, conjunct: &Conjunct) -> bool
    ensures { result ≡ is_contradicted conjuncts.now (fixing_of (conjunct_condition conjunct.now)) }
{
    match fixing_of(conjunct) {
        None => false,
        Some((place, text)) => is_fixed_otherwise(conjuncts, place, text),
    }
}

fn is_fixed_otherwise(conjuncts: &ConjunctList, place: Place, text: &Text) -> bool
    ensures { result ≡ is_contradicted conjuncts.now (Some (place, text.now)) }
{
    for other in conjuncts.as_slice() {
        if fixes_otherwise(place, text, other) {
            return true;
        }
    }
    false
}

// Whether the conjuncts leave no integer for the place that this one bounds.
fn is_emptied(conjuncts: &ConjunctList, conjunct: &Conjunct) -> bool
    ensures { result ≡ is_emptied conjuncts.now (bound_of (conjunct_condition conjunct.now)) }
{
    match bound_of(conjunct) {
        Some(bound) => interval_of(conjuncts, bound.place).is_empty(),
        None => false,
    }
}

fn is_excluded(conjuncts: &ConjunctList, conjunct: &Conjunct) -> bool
    ensures { result ≡ is_excluded conjuncts.now (conjunct_condition conjunct.now) }
{
    is_always_false(conjunct)
        || is_emptied(conjuncts, conjunct)
        || is_contradicted(conjuncts, conjunct)
}

/// Whether no messages make the guard true.
pub fn is_dead(definition: &Definition) -> bool
    ensures { result ≡ is_dead definition.now }
{
    for conjunct in definition.conjuncts.as_slice() {
        if is_excluded(&definition.conjuncts, conjunct) {
            return true;
        }
    }
    false
}

/// Whether the window is smaller than the number of patterns.
pub fn is_narrow(definition: &Definition) -> bool
    ensures { result ≡ is_narrow definition.now }
{
    match definition.window {
        Some(window) => (window as usize) < definition.patterns.len(),
        None => false,
    }
}
