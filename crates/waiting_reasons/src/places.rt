//! The variables of a conjunct, in the order of its text.
ghost use Rattle.std.specs.Prelude.{◌≡◌, ◌++◌, IfOk, OnOk};
ghost use Rattle.guard_eval.specs.Meaning.{leaf_needs, needs_of, operand_needs, term_needs, words_needs};
ghost use Rattle.guard_eval.specs.Shape.{atom_condition, conjunct_condition};
ghost use Rattle.waiting_reasons.specs.Guards.{has_place, is_place, places_in, places_of};

use guard_eval::{Atom, Conjunct, Leaf, Operand, Place, Term, WordsLeaf};
use join_base::{Items, NoMemory};
use std::alloc::Global;

fn push_leaf(places: &mut Items<Place>, leaf: Leaf) -> Result<(), NoMemory>
    ensures { OnOk result (places.new ≡ places.old ++ places_in (leaf_needs leaf)) }
{
    match leaf {
        Leaf::Number(_) => Ok(()),
        Leaf::Field(place) => places.push(place),
    }
}

#[tactic(auto, using(crate::proofs::PlaceLemmas::placed))]
fn push_term(places: &mut Items<Place>, term: &Term) -> Result<(), NoMemory>
    ensures { OnOk result (places.new ≡ places.old ++ places_in (term_needs term.now)) }
{
    for signed in term.leaves() {
        push_leaf(places, signed.leaf)?;
    }
    Ok(())
}

fn push_words(places: &mut Items<Place>, words: &WordsLeaf) -> Result<(), NoMemory>
    ensures { OnOk result (places.new ≡ places.old ++ places_in (words_needs words.now)) }
{
    match words {
        WordsLeaf::Fixed(_) => Ok(()),
        WordsLeaf::Field(place) => places.push(*place),
    }
}

fn push_operand(places: &mut Items<Place>, operand: &Operand) -> Result<(), NoMemory>
    ensures { OnOk result (places.new ≡ places.old ++ places_in (operand_needs operand.now)) }
{
    match operand {
        Operand::Sum(term) => push_term(places, term),
        Operand::Words(words) => push_words(places, words),
    }
}

#[tactic(auto, using(crate::proofs::PlaceLemmas::placed))]
fn push_operands(places: &mut Items<Place>, left: &Operand, right: &Operand) -> Result<(), NoMemory>
    ensures { OnOk result (places.new ≡ places.old ++ places_in (operand_needs left.now ++ operand_needs right.now)) }
{
    push_operand(places, left)?;
    push_operand(places, right)
}

#[cycle(push)]
#[tactic(auto, using(crate::proofs::PlaceLemmas::placed))]
fn push_atom(places: &mut Items<Place>, atom: &Atom) -> Result<(), NoMemory>
    ensures { OnOk result (places.new ≡ places.old ++ places_in (needs_of (atom_condition atom.now))) }
{
    match atom {
        Atom::Compare { left, right, .. } => push_operands(places, left, right),
        Atom::Not(inner) => push_atom(places, inner),
        Atom::Group(inner) => push_conjunct(places, inner),
    }
}

#[cycle(push)]
#[tactic(auto, using(crate::proofs::PlaceLemmas::placed))]
fn push_conjunct(places: &mut Items<Place>, conjunct: &Conjunct) -> Result<(), NoMemory>
    ensures { OnOk result (places.new ≡ places.old ++ places_in (needs_of (conjunct_condition conjunct.now))) }
{
    for atom in &conjunct.atoms {
        push_atom(places, atom)?;
    }
    Ok(())
}

/// The places of the variables of a conjunct.
pub fn places_of(alloc: Global, conjunct: &Conjunct) -> Result<Items<Place>, NoMemory>
    ensures places { IfOk result (λ p. p ≡ places_of (conjunct_condition conjunct.now)) }
{
    let mut places = Items::new(alloc);
    push_conjunct(&mut places, conjunct)?;
    Ok(places)
}

fn is_place(place: Place, other: Place) -> bool
    ensures { result ≡ is_place place other }
{
    place.pattern == other.pattern && place.field == other.field
}

/// Whether the place is among them.
pub fn has_place(places: &[Place], place: Place) -> bool
    ensures { result ≡ has_place places.now place }
{
    for other in places {
        if is_place(place, *other) {
            return true;
        }
    }
    false
}
