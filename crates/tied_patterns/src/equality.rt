//! Equalities of two variables, which a guard asks for.
ghost use Rattle.std.specs.Prelude.{◌≡◌, ◌++◌, [], OnOk, IfOk, map};
ghost use Rattle.std.specs.List.{cons_option};
ghost use Rattle.guard_eval.specs.Shape.{atom_condition, atoms_condition, conjunct_condition};
ghost use Rattle.tied_patterns.specs.Equalities.{equalities_in, equality_before, equality_between, equality_in, equality_of, lone_field, variable_of};

use guard_eval::{Atom, Conjunct, ConjunctList, Leaf, Operand, Place, Signed, WordsLeaf};
use join_base::{NoMemory, Relation};
use std::alloc::Global;

/// Two variables that are equal.
#[derive(Clone, Copy, PartialEq, Eq, Debug)]
pub struct Equality {
    pub left: Place,
    pub right: Place,
}

// The field of a sum that is a single field without a minus.
fn lone_field(leaves: &[Signed]) -> Option<Place>
    ensures { result ≡ lone_field leaves.now }
{
    match leaves {
        [signed] => match signed.leaf {
            Leaf::Field(place) if !signed.minus => Some(place),
            _ => None,
        },
        _ => None,
    }
}

// The variable that an operand is.
fn variable_of(operand: &Operand) -> Option<Place>
    ensures { result ≡ variable_of operand.now }
{
    match operand {
        Operand::Sum(term) => lone_field(term.leaves()),
        Operand::Words(WordsLeaf::Field(place)) => Some(*place),
        Operand::Words(WordsLeaf::Fixed(_)) => None,
    }
}

fn equality_between(left: Option<Place>, right: Option<Place>) -> Option<Equality>
    ensures { result ≡ equality_between left right }
{
    match (left, right) {
        (Some(left), Some(right)) => Some(Equality { left, right }),
        _ => None,
    }
}

// The equality of two variables that an atom is.
fn equality_of(atom: &Atom) -> Option<Equality>
    ensures { result ≡ equality_of (atom_condition atom.now) }
{
    match atom {
        Atom::Compare {
            left,
            relation,
            right,
        } => match relation {
            Relation::Equal => equality_between(variable_of(left), variable_of(right)),
            _ => None,
        },
        Atom::Not(_) => None,
        Atom::Group(_) => None,
    }
}

// The equality of two variables that an atom is which has no others behind it.
#[tactic(auto, using(crate::proofs::EqualityLemmas::none_before))]
fn equality_before(atom: &Atom, others: &[Atom]) -> Option<Equality>
    ensures { result ≡ equality_before (atom_condition atom.now) (atoms_condition others.now) }
{
    match others {
        [] => equality_of(atom),
        [_, ..] => None,
    }
}

// The equality of two variables that a conjunct is.
fn equality_in(conjunct: &Conjunct) -> Option<Equality>
    ensures { result ≡ equality_in (conjunct_condition conjunct.now) }
{
    match conjunct.atoms.as_slice() {
        [] => None,
        [atom, others @ ..] => equality_before(atom, others),
    }
}

fn push_some(equalities: &mut Vec<Equality>, found: Option<Equality>) -> Result<(), NoMemory>
    ensures { OnOk result (equalities.new.items ≡ equalities.old.items ++ cons_option found []) }
{
    if let Some(equality) = found {
        equalities.push(equality)?;
    }
    Ok(())
}

fn equalities_from(alloc: Global, conjuncts: &[Conjunct]) -> Result<Vec<Equality>, NoMemory>
    ensures { IfOk result (λ equalities. equalities.items ≡ equalities_in (map conjunct_condition conjuncts.now)) }
{
    let mut equalities = Vec::new(alloc);
    for conjunct in conjuncts {
        push_some(&mut equalities, equality_in(conjunct))?;
    }
    Ok(equalities)
}

/// The equalities of two variables among conjuncts.
pub fn equalities_in(alloc: Global, conjuncts: &ConjunctList) -> Result<Vec<Equality>, NoMemory>
    ensures { IfOk result (λ equalities. equalities.items ≡ equalities_in conjuncts.now) }
{
    equalities_from(alloc, conjuncts.as_slice())
}
