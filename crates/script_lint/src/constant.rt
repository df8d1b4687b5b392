//! Conjuncts without a variable, which have one truth.
ghost use Rattle.std.specs.Prelude.{◌≡◌};
ghost use Rattle.guard_eval.specs.Meaning.{has_some, needs_of, operand_needs};
ghost use Rattle.guard_eval.specs.Shape.{atom_condition, conjunct_condition};
ghost use Rattle.script_lint.specs.Findings.{is_always_false, is_always_true};

use crate::bounds::has_field;
use guard_eval::{Atom, Conjunct, Operand, WordsLeaf, holds};
use join_base::{Message, Numbers, Slots};

fn operand_has_variable(operand: &Operand) -> bool
    ensures { result ≡ has_some (operand_needs operand.now) }
{
    match operand {
        Operand::Sum(term) => has_field(term.leaves()),
        Operand::Words(WordsLeaf::Fixed(_)) => false,
        Operand::Words(WordsLeaf::Field(_)) => true,
    }
}

#[cycle(variable)]
#[tactic(auto, using(crate::proofs::AtomLemmas::variables))]
fn atom_has_variable(atom: &Atom) -> bool
    ensures { result ≡ has_some (needs_of (atom_condition atom.now)) }
{
    match atom {
        Atom::Compare { left, right, .. } => {
            operand_has_variable(left) || operand_has_variable(right)
        }
        Atom::Not(inner) => atom_has_variable(inner),
        Atom::Group(inner) => has_variable(inner),
    }
}

#[cycle(variable)]
#[tactic(auto, using(crate::proofs::AtomLemmas::variables))]
fn has_variable(conjunct: &Conjunct) -> bool
    ensures { result ≡ has_some (needs_of (conjunct_condition conjunct.now)) }
{
    for atom in &conjunct.atoms {
        if atom_has_variable(atom) {
            return true;
        }
    }
    false
}

/// Whether the conjunct has no variable and is false.
pub fn is_always_false(conjunct: &Conjunct) -> bool
    ensures { result ≡ is_always_false (conjunct_condition conjunct.now) }
{
    if has_variable(conjunct) {
        return false;
    }
    let none: &[Message] = &[];
    !holds(conjunct, &Slots::of(&Numbers::new()), none)
}

/// Whether the conjunct has no variable and is true.
pub fn is_always_true(conjunct: &Conjunct) -> bool
    ensures { result ≡ is_always_true (conjunct_condition conjunct.now) }
{
    if has_variable(conjunct) {
        return false;
    }
    let none: &[Message] = &[];
    holds(conjunct, &Slots::of(&Numbers::new()), none)
}
