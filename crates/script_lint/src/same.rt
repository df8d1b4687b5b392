//! Whether two conjuncts are equal.
ghost use Rattle.std.specs.Prelude.{◌≡◌};
ghost use Rattle.guard_eval.specs.Shape.{atom_condition, atoms_condition, conjunct_condition};
ghost use Rattle.script_lint.specs.Same.{is_same, is_same_operand, is_same_words};

use guard_eval::{Atom, Conjunct, Operand, WordsLeaf};

fn is_same_words(first: &WordsLeaf, second: &WordsLeaf) -> bool
    ensures { result ≡ is_same_words first.now second.now }
{
    match (first, second) {
        (WordsLeaf::Fixed(a), WordsLeaf::Fixed(b)) => a.bytes() == b.bytes(),
        (WordsLeaf::Field(p), WordsLeaf::Field(q)) => *p == *q,
        _ => false,
    }
}

fn is_same_operand(first: &Operand, second: &Operand) -> bool
    ensures { result ≡ is_same_operand first.now second.now }
{
    match (first, second) {
        (Operand::Sum(a), Operand::Sum(b)) => a.leaves() == b.leaves(),
        (Operand::Words(a), Operand::Words(b)) => is_same_words(a, b),
        _ => false,
    }
}

#[cycle(same)]
fn is_same_atom(first: &Atom, second: &Atom) -> bool
    ensures { result ≡ is_same (atom_condition first.now) (atom_condition second.now) }
{
    match (first, second) {
        (
            Atom::Compare {
                left,
                relation,
                right,
            },
            Atom::Compare {
                left: other_left,
                relation: other_relation,
                right: other_right,
            },
        ) => {
            is_same_operand(left, other_left)
                && *relation == *other_relation
                && is_same_operand(right, other_right)
        }
        (Atom::Not(a), Atom::Not(b)) => is_same_atom(a, b),
        (Atom::Group(a), Atom::Group(b)) => {
            are_same_atoms(a.atoms.as_slice(), b.atoms.as_slice())
        }
        _ => false,
    }
}

#[cycle(same)]
fn are_same_atoms(first: &[Atom], second: &[Atom]) -> bool
    ensures { result ≡ is_same (atoms_condition first.now) (atoms_condition second.now) }
{
    match first {
        [] => match second {
            [] => true,
            [_, ..] => false,
        },
        [a, more @ ..] => match second {
            [] => false,
            [b, others @ ..] => is_same_atom(a, b) && are_same_atoms(more, others),
        },
    }
}

/// Whether two conjuncts are equal.
pub fn is_same(first: &Conjunct, second: &Conjunct) -> bool
    ensures { result ≡ is_same (conjunct_condition first.now) (conjunct_condition second.now) }
{
    are_same_atoms(first.atoms.as_slice(), second.atoms.as_slice())
}
