//! Guards as text.
ghost use Rattle.std.specs.Prelude.{◌≡◌, ◌++◌, OnOk, map};
ghost use Rattle.guard_eval.specs.Shape.{atom_condition, conjunct_condition};
ghost use Rattle.plan_text.specs.GuardText.{comparison_text, condition_text, guard_text, relation_text};

use crate::names::Row;
use crate::terms::write_operand;
use guard_eval::{Atom, Conjunct, Operand};
use join_base::{Bytes, NoMemory, Relation};

fn write_relation(text: &mut Bytes, relation: Relation) -> Result<(), NoMemory>
    ensures { OnOk result (text.new ≡ text.old ++ relation_text relation) }
{
    match relation {
        Relation::Equal => text.push_all(b"=="),
        Relation::NotEqual => text.push_all(b"!="),
        Relation::Less => text.push_all(b"<"),
        Relation::LessEqual => text.push_all(b"<="),
        Relation::Greater => text.push_all(b">"),
        Relation::GreaterEqual => text.push_all(b">="),
    }
}

fn write_comparison(
    text: &mut Bytes,
    variables: &[Row],
    left: &Operand,
    relation: Relation,
    right: &Operand,
) -> Result<(), NoMemory>
    ensures { OnOk result (text.new ≡ text.old ++ comparison_text variables.now left.now relation right.now) }
{
    write_operand(text, variables, left)?;
    text.push_all(b" ")?;
    write_relation(text, relation)?;
    text.push_all(b" ")?;
    write_operand(text, variables, right)
}

#[cycle(write)]
fn write_atom(text: &mut Bytes, variables: &[Row], atom: &Atom) -> Result<(), NoMemory>
    ensures { OnOk result (text.new ≡ text.old ++ condition_text variables.now (atom_condition atom.now)) }
{
    match atom {
        Atom::Compare {
            left,
            relation,
            right,
        } => write_comparison(text, variables, left, *relation, right),
        Atom::Not(inner) => {
            text.push_all(b"!")?;
            write_atom(text, variables, inner)
        }
        Atom::Group(inner) => {
            text.push_all(b"(")?;
            write_conjunct(text, variables, inner)?;
            text.push_all(b")")
        }
    }
}

/// Appends the atoms of a conjunct, ` || ` between each two, with these names of its variables. Without memory some of
/// it may stay appended.
#[cycle(write)]
pub fn write_conjunct(
    text: &mut Bytes,
    variables: &[Row],
    conjunct: &Conjunct,
) -> Result<(), NoMemory>
    ensures { OnOk result (text.new ≡ text.old ++ condition_text variables.now (conjunct_condition conjunct.now)) }
{
    match conjunct.atoms.as_slice() {
        [] => Ok(()),
        [first, more @ ..] => {
            write_atom(text, variables, first)?;
            for atom in more {
                text.push_all(b" || ")?;
                write_atom(text, variables, atom)?;
            }
            Ok(())
        }
    }
}

// ` if ` and the conjuncts, ` && ` between each two, or nothing where there is none.
pub(crate) fn write_guard(
    text: &mut Bytes,
    variables: &[Row],
    conjuncts: &[Conjunct],
) -> Result<(), NoMemory>
    ensures { OnOk result (text.new ≡ text.old ++ guard_text variables.now (map conjunct_condition conjuncts.now)) }
{
    match conjuncts {
        [] => Ok(()),
        [first, more @ ..] => {
            text.push_all(b" if ")?;
            write_conjunct(text, variables, first)?;
            for conjunct in more {
                text.push_all(b" && ")?;
                write_conjunct(text, variables, conjunct)?;
            }
            Ok(())
        }
    }
}
