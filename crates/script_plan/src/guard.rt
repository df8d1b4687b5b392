//! Guards: conditions on the variables of a definition.
ghost use Rattle.std.specs.Prelude.{◌≡◌, IfOk, map};
ghost use Rattle.std.specs.List.{AllByRecursion};
ghost use Rattle.guard_eval.specs.Condition.{Grouped};
ghost use Rattle.guard_eval.specs.Shape.{atom_condition, conjunct_condition};
ghost use Rattle.script_grammar.specs.Atoms.{compares};
ghost use Rattle.script_grammar.specs.AtomViews.{atom_view, conjunct_view};
ghost use Rattle.script_grammar.specs.Prefixes.{marks_of};
ghost use Rattle.script_plan.specs.PlanOf.{atom_of, condition_of};
ghost use Rattle.script_plan.specs.Marked.{condition_marked, condition_under};
ghost use Rattle.script_plan.specs.Small.{AreSmallAtoms, IsSmallAtom, IsSmallOperand};

use crate::names::Variables;
use crate::term::operand_of;
use guard_eval::{Atom, Conjunct, ConjunctList};
use join_base::{NoMemory, Relation};
use script_grammar::{AtomDecl, ConjunctDecl, ConjunctDeclList, OperandDecl, Prefix};
use std::alloc::Global;

fn group_of(conjunct: Conjunct) -> Atom
    ensures { atom_condition result ≡ Grouped (conjunct_condition conjunct) }
{
    Atom::Group(conjunct)
}

// An atom behind a `!`, or else in parentheses.
fn with_mark(alloc: Global, is_not: bool, atom: Atom) -> Result<Atom, NoMemory>
    ensures { IfOk result (λ whole. atom_condition whole ≡ condition_marked is_not (atom_condition atom)) }
{
    if is_not {
        return Ok(Atom::Not(Box::new(alloc, atom)?));
    }
    let mut conjunct = Conjunct::new(alloc);
    conjunct.push(atom)?;
    Ok(group_of(conjunct))
}

// An atom behind a prefix.
fn with_prefix(alloc: Global, prefix: Prefix, atom: Atom) -> Result<Atom, NoMemory>
    ensures { IfOk result (λ whole. atom_condition whole ≡ condition_under (marks_of prefix) (atom_condition atom)) }
{
    match prefix.split() {
        None => Ok(atom),
        Some((is_not, inner)) => {
            let atom = with_prefix(alloc, inner, atom)?;
            with_mark(alloc, is_not, atom)
        }
    }
}

fn compare_of(
    alloc: Global,
    variables: &Variables,
    left: &OperandDecl,
    relation: Relation,
    right: &OperandDecl,
) -> Result<Atom, NoMemory>
    requires left { IsSmallOperand left.now }
    requires right { IsSmallOperand right.now }
    ensures { IfOk result (λ atom. atom_condition atom ≡ atom_of variables.now (compares left.now relation right.now)) }
{
    let left = operand_of(alloc, variables, left)?;
    let right = operand_of(alloc, variables, right)?;
    Ok(Atom::Compare {
        left,
        relation,
        right,
    })
}

#[cycle(guard)]
fn atom_of(alloc: Global, variables: &Variables, decl: &AtomDecl) -> Result<Atom, NoMemory>
    requires small { IsSmallAtom (atom_view decl.now) }
    ensures { IfOk result (λ atom. atom_condition atom ≡ atom_of variables.now (atom_view decl.now)) }
{
    match decl {
        AtomDecl::Compare {
            prefix,
            left,
            relation,
            right,
        } => {
            let atom = compare_of(alloc, variables, left, *relation, right)?;
            with_prefix(alloc, *prefix, atom)
        }
        AtomDecl::Not(inner) => {
            let atom = atom_of(alloc, variables, inner)?;
            Ok(Atom::Not(Box::new(alloc, atom)?))
        }
        AtomDecl::Group { prefix, conjunct } => {
            let conjunct = condition_of(alloc, variables, conjunct)?;
            with_prefix(alloc, *prefix, group_of(conjunct))
        }
    }
}

#[cycle(guard)]
fn condition_of(
    alloc: Global,
    variables: &Variables,
    decl: &ConjunctDecl,
) -> Result<Conjunct, NoMemory>
    requires small { AreSmallAtoms (conjunct_view decl.now) }
    ensures { IfOk result (λ conjunct. conjunct_condition conjunct ≡ condition_of variables.now
        (conjunct_view decl.now)) }
{
    let mut conjunct = Conjunct::new(alloc);
    for decl in &decl.atoms {
        let atom = atom_of(alloc, variables, decl)?;
        conjunct.push(atom)?;
    }
    Ok(conjunct)
}

pub(crate) fn conjuncts_of(
    alloc: Global,
    variables: &Variables,
    guard: &ConjunctDeclList,
) -> Result<ConjunctList, NoMemory>
    requires { AllByRecursion AreSmallAtoms guard.now }
    ensures { IfOk result (λ conjuncts. conjuncts ≡ map (condition_of variables.now) guard.now) }
{
    let mut conjuncts = ConjunctList::new(alloc);
    for decl in guard.as_slice() {
        let conjunct = condition_of(alloc, variables, decl)?;
        conjuncts.push(conjunct)?;
    }
    Ok(conjuncts)
}
