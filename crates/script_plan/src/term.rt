//! Terms and operands: sums, and texts.
ghost use Rattle.std.specs.Prelude.{◌≡◌, ◌∷◌, [], IfOk, false};
ghost use Rattle.std.specs.Option.{option_map};
ghost use Rattle.script_grammar.specs.OperandViews.{operand_seen};
ghost use Rattle.script_names.specs.Scope.{name_in, only_name};
ghost use Rattle.script_plan.specs.PlanOf.{leaf_of, name_operand, operand_of, part_of, sum_operand, term_of};
ghost use Rattle.script_plan.specs.Small.{IsSmallOperand, IsSmallTerm};

use crate::names::Variables;
use guard_eval::{Leaf, Operand, Signed, Term, WordsLeaf};
use join_base::{Items, NoMemory, Sort};
use script_grammar::{LeafDecl, OperandDecl, OperandRef, Part};
use std::alloc::Global;

fn part_of(variables: &Variables, part: &Part) -> Leaf
    ensures { result ≡ part_of variables.now part.now }
{
    match part {
        Part::Number(number) => Leaf::Number(*number),
        Part::Named(name) => Leaf::Field(variables.place_of(name.bytes())),
    }
}

fn leaf_of(variables: &Variables, leaf: &LeafDecl) -> Signed
    ensures { result ≡ leaf_of variables.now leaf.now }
{
    Signed {
        minus: leaf.minus,
        leaf: part_of(variables, &leaf.part),
    }
}

fn leaves_of(
    alloc: Global,
    variables: &Variables,
    decls: &[LeafDecl],
) -> Result<Items<Signed>, NoMemory>
    ensures { IfOk result (λ leaves. leaves ≡ term_of variables.now decls.now) }
{
    let mut leaves = Items::new(alloc);
    for decl in decls {
        leaves.push(leaf_of(variables, decl))?;
    }
    Ok(leaves)
}

pub(crate) fn term_of(
    alloc: Global,
    variables: &Variables,
    decls: &[LeafDecl],
) -> Result<Term, NoMemory>
    requires { IsSmallTerm decls.now }
    ensures { IfOk result (λ term. term ≡ term_of variables.now decls.now) }
{
    let leaves = leaves_of(alloc, variables, decls)?;
    Ok(Term::new(leaves))
}

// The name that a leaf is, where it has no sign.
fn name_in(leaf: &LeafDecl) -> Option<&[u8]>
    ensures { option_map (λ name. name.now) result ≡ name_in leaf.now.minus leaf.now.part }
{
    if leaf.minus {
        return None;
    }
    match &leaf.part {
        Part::Named(name) => Some(name.bytes()),
        Part::Number(_) => None,
    }
}

// The name that a term is.
fn only_name(leaves: &[LeafDecl]) -> Option<&[u8]>
    ensures { option_map (λ name. name.now) result ≡ only_name leaves.now }
{
    match leaves {
        [leaf] => name_in(leaf),
        _ => None,
    }
}

fn sum_operand(
    alloc: Global,
    variables: &Variables,
    leaves: &[LeafDecl],
    name: Option<&[u8]>,
) -> Result<Operand, NoMemory>
    requires { IsSmallTerm leaves.now }
    ensures { IfOk result (λ operand. operand ≡ sum_operand variables.now leaves.now (option_map (λ name. name.now)
        name.entry)) }
{
    if let Some(name) = name {
        if variables.sort_of(name) == Sort::Words {
            return Ok(Operand::Words(WordsLeaf::Field(variables.place_of(name))));
        }
    }
    Ok(Operand::Sum(term_of(alloc, variables, leaves)?))
}

// A term of one leaf without a sign.
fn plain_term(alloc: Global, leaf: Leaf) -> Result<Term, NoMemory>
    ensures { IfOk result (λ term. term ≡ record { minus = false; leaf = leaf } ∷ []) }
{
    let mut leaves = Items::new(alloc);
    leaves.push(Signed { minus: false, leaf })?;
    Ok(Term::new(leaves))
}

// A sum of one leaf without a sign.
fn plain_operand(alloc: Global, leaf: Leaf) -> Result<Operand, NoMemory>
    ensures { IfOk result (λ operand. operand ≡ Operand.Sum (record { minus = false; leaf = leaf } ∷ [])) }
{
    Ok(Operand::Sum(plain_term(alloc, leaf)?))
}

// A term that is one name.
fn name_operand(alloc: Global, variables: &Variables, name: &[u8]) -> Result<Operand, NoMemory>
    ensures { IfOk result (λ operand. operand ≡ name_operand variables.now name.now) }
{
    let place = variables.place_of(name);
    match variables.sort_of(name) {
        Sort::Int => plain_operand(alloc, Leaf::Field(place)),
        Sort::Words => Ok(Operand::Words(WordsLeaf::Field(place))),
    }
}

// The operand that is seen.
fn operand_seen(
    alloc: Global,
    variables: &Variables,
    seen: OperandRef<'_>,
) -> Result<Operand, NoMemory>
    requires { IsSmallOperand (operand_seen seen) }
    ensures { IfOk result (λ operand. operand ≡ operand_of variables.now (operand_seen seen.entry)) }
{
    match seen {
        OperandRef::Fixed { words, .. } => {
            Ok(Operand::Words(WordsLeaf::Fixed(words.copy(alloc)?)))
        }
        OperandRef::Number { value, .. } => plain_operand(alloc, Leaf::Number(value)),
        OperandRef::Named { name, .. } => name_operand(alloc, variables, name.bytes()),
        OperandRef::Sum { leaves, .. } => {
            sum_operand(alloc, variables, leaves, only_name(leaves))
        }
    }
}

pub(crate) fn operand_of(
    alloc: Global,
    variables: &Variables,
    decl: &OperandDecl,
) -> Result<Operand, NoMemory>
    requires { IsSmallOperand decl.now }
    ensures { IfOk result (λ operand. operand ≡ operand_of variables.now decl.now) }
{
    operand_seen(alloc, variables, decl.seen())
}
