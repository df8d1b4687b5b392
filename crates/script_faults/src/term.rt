//! Faults of names, terms and operands.
ghost use Rattle.std.specs.Prelude.{◌≡◌, ◌<◌, ◌≤◌, ◌&&◌, false, not, length, IfOk};
ghost use Rattle.script_grammar.specs.Operands.{leaf_place, operand_place};
ghost use Rattle.script_grammar.specs.Reading.{repeated};
ghost use Rattle.script_grammar.specs.ScriptReading.{further_read, is_sign, next_is, operand_read, term_read};
ghost use Rattle.script_grammar.specs.declared.tree.LeafDecl.{LeafDecl};
ghost use Rattle.script_names.specs.Names.{item_of};
ghost use Rattle.script_names.specs.Scope.{name_in, name_sort, only_name, operand_sort, sort_of};
ghost use Rattle.script_faults.specs.declared.term.Leaves.{Leaves};
ghost use Rattle.script_faults.specs.First.{first_of};
ghost use Rattle.script_grammar.specs.Gives.{Notes};
ghost use Rattle.script_faults.specs.Numbered.{numbered_faults};
ghost use Rattle.script_faults.specs.Steps.{leaf_after};
ghost use Rattle.script_faults.specs.Faults.{is_same, is_words, leaf_faults, name_faults, operand_faults, term_faults};

use crate::first::{Fault, note, note_if, note_number};
use crate::noter::{Noter, Repeats, note_repeated};
use join_base::Sort;
use script_grammar::{
    LeafDecl, Part, Phrase, ScriptCause, Stop, first_leaf_at, is_next_sign, is_next_words, words_at,
};
use script_names::Variables;
use script_tokens::{ScriptName, Tokens};
use std::alloc::Global;

pub(crate) fn is_words(sort: Sort) -> bool
    ensures { result ≡ is_words sort }
{
    match sort {
        Sort::Int => false,
        Sort::Words => true,
    }
}

pub(crate) fn is_same(left: Sort, right: Sort) -> bool
    ensures { result ≡ is_same left right }
{
    match (left, right) {
        (Sort::Int, Sort::Int) => true,
        (Sort::Words, Sort::Words) => true,
        (Sort::Int, Sort::Words) => false,
        (Sort::Words, Sort::Int) => false,
    }
}

/// Notes a name that no variable has, and a text that does not stand alone.
pub(crate) fn note_name(
    found: &mut Option<Fault>,
    variables: &Variables<'_>,
    name: &ScriptName,
    place: u64,
    alone: bool,
)
    ensures { found.new ≡ first_of found.old (name_faults alone place (item_of name.now variables.now)) }
{
    match variables.sort_of(name.bytes()) {
        None => note(found, ScriptCause::UnknownName, place),
        Some(sort) => {
            let is_fault = !alone && is_words(sort);
            note_if(found, is_fault, ScriptCause::WrongType, place);
        }
    }
}

// Notes the faults of a leaf; `alone` says that its term has no other.
fn note_leaf(found: &mut Option<Fault>, variables: &Variables<'_>, leaf: &LeafDecl, alone: bool)
    ensures { found.new ≡ first_of found.old (leaf_faults variables.now alone leaf.now) }
{
    match &leaf.part {
        Part::Number(_) => {}
        Part::Named(name) => note_name(found, variables, name, leaf.place, alone && !leaf.minus),
    }
}

// The type of the variable of a name.
fn sort_of(variables: &Variables<'_>, name: &ScriptName) -> Sort
    ensures { result ≡ sort_of variables.now name.now }
{
    match variables.sort_of(name.bytes()) {
        None => Sort::Int,
        Some(sort) => sort,
    }
}

// The type of a term of one leaf.
fn leaf_sort(variables: &Variables<'_>, leaf: &LeafDecl) -> Sort
    ensures { result ≡ name_sort variables.now (name_in leaf.now.minus leaf.now.part) }
{
    match &leaf.part {
        Part::Named(name) if !leaf.minus => sort_of(variables, name),
        _ => Sort::Int,
    }
}

// The leaves of a term behind the first.
#[derive(Drop)]
struct Leaves<'a, 'b> {
    variables: &'b Variables<'a>,
    number: usize,
    found: Option<Fault>,
}

impl<'a, 'b> Noter<'a> for Leaves<'a, 'b> {
    ghost Phrase = { LeafDecl };

    ghost reader = { further_read };

    ghost Known = { Leaves };

    ghost known = { λ s. s };

    ghost after = { leaf_after };

    fn note(&mut self, alloc: Global, tokens: &mut Tokens<'a>) -> Result<(), Stop> {
        let leaf = LeafDecl::read(alloc, tokens)?;
        note_leaf(&mut self.found, self.variables, &leaf, false);
        note_number(&mut self.found, 64, &mut self.number, leaf.place)?;
        Ok(())
    }
}

impl<'a, 'b> Repeats<'a> for Leaves<'a, 'b> {
    ghost begins = { is_sign };

    fn is_next(tokens: &Tokens<'a>) -> bool {
        is_next_sign(tokens)
    }
}

// Notes the faults of the leaves behind the first.
fn note_leaves<'a>(
    alloc: Global,
    found: &mut Option<Fault>,
    variables: &Variables<'a>,
    tokens: &mut Tokens<'a>,
) -> Result<(), Stop>
    ensures gives { Notes (λ leaves _. found.new ≡ first_of found.old (numbered_faults 64 leaf_place
        (leaf_faults variables.now false) 1 leaves)) result tokens.new
        (repeated (next_is is_sign) further_read tokens.old) }
    ensures no_longer { IfOk result (λ _. length tokens.new ≤ length tokens.old) }
{
    let mut leaves = Leaves {
        variables,
        number: 1,
        found: *found,
    };
    note_repeated(alloc, &mut leaves, tokens)?;
    *found = leaves.found;
    Ok(())
}

/// Notes the faults of a term: where it begins, and its type. `bare` says that it stands without parentheses.
#[tactic(auto, unfolding(script_grammar::specs::ScriptReading::term_read))]
pub(crate) fn note_term<'a>(
    alloc: Global,
    found: &mut Option<Fault>,
    variables: &Variables<'a>,
    bare: bool,
    tokens: &mut Tokens<'a>,
) -> Result<(u64, Sort), Stop>
    ensures gives { Notes (λ term p. (p ≡ (term.0, name_sort variables.now (only_name term.1)))
        × (found.new ≡ first_of found.old (term_faults variables.now bare term.1))) result tokens.new
        (term_read tokens.old) }
    ensures shorter { IfOk result (λ _. length tokens.new < length tokens.old) }
{
    let (place, first) = first_leaf_at(alloc, tokens)?;
    if !is_next_sign(tokens) {
        note_leaf(found, variables, &first, bare);
        return Ok((place, leaf_sort(variables, &first)));
    }
    note_leaf(found, variables, &first, false);
    note_leaves(alloc, found, variables, tokens)?;
    Ok((place, Sort::Int))
}

/// Notes the faults of an operand: where it begins, and its type.
#[tactic(auto, unfolding(script_grammar::specs::ScriptReading::operand_read))]
pub(crate) fn note_operand<'a>(
    alloc: Global,
    found: &mut Option<Fault>,
    variables: &Variables<'a>,
    tokens: &mut Tokens<'a>,
) -> Result<(u64, Sort), Stop>
    ensures gives { Notes (λ operand p. (p ≡ (operand_place operand, operand_sort variables.now operand))
        × (found.new ≡ first_of found.old (operand_faults variables.now operand))) result tokens.new
        (operand_read tokens.old) }
    ensures shorter { IfOk result (λ _. length tokens.new < length tokens.old) }
{
    if is_next_words(tokens) {
        let (place, _) = words_at(alloc, tokens)?;
        return Ok((place, Sort::Words));
    }
    let term = note_term(alloc, found, variables, true, tokens)?;
    Ok(term)
}
