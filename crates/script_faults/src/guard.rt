//! Faults of guards.
ghost use Rattle.std.specs.Prelude.{◌≡◌, ◌++◌, ◌&&◌, ◌<◌, ◌≤◌, fold, length, not, IfOk};
ghost use Rattle.script_tokens.specs.declared.token.Mark.TheVariants as m;
ghost use Rattle.script_grammar.specs.Atoms.{Atoms};
ghost use Rattle.script_grammar.specs.ScriptReading.{after_mark, atom_read, compare_read, conjunct_read, further, group_read, guard_read, not_read, separated_read};
ghost use Rattle.script_faults.specs.declared.guard.Compared.{Compared};
ghost use Rattle.script_faults.specs.First.{fault_if, first_of};
ghost use Rattle.script_grammar.specs.Gives.{Notes};
ghost use Rattle.script_faults.specs.Steps.{atom_after, conjunct_after};
ghost use Rattle.script_faults.specs.Faults.{guard_comparisons, guard_faults, is_order, is_same, is_words};
ghost use Rattle.script_grammar.specs.declared.fault.ScriptCause.TheVariants.{WrongType};

use crate::first::{Fault, note_if, note_number};
use crate::noter::{Noter, note_separated};
use crate::term::{is_same, is_words, note_operand};
use join_base::{Relation, Sort};
use script_grammar::{ScriptCause, Stop, is_next, mark_at, relation_at};
use script_names::Variables;
use script_tokens::{Mark, Tokens};
use std::alloc::Global;

// The comparisons of a guard.
#[derive(Drop)]
struct Compared<'a, 'b> {
    variables: &'b Variables<'a>,
    number: usize,
    found: Option<Fault>,
}

fn is_order(relation: Relation) -> bool
    ensures { result ≡ is_order relation }
{
    match relation {
        Relation::Equal | Relation::NotEqual => false,
        Relation::Less | Relation::LessEqual | Relation::Greater | Relation::GreaterEqual => true,
    }
}

// Notes texts between which there is an order, and operands of two types. An operand comes with its place.
fn note_sorts(found: &mut Option<Fault>, left: (u64, Sort), relation: Relation, right: (u64, Sort))
    ensures { found.new ≡ first_of found.old (fault_if (is_order relation && is_words left.1) WrongType left.0
        ++ fault_if (not (is_same left.1 right.1)) WrongType right.0) }
{
    let no_order = is_order(relation) && is_words(left.1);
    note_if(found, no_order, ScriptCause::WrongType, left.0);
    note_if(
        found,
        !is_same(left.1, right.1),
        ScriptCause::WrongType,
        right.0,
    );
}

// Notes the faults of a comparison.
#[tactic(auto, unfolding(script_grammar::specs::ScriptReading::compare_read))]
fn note_compare<'a>(
    alloc: Global,
    compared: &mut Compared<'a, '_>,
    tokens: &mut Tokens<'a>,
) -> Result<(), Stop>
    ensures gives { Notes (λ atom _. compared.new ≡ atom_after compared.old atom) result tokens.new
        (compare_read tokens.old) }
    ensures shorter { IfOk result (λ _. length tokens.new < length tokens.old) }
{
    let left = note_operand(alloc, &mut compared.found, compared.variables, tokens)?;
    let relation = relation_at(alloc, tokens)?;
    let right = note_operand(alloc, &mut compared.found, compared.variables, tokens)?;
    note_sorts(&mut compared.found, left, relation, right);
    note_number(&mut compared.found, 64, &mut compared.number, left.0)?;
    Ok(())
}

/// Notes the faults of an atom under at most `depth` more `!` and `(`.
#[cycle(atoms)]
#[tactic(auto, unfolding(script_grammar::specs::ScriptReading::atom_read))]
fn note_atom<'a>(
    alloc: Global,
    depth: u32,
    compared: &mut Compared<'a, '_>,
    tokens: &mut Tokens<'a>,
) -> Result<(), Stop>
    ensures gives { Notes (λ atom _. compared.new ≡ atom_after compared.old atom) result tokens.new
        (atom_read depth tokens.old) }
    ensures shorter { IfOk result (λ _. length tokens.new < length tokens.old) }
{
    if depth == 0 {
        return note_compare(alloc, compared, tokens);
    }
    if is_next(tokens, Mark::Not) {
        return note_not(alloc, depth - 1, compared, tokens);
    }
    if is_next(tokens, Mark::Open) {
        return note_group(alloc, depth - 1, compared, tokens);
    }
    note_compare(alloc, compared, tokens)
}

/// A `!` and the atom behind it.
#[cycle(atoms)]
fn note_not<'a>(
    alloc: Global,
    depth: u32,
    compared: &mut Compared<'a, '_>,
    tokens: &mut Tokens<'a>,
) -> Result<(), Stop>
    ensures gives { Notes (λ atom _. compared.new ≡ atom_after compared.old atom) result tokens.new
        (not_read (atom_read depth) tokens.old) }
    ensures shorter { IfOk result (λ _. length tokens.new < length tokens.old) }
{
    mark_at(alloc, tokens, Mark::Not)?;
    note_atom(alloc, depth, compared, tokens)?;
    Ok(())
}

/// Atoms in parentheses.
#[cycle(atoms)]
fn note_group<'a>(
    alloc: Global,
    depth: u32,
    compared: &mut Compared<'a, '_>,
    tokens: &mut Tokens<'a>,
) -> Result<(), Stop>
    ensures gives { Notes (λ atom _. compared.new ≡ atom_after compared.old atom) result tokens.new
        (group_read (atom_read depth) tokens.old) }
    ensures shorter { IfOk result (λ _. length tokens.new < length tokens.old) }
{
    mark_at(alloc, tokens, Mark::Open)?;
    note_atoms(alloc, depth, compared, tokens)?;
    mark_at(alloc, tokens, Mark::Close)?;
    Ok(())
}

/// Atoms with `||` between them.
#[cycle(atoms)]
fn note_atoms<'a>(
    alloc: Global,
    depth: u32,
    compared: &mut Compared<'a, '_>,
    tokens: &mut Tokens<'a>,
) -> Result<(), Stop>
    ensures gives { Notes (λ atoms _. compared.new ≡ fold atom_after compared.old atoms) result tokens.new
        (separated_read m.Or (atom_read depth) tokens.old) }
    ensures shorter { IfOk result (λ _. length tokens.new < length tokens.old) }
{
    note_atom(alloc, depth, compared, tokens)?;
    note_further_atoms(alloc, depth, compared, tokens)?;
    Ok(())
}

#[cycle(atoms)]
fn note_further_atoms<'a>(
    alloc: Global,
    depth: u32,
    compared: &mut Compared<'a, '_>,
    tokens: &mut Tokens<'a>,
) -> Result<(), Stop>
    ensures gives { Notes (λ atoms _. compared.new ≡ fold atom_after compared.old atoms) result tokens.new
        (further m.Or (atom_read depth) tokens.old) }
    ensures no_longer { IfOk result (λ _. length tokens.new ≤ length tokens.old) }
{
    'list: while is_next(tokens, Mark::Or) {
        note_further_atom(alloc, depth, compared, tokens)?;
    }
    Ok(())
}

#[cycle(atoms)]
fn note_further_atom<'a>(
    alloc: Global,
    depth: u32,
    compared: &mut Compared<'a, '_>,
    tokens: &mut Tokens<'a>,
) -> Result<(), Stop>
    ensures gives { Notes (λ atom _. compared.new ≡ atom_after compared.old atom) result tokens.new
        (after_mark m.Or (atom_read depth) tokens.old) }
    ensures shorter { IfOk result (λ _. length tokens.new < length tokens.old) }
{
    mark_at(alloc, tokens, Mark::Or)?;
    note_atom(alloc, depth, compared, tokens)?;
    Ok(())
}

impl<'a, 'b> Noter<'a> for Compared<'a, 'b> {
    ghost Phrase = { Atoms };

    ghost reader = { conjunct_read };

    ghost Known = { Compared };

    ghost known = { λ s. s };

    ghost after = { conjunct_after };

    #[tactic(auto, unfolding(script_grammar::specs::ScriptReading::conjunct_read))]
    fn note(&mut self, alloc: Global, tokens: &mut Tokens<'a>) -> Result<(), Stop> {
        note_atoms(alloc, 32, self, tokens)?;
        Ok(())
    }
}

/// Notes the faults of a guard.
#[tactic(auto, unfolding(script_grammar::specs::ScriptReading::guard_read))]
pub(crate) fn note_guard<'a>(
    alloc: Global,
    found: &mut Option<Fault>,
    variables: &Variables<'a>,
    tokens: &mut Tokens<'a>,
) -> Result<(), Stop>
    ensures gives { Notes (λ guard _. found.new ≡ first_of found.old (guard_faults variables.now
        (guard_comparisons guard))) result tokens.new (guard_read tokens.old) }
    ensures no_longer { IfOk result (λ _. length tokens.new ≤ length tokens.old) }
{
    if !is_next(tokens, Mark::If) {
        return Ok(());
    }
    mark_at(alloc, tokens, Mark::If)?;
    let mut compared = Compared {
        variables,
        number: 0,
        found: *found,
    };
    note_separated(alloc, Mark::And, &mut compared, tokens)?;
    *found = compared.found;
    Ok(())
}
