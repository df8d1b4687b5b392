//! Passing over terms, operands, atoms and guards.
ghost use Rattle.std.specs.Prelude.{◌<◌, ◌≤◌, length, IfOk};
ghost use Rattle.script_tokens.specs.declared.token.Mark.TheVariants as m;
ghost use Rattle.script_grammar.specs.Reading.{passed};
ghost use Rattle.script_grammar.specs.ScriptReading.{after_mark, further, separated_read, term_read, compare_read, not_read, group_read, atom_read, conjunct_read, guard_read};
ghost use Rattle.script_grammar.specs.Gives.{Gives};

use crate::operand::OperandDecl;
use crate::part::{is_next, is_next_words, mark_at, part_at, relation_at, sign_at, words_at};
use crate::skip::{Skipped, skip_repeated};
use crate::stop::Stop;
use crate::term::first_leaf_at;
use crate::tree::LeafDecl;
use script_tokens::{Mark, Tokens};
use std::alloc::Global;

impl Skipped for LeafDecl {
    #[tactic(auto, using(crate::proofs::PassedRules::leaf_passed))]
    fn skip(alloc: Global, tokens: &mut Tokens<'_>) -> Result<(), Stop> {
        sign_at(alloc, tokens)?;
        part_at(alloc, tokens)?;
        Ok(())
    }
}

#[tactic(auto, using(crate::proofs::PassedRules::term_passed))]
pub fn skip_term(alloc: Global, tokens: &mut Tokens<'_>) -> Result<(), Stop>
    ensures gives { Gives (λ x. x) result tokens.new (passed (term_read tokens.old)) }
    ensures shorter { IfOk result (λ _. length tokens.new < length tokens.old) }
{
    first_leaf_at(alloc, tokens)?;
    skip_repeated::<LeafDecl>(alloc, tokens)?;
    Ok(())
}

impl Skipped for OperandDecl {
    #[tactic(auto, using(crate::proofs::PassedRules::operand_passed))]
    fn skip(alloc: Global, tokens: &mut Tokens<'_>) -> Result<(), Stop> {
        if is_next_words(tokens) {
            words_at(alloc, tokens)?;
            return Ok(());
        }
        skip_term(alloc, tokens)?;
        Ok(())
    }
}

#[tactic(auto, using(crate::proofs::PassedRules::compare_passed))]
fn skip_compare(alloc: Global, tokens: &mut Tokens<'_>) -> Result<(), Stop>
    ensures gives { Gives (λ x. x) result tokens.new (passed (compare_read tokens.old)) }
    ensures shorter { IfOk result (λ _. length tokens.new < length tokens.old) }
{
    OperandDecl::skip(alloc, tokens)?;
    relation_at(alloc, tokens)?;
    OperandDecl::skip(alloc, tokens)?;
    Ok(())
}

/// An atom under at most `depth` more `!` and `(`.
#[cycle(skipped_atoms)]
#[tactic(auto, unfolding(crate::specs::ScriptReading::atom_read))]
fn skip_atom(alloc: Global, depth: u32, tokens: &mut Tokens<'_>) -> Result<(), Stop>
    ensures gives { Gives (λ x. x) result tokens.new (passed (atom_read depth tokens.old)) }
    ensures shorter { IfOk result (λ _. length tokens.new < length tokens.old) }
{
    if depth == 0 {
        return skip_compare(alloc, tokens);
    }
    if is_next(tokens, Mark::Not) {
        return skip_not(alloc, depth - 1, tokens);
    }
    if is_next(tokens, Mark::Open) {
        return skip_group(alloc, depth - 1, tokens);
    }
    skip_compare(alloc, tokens)
}

/// A `!` and the atom behind it.
#[cycle(skipped_atoms)]
#[tactic(auto, using(crate::proofs::PassedRules::not_passed))]
fn skip_not(alloc: Global, depth: u32, tokens: &mut Tokens<'_>) -> Result<(), Stop>
    ensures gives { Gives (λ x. x) result tokens.new (passed (not_read (atom_read depth) tokens.old)) }
    ensures shorter { IfOk result (λ _. length tokens.new < length tokens.old) }
{
    mark_at(alloc, tokens, Mark::Not)?;
    skip_atom(alloc, depth, tokens)?;
    Ok(())
}

/// Atoms in parentheses.
#[cycle(skipped_atoms)]
#[tactic(auto, using(crate::proofs::PassedRules::group_passed))]
fn skip_group(alloc: Global, depth: u32, tokens: &mut Tokens<'_>) -> Result<(), Stop>
    ensures gives { Gives (λ x. x) result tokens.new (passed (group_read (atom_read depth) tokens.old)) }
    ensures shorter { IfOk result (λ _. length tokens.new < length tokens.old) }
{
    mark_at(alloc, tokens, Mark::Open)?;
    skip_atoms(alloc, depth, tokens)?;
    mark_at(alloc, tokens, Mark::Close)?;
    Ok(())
}

/// Atoms with `||` between them.
#[cycle(skipped_atoms)]
#[tactic(auto, using(crate::proofs::PassedLemmas::separated_passed))]
fn skip_atoms(alloc: Global, depth: u32, tokens: &mut Tokens<'_>) -> Result<(), Stop>
    ensures gives { Gives (λ x. x) result tokens.new (passed (separated_read m.Or (atom_read depth) tokens.old)) }
    ensures shorter { IfOk result (λ _. length tokens.new < length tokens.old) }
{
    skip_atom(alloc, depth, tokens)?;
    skip_further_atoms(alloc, depth, tokens)?;
    Ok(())
}

#[cycle(skipped_atoms)]
fn skip_further_atoms(alloc: Global, depth: u32, tokens: &mut Tokens<'_>) -> Result<(), Stop>
    ensures gives { Gives (λ x. x) result tokens.new (passed (further m.Or (atom_read depth) tokens.old)) }
    ensures no_longer { IfOk result (λ _. length tokens.new ≤ length tokens.old) }
{
    'list: while is_next(tokens, Mark::Or) {
        skip_further_atom(alloc, depth, tokens)?;
    }
    Ok(())
}

#[cycle(skipped_atoms)]
#[tactic(auto, using(crate::proofs::PassedLemmas::behind_passed))]
fn skip_further_atom(alloc: Global, depth: u32, tokens: &mut Tokens<'_>) -> Result<(), Stop>
    ensures gives { Gives (λ x. x) result tokens.new (passed (after_mark m.Or (atom_read depth) tokens.old)) }
    ensures shorter { IfOk result (λ _. length tokens.new < length tokens.old) }
{
    mark_at(alloc, tokens, Mark::Or)?;
    skip_atom(alloc, depth, tokens)?;
    Ok(())
}

#[tactic(auto, using(crate::proofs::PassedRules::conjunct_passed))]
fn skip_conjunct(alloc: Global, tokens: &mut Tokens<'_>) -> Result<(), Stop>
    ensures gives { Gives (λ x. x) result tokens.new (passed (conjunct_read tokens.old)) }
    ensures shorter { IfOk result (λ _. length tokens.new < length tokens.old) }
{
    skip_atoms(alloc, 32, tokens)?;
    Ok(())
}

#[tactic(auto, using(crate::proofs::PassedLemmas::behind_passed))]
fn skip_further_conjunct(alloc: Global, tokens: &mut Tokens<'_>) -> Result<(), Stop>
    ensures gives { Gives (λ x. x) result tokens.new (passed (after_mark m.And conjunct_read tokens.old)) }
    ensures shorter { IfOk result (λ _. length tokens.new < length tokens.old) }
{
    mark_at(alloc, tokens, Mark::And)?;
    skip_conjunct(alloc, tokens)?;
    Ok(())
}

fn skip_further_conjuncts(alloc: Global, tokens: &mut Tokens<'_>) -> Result<(), Stop>
    ensures gives { Gives (λ x. x) result tokens.new (passed (further m.And conjunct_read tokens.old)) }
    ensures no_longer { IfOk result (λ _. length tokens.new ≤ length tokens.old) }
{
    'list: while is_next(tokens, Mark::And) {
        skip_further_conjunct(alloc, tokens)?;
    }
    Ok(())
}

#[tactic(auto, using(crate::proofs::PassedRules::guard_passed))]
pub fn skip_guard(alloc: Global, tokens: &mut Tokens<'_>) -> Result<(), Stop>
    ensures gives { Gives (λ x. x) result tokens.new (passed (guard_read tokens.old)) }
    ensures no_longer { IfOk result (λ _. length tokens.new ≤ length tokens.old) }
{
    if !is_next(tokens, Mark::If) {
        return Ok(());
    }
    mark_at(alloc, tokens, Mark::If)?;
    skip_conjunct(alloc, tokens)?;
    skip_further_conjuncts(alloc, tokens)?;
    Ok(())
}
