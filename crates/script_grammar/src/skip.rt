//! Passing over phrases, and lists of them.
ghost use Rattle.std.specs.Prelude.{◌≡◌, ◌<◌, ◌≤◌, length, IfOk};
ghost use Rattle.script_grammar.specs.Reading.{passed, repeated};
ghost use Rattle.script_grammar.specs.ScriptReading.{next_is, after_mark, further, separated_read, listed_read};
ghost use Rattle.script_grammar.specs.Gives.{Gives};

use crate::part::{is_next, mark_at};
use crate::phrase::{Phrase, Repeated};
use crate::stop::Stop;
use script_tokens::{Mark, Tokens};
use std::alloc::Global;

/// A phrase that can be passed over, so that nothing of it is kept.
pub trait Skipped: Phrase {
    /// Passes over the phrase in front of the tokens. It refuses where reading refuses.
    fn skip(alloc: Global, tokens: &mut Tokens<'_>) -> Result<(), Stop>
        ensures gives { Gives (λ x. x) result tokens.new (passed (Self.reader tokens.old)) }
        ensures shorter { IfOk result (λ _. length tokens.new < length tokens.old) };
}

/// Passes over as many phrases as there are.
pub fn skip_repeated<X: Repeated + Skipped>(
    alloc: Global,
    tokens: &mut Tokens<'_>,
) -> Result<(), Stop>
    ensures gives { Gives (λ x. x) result tokens.new (passed (repeated (next_is X.begins) X.reader tokens.old)) }
    ensures no_longer { IfOk result (λ _. length tokens.new ≤ length tokens.old) }
{
    'list: while X::is_next(tokens) {
        X::skip(alloc, tokens)?;
    }
    Ok(())
}

/// Passes over one phrase or more, with this mark between two of them.
#[tactic(auto, using(crate::proofs::PassedLemmas::separated_passed))]
pub fn skip_separated<X: Skipped>(
    alloc: Global,
    mark: Mark,
    tokens: &mut Tokens<'_>,
) -> Result<(), Stop>
    ensures gives { Gives (λ x. x) result tokens.new (passed (separated_read mark X.reader tokens.old)) }
    ensures shorter { IfOk result (λ _. length tokens.new < length tokens.old) }
{
    X::skip(alloc, tokens)?;
    skip_further::<X>(alloc, mark, tokens)?;
    Ok(())
}

/// The same, or nothing in front of a closing parenthesis.
pub fn skip_listed<X: Skipped>(
    alloc: Global,
    mark: Mark,
    tokens: &mut Tokens<'_>,
) -> Result<(), Stop>
    ensures gives { Gives (λ x. x) result tokens.new (passed (listed_read mark X.reader tokens.old)) }
    ensures no_longer { IfOk result (λ _. length tokens.new ≤ length tokens.old) }
{
    if is_next(tokens, Mark::Close) {
        return Ok(());
    }
    skip_separated::<X>(alloc, mark, tokens)?;
    Ok(())
}

// As many as there are with this mark in front.
fn skip_further<X: Skipped>(alloc: Global, mark: Mark, tokens: &mut Tokens<'_>) -> Result<(), Stop>
    ensures gives { Gives (λ x. x) result tokens.new (passed (further mark X.reader tokens.old)) }
    ensures no_longer { IfOk result (λ _. length tokens.new ≤ length tokens.old) }
{
    'list: while is_next(tokens, mark) {
        skip_behind_mark::<X>(alloc, mark, tokens)?;
    }
    Ok(())
}

#[tactic(auto, using(crate::proofs::PassedLemmas::behind_passed))]
fn skip_behind_mark<X: Skipped>(
    alloc: Global,
    mark: Mark,
    tokens: &mut Tokens<'_>,
) -> Result<(), Stop>
    ensures gives { Gives (λ x. x) result tokens.new (passed (after_mark mark X.reader tokens.old)) }
    ensures shorter { IfOk result (λ _. length tokens.new < length tokens.old) }
{
    mark_at(alloc, tokens, mark)?;
    X::skip(alloc, tokens)?;
    Ok(())
}
