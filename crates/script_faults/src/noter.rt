//! What notes the faults of phrases while they are read, and lists of them.
ghost use Rattle.std.specs.Prelude.{◌≡◌, ◌<◌, ◌≤◌, Bool, fold, length, IfOk};
ghost use Rattle.script_tokens.specs.declared.token.Kind.{Kind};
ghost use Rattle.script_grammar.specs.Reading.{head, repeated};
ghost use Rattle.script_grammar.specs.ScriptReading.{Reads, next_is, after_mark, further, separated_read, listed_read};
ghost use Rattle.script_grammar.specs.Gives.{Notes};

use script_grammar::{Stop, is_next, mark_at};
use script_tokens::{Mark, Tokens};
use std::alloc::Global;

/// Notes the faults of phrases, one after the other. A phrase is read and let go of.
pub(crate) trait Noter<'a> {
    // What is read.
    ghost Phrase: { Type 0 };

    ghost reader: { Reads Phrase };

    // What is known so far, and with one phrase more.
    ghost Known: { Type 0 };

    ghost known: { Self → Known };

    ghost after: { Known → Phrase → Known };

    /// Notes the faults of the phrase in front of the tokens, which go on behind it. A phrase takes a token at least.
    fn note(&mut self, alloc: Global, tokens: &mut Tokens<'a>) -> Result<(), Stop>
        ensures gives { Notes (λ x _. known self.new ≡ after (known self.old) x) result tokens.new (reader tokens.old) }
        ensures shorter { IfOk result (λ _. length tokens.new < length tokens.old) };
}

/// Notes phrases of which there are as many as begin.
pub(crate) trait Repeats<'a>: Noter<'a> {
    ghost begins: { Kind → Bool };

    /// Whether the next token begins one more.
    fn is_next(tokens: &Tokens<'a>) -> bool
        ensures { result ≡ next_is begins (head tokens.now) };
}

/// Notes as many phrases as there are.
pub(crate) fn note_repeated<'a, N: Repeats<'a>>(
    alloc: Global,
    noter: &mut N,
    tokens: &mut Tokens<'a>,
) -> Result<(), Stop>
    ensures gives { Notes (λ xs _. N.known noter.new ≡ fold N.after (N.known noter.old) xs) result tokens.new
        (repeated (next_is N.begins) N.reader tokens.old) }
    ensures no_longer { IfOk result (λ _. length tokens.new ≤ length tokens.old) }
{
    'list: while N::is_next(tokens) {
        noter.note(alloc, tokens)?;
    }
    Ok(())
}

/// Notes one phrase or more, with this mark between two of them.
pub(crate) fn note_separated<'a, N: Noter<'a>>(
    alloc: Global,
    mark: Mark,
    noter: &mut N,
    tokens: &mut Tokens<'a>,
) -> Result<(), Stop>
    ensures gives { Notes (λ xs _. N.known noter.new ≡ fold N.after (N.known noter.old) xs) result tokens.new
        (separated_read mark N.reader tokens.old) }
    ensures shorter { IfOk result (λ _. length tokens.new < length tokens.old) }
{
    noter.note(alloc, tokens)?;
    note_further(alloc, mark, noter, tokens)?;
    Ok(())
}

/// The same, or nothing in front of a closing parenthesis.
pub(crate) fn note_listed<'a, N: Noter<'a>>(
    alloc: Global,
    mark: Mark,
    noter: &mut N,
    tokens: &mut Tokens<'a>,
) -> Result<(), Stop>
    ensures gives { Notes (λ xs _. N.known noter.new ≡ fold N.after (N.known noter.old) xs) result tokens.new
        (listed_read mark N.reader tokens.old) }
    ensures no_longer { IfOk result (λ _. length tokens.new ≤ length tokens.old) }
{
    if is_next(tokens, Mark::Close) {
        return Ok(());
    }
    note_separated(alloc, mark, noter, tokens)?;
    Ok(())
}

// Notes as many as there are with this mark in front.
fn note_further<'a, N: Noter<'a>>(
    alloc: Global,
    mark: Mark,
    noter: &mut N,
    tokens: &mut Tokens<'a>,
) -> Result<(), Stop>
    ensures gives { Notes (λ xs _. N.known noter.new ≡ fold N.after (N.known noter.old) xs) result tokens.new
        (further mark N.reader tokens.old) }
    ensures no_longer { IfOk result (λ _. length tokens.new ≤ length tokens.old) }
{
    'list: while is_next(tokens, mark) {
        note_behind(alloc, mark, noter, tokens)?;
    }
    Ok(())
}

fn note_behind<'a, N: Noter<'a>>(
    alloc: Global,
    mark: Mark,
    noter: &mut N,
    tokens: &mut Tokens<'a>,
) -> Result<(), Stop>
    ensures gives { Notes (λ x _. N.known noter.new ≡ N.after (N.known noter.old) x) result tokens.new
        (after_mark mark N.reader tokens.old) }
    ensures shorter { IfOk result (λ _. length tokens.new < length tokens.old) }
{
    mark_at(alloc, tokens, mark)?;
    noter.note(alloc, tokens)?;
    Ok(())
}
