//! What is read from tokens, and lists of it.
ghost use Rattle.std.specs.Prelude.{◌≡◌, ◌<◌, ◌≤◌, ◌∷◌, [], Bool, length, IfOk};
ghost use Rattle.script_tokens.specs.declared.token.Kind.{Kind};
ghost use Rattle.script_grammar.specs.Reading.{head, repeated};
ghost use Rattle.script_grammar.specs.ScriptReading.{Reads, next_is, after_mark, further, separated_read, listed_read, with_front};
ghost use Rattle.script_grammar.specs.Gives.{Gives};

use crate::part::{is_next, mark_at};
use crate::stop::Stop;
use join_base::{Items, NoMemory};
use script_tokens::{Mark, Tokens};
use std::alloc::Global;

/// What is read from tokens.
pub trait Phrase: Drop {
    ghost reader: { Reads Self };

    /// The phrase in front of the tokens, which go on behind it. `Refused` leaves the refused token in front. A phrase
    /// takes a token at least.
    fn read(alloc: Global, tokens: &mut Tokens<'_>) -> Result<Self, Stop>
        ensures gives { Gives (λ x. x) result tokens.new (reader tokens.old) }
        ensures shorter { IfOk result (λ _. length tokens.new < length tokens.old) };
}

/// A phrase of which there are as many as begin.
pub trait Repeated: Phrase {
    ghost begins: { Kind → Bool };

    /// Whether the next token begins one more.
    fn is_next(tokens: &Tokens<'_>) -> bool
        ensures { result ≡ next_is begins (head tokens.now) };
}

// A list of one item. Most lists have no more, so that there is no room for more.
fn only<X: Drop>(alloc: Global, item: X) -> Result<Items<X>, NoMemory>
    ensures one { IfOk result (λ list. list ≡ item ∷ []) }
{
    let mut rows = Vec::with_capacity(alloc, 1)?;
    rows.push(item)?;
    Ok(Items::from_vec(rows))
}

// The same list, with no room for more.
fn fitted<X>(list: Items<X>) -> Items<X>
    ensures same { result ≡ list }
{
    let mut rows = list.into_vec();
    rows.shrink_to_fit();
    Items::from_vec(rows)
}

/// As many phrases as there are.
#[tactic(auto, using(crate::proofs::LoopLemmas::with_front_nil))]
pub fn repeated_at<X: Repeated>(alloc: Global, tokens: &mut Tokens<'_>) -> Result<Items<X>, Stop>
    ensures gives { Gives (λ x. x) result tokens.new (repeated (next_is X.begins) X.reader tokens.old) }
    ensures no_longer { IfOk result (λ _. length tokens.new ≤ length tokens.old) }
{
    behind_at(alloc, Items::new(alloc), tokens)
}

/// The same behind a first one.
pub fn behind_first_at<X: Repeated>(
    alloc: Global,
    first: X,
    tokens: &mut Tokens<'_>,
) -> Result<Items<X>, Stop>
    ensures gives { Gives (λ x. x) result tokens.new
        (with_front (first ∷ []) (repeated (next_is X.begins) X.reader tokens.old)) }
    ensures no_longer { IfOk result (λ _. length tokens.new ≤ length tokens.old) }
{
    let front = only(alloc, first)?;
    behind_at(alloc, front, tokens)
}

// The same behind some.
fn behind_at<X: Repeated>(
    alloc: Global,
    front: Items<X>,
    tokens: &mut Tokens<'_>,
) -> Result<Items<X>, Stop>
    ensures gives { Gives (λ x. x) result tokens.new
        (with_front front (repeated (next_is X.begins) X.reader tokens.old)) }
    ensures no_longer { IfOk result (λ _. length tokens.new ≤ length tokens.old) }
{
    let list = more_at(alloc, front, tokens)?;
    Ok(fitted(list))
}

fn more_at<X: Repeated>(
    alloc: Global,
    front: Items<X>,
    tokens: &mut Tokens<'_>,
) -> Result<Items<X>, Stop>
    ensures gives { Gives (λ x. x) result tokens.new
        (with_front front (repeated (next_is X.begins) X.reader tokens.old)) }
    ensures no_longer { IfOk result (λ _. length tokens.new ≤ length tokens.old) }
{
    let mut list = front;
    'list: while X::is_next(tokens) {
        let item = X::read(alloc, tokens)?;
        list.push(item)?;
    }
    Ok(list)
}

/// One phrase or more, with this mark between two of them.
#[tactic(auto, using(crate::proofs::LoopLemmas::with_first_is))]
pub fn separated_at<X: Phrase>(
    alloc: Global,
    mark: Mark,
    tokens: &mut Tokens<'_>,
) -> Result<Items<X>, Stop>
    ensures gives { Gives (λ x. x) result tokens.new (separated_read mark X.reader tokens.old) }
    ensures shorter { IfOk result (λ _. length tokens.new < length tokens.old) }
{
    let first = X::read(alloc, tokens)?;
    let list = further_at(alloc, mark, first, tokens)?;
    Ok(list)
}

/// The same, or nothing in front of a closing parenthesis.
pub fn listed_at<X: Phrase>(
    alloc: Global,
    mark: Mark,
    tokens: &mut Tokens<'_>,
) -> Result<Items<X>, Stop>
    ensures gives { Gives (λ x. x) result tokens.new (listed_read mark X.reader tokens.old) }
    ensures no_longer { IfOk result (λ _. length tokens.new ≤ length tokens.old) }
{
    if is_next(tokens, Mark::Close) {
        return Ok(Items::new(alloc));
    }
    let list = separated_at(alloc, mark, tokens)?;
    Ok(list)
}

// As many as there are with this mark in front.
fn further_at<X: Phrase>(
    alloc: Global,
    mark: Mark,
    first: X,
    tokens: &mut Tokens<'_>,
) -> Result<Items<X>, Stop>
    ensures gives { Gives (λ x. x) result tokens.new (with_front (first ∷ []) (further mark X.reader tokens.old)) }
    ensures no_longer { IfOk result (λ _. length tokens.new ≤ length tokens.old) }
{
    let front = only(alloc, first)?;
    let list = more_behind_mark_at(alloc, mark, front, tokens)?;
    Ok(fitted(list))
}

fn more_behind_mark_at<X: Phrase>(
    alloc: Global,
    mark: Mark,
    front: Items<X>,
    tokens: &mut Tokens<'_>,
) -> Result<Items<X>, Stop>
    ensures gives { Gives (λ x. x) result tokens.new (with_front front (further mark X.reader tokens.old)) }
    ensures no_longer { IfOk result (λ _. length tokens.new ≤ length tokens.old) }
{
    let mut list = front;
    'list: while is_next(tokens, mark) {
        let item = behind_mark_at(alloc, mark, tokens)?;
        list.push(item)?;
    }
    Ok(list)
}

fn behind_mark_at<X: Phrase>(alloc: Global, mark: Mark, tokens: &mut Tokens<'_>) -> Result<X, Stop>
    ensures gives { Gives (λ x. x) result tokens.new (after_mark mark X.reader tokens.old) }
    ensures shorter { IfOk result (λ _. length tokens.new < length tokens.old) }
{
    mark_at(alloc, tokens, mark)?;
    let item = X::read(alloc, tokens)?;
    Ok(item)
}
