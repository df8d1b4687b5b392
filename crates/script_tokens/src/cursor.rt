//! The tokens of a text, read one after the other.
ghost use Rattle.std.specs.Prelude.{◌≡◌, ◌<◌, ◌≤◌, length, drop, true, false, IfOk, OnOk, MatchOption, [], Some};
ghost use Rattle.script_tokens.specs.Tokens.{AreTokens};
ghost use Rattle.script_tokens.specs.Listed.{tokens_of, tokens_left, head, next_name, next_word};

use crate::lexer::{skip, token_at};
use crate::token::{Kind, Token};
use join_base::NoMemory;
use std::alloc::Global;
use std::marker::Model;

/// The tokens of a text that were not read yet, seen as their list. Only the next one takes memory.
#[derive(Drop)]
pub struct Tokens<'a> {
    size: usize,
    next: Option<Token>,
    // The bytes of the next token.
    word: &'a [u8],
    // What stands behind the next token.
    rest: &'a [u8],
}

impl<'a> Model for Tokens<'a> {
    ghost use Rattle.std.specs.Prelude.{◌≡◌, ◌≤◌, List, length};
    ghost use Rattle.script_tokens.specs.declared.token.Token.{Token};
    ghost use Rattle.script_tokens.specs.Listed.{tokens_left, next_word};

    ghost Value = { List Token };

    ghost view = { λ a. tokens_left a.next a.size a.rest.now };

    ghost invariant = { λ a. (length a.rest.now ≤ a.size) × (next_word a.word.now a.next ≡ a.word.now) };
}

// A token, its bytes, and what stands behind it.
struct First<'a> {
    next: Option<Token>,
    word: &'a [u8],
    rest: &'a [u8],
}

// The first token of what is left of a text of this size.
fn first_token(alloc: Global, size: usize, text: &[u8]) -> Result<First<'_>, NoMemory>
    requires within { length text.now ≤ size }
    ensures tokens { IfOk result (λ p. tokens_left p.next size p.rest.now ≡ tokens_of size text.now) }
    ensures within { IfOk result (λ p. length p.rest.now ≤ size) }
    ensures word { IfOk result (λ p. next_word p.word.now p.next ≡ p.word.now) }
{
    let front = skip(text);
    if front.is_empty() {
        return Ok(First {
            next: None,
            word: front,
            rest: front,
        });
    }
    let place = (size - front.len()) as u64;
    let (kind, length) = token_at(alloc, front)?;
    let (word, rest) = front.split_at(length);
    let next = Some(Token { place, kind });
    Ok(First { next, word, rest })
}

impl<'a> Tokens<'a> {
    /// The tokens of a text.
    pub fn new(alloc: Global, text: &'a [u8]) -> Result<Tokens<'a>, NoMemory>
        ensures { IfOk result (λ tokens. AreTokens (length text.now) text.now tokens) }
    {
        let size = text.len();
        let First { next, word, rest } = first_token(alloc, size, text)?;
        Ok(Tokens {
            size,
            next,
            word,
            rest,
        })
    }

    /// The next token, or `None` where none is left.
    pub fn next(&self) -> Option<&Token>
        ensures { MatchOption result (self.now ≡ []) (λ t. head self.now ≡ Some t.now) }
    {
        self.next.as_ref()
    }

    /// The name that the next token is, where it stands in the text.
    pub fn name(&self) -> Option<&'a [u8]>
        ensures { MatchOption result (next_name self.now ≡ None) (λ name. next_name self.now ≡ Some name.now) }
    {
        let Some(token) = &self.next else {
            return None;
        };
        match &token.kind {
            Kind::Name(_) => Some(self.word),
            _ => None,
        }
    }

    /// Whether none is left.
    pub fn is_empty(&self) -> bool
        ensures none { result ≡ true → length self.now ≡ 0 }
        ensures some { result ≡ false → 0 < length self.now }
    {
        self.next.is_none()
    }

    /// Goes on behind the next token, where there is one. After `NoMemory` it stands where it stood.
    pub fn step(&mut self, alloc: Global) -> Result<(), NoMemory>
        ensures ok { OnOk result (self.new ≡ drop 1 self.old) }
    {
        let Some(token) = &self.next else {
            return Ok(());
        };
        if token.kind.is_bad() {
            self.next = None;
            return Ok(());
        }
        let First { next, word, rest } = first_token(alloc, self.size, self.rest)?;
        self.next = next;
        self.word = word;
        self.rest = rest;
        Ok(())
    }
}
