//! The tokens of a script, each with the spot at which it stands, and those that are kept.
use crate::spot::{Sight, Spot, next_spot, sight_of};
use join_base::NoMemory;
use script_tokens::{Mark, Token, push_tokens};
use std::alloc::Global;

/// A token of a script: where it begins and ends, what it is, and the spot at which it stands.
#[derive(Clone, Copy, Debug)]
pub struct Seen {
    pub start: usize,
    pub end: usize,
    pub sight: Sight,
    pub spot: Spot,
}

impl Seen {
    /// Whether the script ends there.
    pub fn is_end(&self) -> bool {
        self.sight == Sight::End
    }
}

/// The tokens of a script, read one after the other. A script may have millions, so none is held.
#[derive(Clone, Copy)]
pub struct Walk<'a> {
    alloc: Global,
    text: &'a [u8],
    left: &'a [u8],
    spot: Spot,
}

impl<'a> Walk<'a> {
    /// All tokens of a script.
    pub fn new(alloc: Global, text: &'a [u8]) -> Walk<'a> {
        Walk {
            alloc,
            text,
            left: text,
            spot: Spot::Declaration,
        }
    }

    // Goes on to a text, and says what stood in front of it.
    fn go_on(&mut self, token: Option<&Token>, rest: &'a [u8]) -> Seen {
        let size = self.text.len();
        let spot = self.spot;
        let Some(token) = token else {
            return Seen {
                start: size,
                end: size,
                sight: Sight::End,
                spot,
            };
        };
        let front = size.saturating_sub(self.left.len());
        let sight = sight_of(token);
        self.left = rest;
        self.spot = next_spot(spot, sight);
        Seen {
            start: front.saturating_add(token.place as usize),
            end: size.saturating_sub(rest.len()),
            sight,
            spot,
        }
    }

    /// The next token, and at the end what is wanted there.
    pub fn next(&mut self) -> Result<Seen, NoMemory> {
        let left = self.left;
        let mut tokens = Vec::new(self.alloc);
        let rest = push_tokens(self.alloc, &mut tokens, left, left, 1)?.unwrap_or(&[]);
        Ok(self.go_on(tokens.as_slice().first(), rest))
    }
}

/// The bytes of a token.
pub fn word_of<'a>(text: &'a [u8], seen: &Seen) -> &'a [u8] {
    let end = seen.end.min(text.len());
    let start = seen.start.min(end);
    &text[start..end]
}

/// A script, and where its actors and definitions begin.
#[derive(Drop)]
pub struct Script<'a> {
    pub text: &'a [u8],
    pub(crate) alloc: Global,
    pub(crate) heads: Vec<Seen>,
}

/// Whether a definition begins with a token.
pub fn is_when(seen: &Seen) -> bool {
    seen.sight == Sight::Mark(Mark::When)
}

// Whether it is the name of an actor, or begins a definition.
fn is_head(seen: &Seen) -> bool {
    seen.spot == Spot::ActorName || seen.spot == Spot::Definition && is_when(seen)
}

/// A script that is a script. So it has few actors and definitions.
pub fn script_of(alloc: Global, text: &[u8]) -> Result<Script<'_>, NoMemory> {
    let mut heads = Vec::new(alloc);
    let mut walk = Walk::new(alloc, text);
    for _ in 0..text.len() {
        let seen = walk.next()?;
        if seen.is_end() {
            break;
        }
        if is_head(&seen) {
            heads.push(seen)?;
        }
    }
    Ok(Script { text, alloc, heads })
}

impl<'a> Script<'a> {
    /// Where a definition begins, by the numbers of its actor and of itself, both from 0.
    pub fn definition_place(&self, actor: usize, rule: usize) -> usize {
        let mut actors = 0usize;
        let mut rules = 0usize;
        for seen in self.heads.as_slice() {
            if seen.spot == Spot::ActorName {
                actors = actors.saturating_add(1);
                rules = 0;
            } else {
                if actors == actor.saturating_add(1) && rules == rule {
                    return seen.start;
                }
                rules = rules.saturating_add(1);
            }
        }
        0
    }
}
