//! What the definition around a token says.
use crate::messages::field_sort;
use crate::spot::{Part, Sight, Spot, Step};
use crate::tokens::{Seen, Walk, is_when, word_of};
use join_base::{NoMemory, Sort};
use script_tokens::Mark;
use std::alloc::Global;

const COMMA: Sight = Sight::Mark(Mark::Comma);

/// A token of a script, those beside it, and what is kept of its definition.
#[derive(Drop)]
pub struct Around<'a> {
    pub text: &'a [u8],
    alloc: Global,
    // Kinds, variables and the commas of posts, from the `when` of the definition up to the token.
    front: Vec<Seen>,
    /// The token in front, or this one where none is.
    pub before: Seen,
    pub here: Seen,
    behind: Seen,
    // The tokens behind that one.
    rest: Walk<'a>,
}

/// Whether the definition around a token is asked for.
#[derive(Clone, Copy, PartialEq, Eq)]
pub enum Reach {
    Token,
    Definition,
}

// Whether a token of a definition is kept.
fn is_kept(seen: &Seen) -> bool {
    match seen.spot {
        Spot::PatternKind | Spot::FirstVariable | Spot::Variable | Spot::PostKind => true,
        Spot::Term(Part::Value, Step::Behind | Step::Quoted) => seen.sight == COMMA,
        _ => false,
    }
}

// Keeps a token of a definition, where it tells something.
fn keep(front: &mut Vec<Seen>, seen: Seen) -> Result<(), NoMemory> {
    if is_when(&seen) {
        front.clear();
    } else if is_kept(&seen) {
        front.push(seen)?;
    }
    Ok(())
}

/// The token that begins at a place or behind it. The definition is asked for only where no limit is passed in front
/// of the place, so what is kept of it is little.
pub fn see_around(
    alloc: Global,
    text: &[u8],
    place: usize,
    reach: Reach,
) -> Result<Around<'_>, NoMemory> {
    let mut front = Vec::new(alloc);
    let mut rest = Walk::new(alloc, text);
    let mut here = rest.next()?;
    let mut before = here;
    for _ in 0..text.len() {
        if here.is_end() || here.start >= place {
            break;
        }
        if reach == Reach::Definition {
            keep(&mut front, here)?;
        }
        before = here;
        here = rest.next()?;
    }
    let behind = rest.next()?;
    Ok(Around {
        text,
        alloc,
        front,
        before,
        here,
        behind,
        rest,
    })
}

impl<'a> Around<'a> {
    /// The bytes of the token.
    pub fn word(&self) -> &'a [u8] {
        word_of(self.text, &self.here)
    }

    /// How many values or variables stand in the parentheses behind the token.
    pub fn value_count(&self) -> Result<usize, NoMemory> {
        let mut walk = self.rest;
        let mut count = 0usize;
        let mut is_some = false;
        for _ in 0..self.text.len() {
            match walk.next()?.sight {
                Sight::Mark(Mark::Close) => return Ok(count.saturating_add(usize::from(is_some))),
                Sight::End => break,
                Sight::Mark(Mark::Comma) => count = count.saturating_add(1),
                _ => is_some = true,
            }
        }
        Ok(count)
    }

    /// How many patterns the definition has in front of the token.
    pub fn pattern_count(&self) -> usize {
        let mut count = 0usize;
        for seen in self.front.as_slice() {
            if seen.spot == Spot::PatternKind {
                count = count.saturating_add(1);
            }
        }
        count
    }

    // The kind and the number of the field that the variable of this token stands for.
    fn variable_field(&self) -> Option<(&'a [u8], usize)> {
        let word = self.word();
        let mut kind: &'a [u8] = &[];
        let mut field = 0usize;
        for seen in self.front.as_slice() {
            match seen.spot {
                Spot::PatternKind => {
                    kind = word_of(self.text, seen);
                    field = 0;
                }
                Spot::FirstVariable | Spot::Variable => {
                    if word_of(self.text, seen) == word {
                        return Some((kind, field));
                    }
                    field = field.saturating_add(1);
                }
                _ => {}
            }
        }
        None
    }

    fn variable_sort(&self) -> Result<Option<Sort>, NoMemory> {
        match self.variable_field() {
            Some((kind, field)) => field_sort(self.alloc, self.text, kind, field),
            None => Ok(None),
        }
    }

    /// The type of the number, the text or the variable that begins at the token.
    pub fn sort(&self) -> Result<Option<Sort>, NoMemory> {
        match self.here.sight {
            Sight::Quoted => Ok(Some(Sort::Words)),
            Sight::Number | Sight::Mark(Mark::Minus) => Ok(Some(Sort::Int)),
            Sight::Name => self.variable_sort(),
            _ => Ok(None),
        }
    }

    /// The kind of the post in which a value stands, and which of its values it is, counted from 0.
    pub fn post(&self) -> (&'a [u8], usize) {
        let mut kind: &'a [u8] = &[];
        let mut field = 0usize;
        for seen in self.front.as_slice() {
            match seen.spot {
                Spot::PostKind => {
                    kind = word_of(self.text, seen);
                    field = 0;
                }
                Spot::Term(_, _) => field = field.saturating_add(1),
                _ => {}
            }
        }
        (kind, field)
    }

    /// Whether a sign stands behind the token.
    pub fn is_in_sum(&self) -> bool {
        matches!(self.behind.sight, Sight::Mark(Mark::Plus | Mark::Minus))
    }
}
