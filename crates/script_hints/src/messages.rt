//! What the messages of a script say.
use crate::spot::{Sight, Spot};
use crate::tokens::{Script, Seen, Walk, word_of};
use join_base::{NoMemory, Sort};
use script_tokens::Mark;
use std::alloc::Global;

/// A field of a message: its name and its type.
#[derive(Clone, Copy)]
pub struct Field<'a> {
    pub name: &'a [u8],
    pub sort: Option<Sort>,
}

// The tokens behind the name of the first message of this kind.
fn behind_name<'a>(
    alloc: Global,
    text: &'a [u8],
    kind: &[u8],
) -> Result<Option<Walk<'a>>, NoMemory> {
    let mut walk = Walk::new(alloc, text);
    for _ in 0..text.len() {
        let seen = walk.next()?;
        if seen.is_end() {
            break;
        }
        if seen.spot == Spot::MessageName && word_of(text, &seen) == kind {
            return Ok(Some(walk));
        }
    }
    Ok(None)
}

// Whether a message ends in front of a token.
fn is_behind(seen: &Seen) -> bool {
    seen.is_end() || seen.spot == Spot::Declaration
}

// How many fields stand in front of the end of a message.
fn count_fields(walk: Walk<'_>, turns: usize) -> Result<usize, NoMemory> {
    let mut walk = walk;
    let mut count = 0usize;
    for _ in 0..turns {
        let seen = walk.next()?;
        if is_behind(&seen) {
            break;
        }
        if seen.spot == Spot::Type {
            count = count.saturating_add(1);
        }
    }
    Ok(count)
}

/// How many fields the message of a kind has.
pub fn field_count(alloc: Global, text: &[u8], kind: &[u8]) -> Result<Option<usize>, NoMemory> {
    match behind_name(alloc, text, kind)? {
        Some(walk) => Ok(Some(count_fields(walk, text.len())?)),
        None => Ok(None),
    }
}

// The type that a token stands for.
fn sort_at(seen: &Seen) -> Option<Sort> {
    match seen.sight {
        Sight::Mark(Mark::Int) => Some(Sort::Int),
        Sight::Mark(Mark::Text) => Some(Sort::Words),
        _ => None,
    }
}

// The field of this number, counted from 0, in front of the end of a message.
fn find_field<'a>(
    text: &'a [u8],
    walk: Walk<'a>,
    field: usize,
) -> Result<Option<Field<'a>>, NoMemory> {
    let mut walk = walk;
    let mut left = field;
    let mut name: &'a [u8] = &[];
    for _ in 0..text.len() {
        let seen = walk.next()?;
        if is_behind(&seen) {
            break;
        }
        match seen.spot {
            Spot::FirstField | Spot::Field => name = word_of(text, &seen),
            Spot::Type if left == 0 => {
                let sort = sort_at(&seen);
                return Ok(Some(Field { name, sort }));
            }
            Spot::Type => left = left.saturating_sub(1),
            _ => {}
        }
    }
    Ok(None)
}

/// A field, counted from 0, of the message of a kind.
pub fn field_of<'a>(
    alloc: Global,
    text: &'a [u8],
    kind: &[u8],
    field: usize,
) -> Result<Option<Field<'a>>, NoMemory> {
    match behind_name(alloc, text, kind)? {
        Some(walk) => find_field(text, walk, field),
        None => Ok(None),
    }
}

/// The type of a field, counted from 0, of the message of a kind.
pub fn field_sort(
    alloc: Global,
    text: &[u8],
    kind: &[u8],
    field: usize,
) -> Result<Option<Sort>, NoMemory> {
    match field_of(alloc, text, kind, field)? {
        Some(found) => Ok(found.sort),
        None => Ok(None),
    }
}

impl<'a> Script<'a> {
    /// How many fields the message of a kind has.
    pub fn field_count(&self, kind: &[u8]) -> Result<Option<usize>, NoMemory> {
        field_count(self.alloc, self.text, kind)
    }

    /// The type of a field, counted from 0, of the message of a kind.
    pub fn field_sort(&self, kind: &[u8], field: usize) -> Result<Option<Sort>, NoMemory> {
        field_sort(self.alloc, self.text, kind, field)
    }

    /// The name of that field.
    pub fn field_name(&self, kind: &[u8], field: usize) -> Result<Option<&'a [u8]>, NoMemory> {
        match field_of(self.alloc, self.text, kind, field)? {
            Some(found) => Ok(Some(found.name)),
            None => Ok(None),
        }
    }
}
