//! What is remarked besides: notes on what is no fault.
use crate::part::{Part, name_part, push_parts};
use crate::place::place_of;
use crate::quote::unclosed_quote;
use join_base::{Bytes, NoMemory};
use script_hints::Script;
use std::alloc::Global;

/// Two patterns that are tied only through another one: their kinds, that of the other one, and the two variables to
/// compare.
#[derive(Clone, Copy, Debug)]
pub struct Tie<'a> {
    pub left_kind: &'a [u8],
    pub right_kind: &'a [u8],
    pub link_kind: &'a [u8],
    pub left: &'a [u8],
    pub right: &'a [u8],
}

// Appends a note on a place of a file: file, line, column, and what is told.
fn push_note(
    out: &mut Bytes,
    name: &str,
    text: &[u8],
    place: usize,
    told: &[Part<'_>],
) -> Result<(), NoMemory> {
    let found = place_of(text, place);
    let front = [
        name_part(name),
        Part::Text(b":"),
        Part::Number(found.line as i128),
        Part::Text(b":"),
        Part::Number(found.column as i128),
        Part::Text(b": note: "),
    ];
    push_parts(out, &front)?;
    push_parts(out, told)
}

/// Appends what is remarked of a definition, by the numbers of its actor and of itself, both from 0.
pub fn push_tie(
    out: &mut Bytes,
    name: &str,
    script: &Script<'_>,
    actor: usize,
    rule: usize,
    tie: Tie<'_>,
) -> Result<(), NoMemory> {
    let told = [
        Part::Shown(tie.left_kind),
        Part::Text(b" and "),
        Part::Shown(tie.right_kind),
        Part::Text(b" are tied only through "),
        Part::Shown(tie.link_kind),
        Part::Text(b", so pairs of them are kept: add "),
        Part::Shown(tie.left),
        Part::Text(b" == "),
        Part::Shown(tie.right),
        Part::Text(b"\n"),
    ];
    let place = script.definition_place(actor, rule);
    push_note(out, name, script.text, place, &told)
}

// What is remarked of a quote that opens at this place and is never closed.
fn quote_remark(alloc: Global, name: &str, text: &[u8], place: usize) -> Result<Bytes, NoMemory> {
    let told = [Part::Text(
        b"the quote that opens here is never closed, and takes the rest of the feed as one value\n",
    )];
    let mut out = Bytes::new(alloc);
    push_note(&mut out, name, text, place, &told)?;
    Ok(out)
}

/// What is remarked of a feed: a quote that is never closed.
pub fn feed_remark(alloc: Global, name: &str, text: &[u8]) -> Result<Bytes, NoMemory> {
    match unclosed_quote(text) {
        Some(place) => quote_remark(alloc, name, text, place),
        None => Ok(Bytes::new(alloc)),
    }
}
