//! Bytes of files and words, as they are shown.
use crate::place::begins_character;
use join_base::{Bytes, NoMemory, byte_at};

/// The front of the bytes, with whole characters alone.
pub fn front_of(bytes: &[u8], max: usize) -> &[u8] {
    if bytes.len() <= max {
        return bytes;
    }
    let mut end = max;
    'whole: while end > 0 && !begins_character(bytes[end]) {
        end -= 1;
    }
    &bytes[..end]
}

/// The end of the bytes, with whole characters alone.
pub fn end_of(bytes: &[u8], max: usize) -> &[u8] {
    let mut start = bytes.len().saturating_sub(max);
    if start == 0 {
        return bytes;
    }
    'whole: while start < bytes.len() && !begins_character(bytes[start]) {
        start += 1;
    }
    &bytes[start..]
}

// What is shown of a byte between two others: a blank in place of a sign that a terminal obeys. In UTF-8 some of these
// have two bytes, of which the first is 0xC2.
fn shown_sign(before: u8, b: u8, behind: u8) -> Option<u8> {
    match (before, b, behind) {
        (_, 0xC2, 0x80..=0x9F) => None,
        (0xC2, 0x80..=0x9F, _) => Some(b' '),
        (_, b'\t', _) => Some(b'\t'),
        (_, 0..=31 | 127, _) => Some(b' '),
        _ => Some(b),
    }
}

/// Appends the bytes as they are shown.
pub fn push_shown(out: &mut Bytes, bytes: &[u8]) -> Result<(), NoMemory> {
    let mut before = 0;
    for place in 0..bytes.len() {
        let b = bytes[place];
        if let Some(sign) = shown_sign(before, b, byte_at(bytes, place + 1)) {
            out.push_all(&[sign])?;
        }
        before = b;
    }
    Ok(())
}

// What stands below a byte in front of a mark, where something does.
fn below(b: u8) -> Option<u8> {
    match b {
        b'\t' => Some(b'\t'),
        _ if begins_character(b) => Some(b' '),
        _ => None,
    }
}

/// Appends a line with a mark below the place behind what another line has in front.
pub fn push_mark(out: &mut Bytes, front: &[u8]) -> Result<(), NoMemory> {
    out.push_all(b"    ")?;
    for b in front {
        if let Some(sign) = below(*b) {
            out.push_all(&[sign])?;
        }
    }
    out.push_all(b"^\n")
}
