//! Quotes of a feed that are never closed.
ghost use Rattle.std.specs.Prelude.{◌≤◌, ◌<◌, length, IfSome};

use join_base::byte_at;
use memchr::memchr;

fn is_end(b: u8) -> bool {
    b == b',' || b == b'\n' || b == b'\r'
}

// How many bytes the mark of the encoding has in front.
fn mark_len(bytes: &[u8]) -> usize {
    match bytes {
        [0xEF, 0xBB, 0xBF, ..] => 3,
        _ => 0,
    }
}

// Whether a field begins at a place outside of quotes.
fn begins_field(bytes: &[u8], place: usize) -> bool {
    place == mark_len(bytes) || is_end(byte_at(bytes, place.saturating_sub(1)))
}

// The first quote from a place on.
fn quote_from(bytes: &[u8], from: usize) -> Option<usize>
    ensures behind { IfSome result (λ place. from ≤ place) }
    ensures within { IfSome result (λ place. place < length bytes.now) }
{
    let (_, searched) = bytes.split_at(from.min(bytes.len()));
    let skipped = bytes.len() - searched.len();
    match memchr(b'"', searched) {
        Some(place) => Some(skipped + place),
        None => None,
    }
}

// Whether the quote at a place is followed by another. In quotes, two of them stand for one.
fn is_doubled(bytes: &[u8], place: usize) -> bool {
    byte_at(bytes, place.saturating_add(1)) == b'"'
}

// Which quote is open behind the one at a place, by the one that was open in front of it.
fn open_behind(bytes: &[u8], open: Option<usize>, place: usize) -> Option<usize> {
    match open {
        Some(_) if is_doubled(bytes, place) => open,
        None if begins_field(bytes, place) => Some(place),
        _ => None,
    }
}

// Where to look on behind the quote at a place.
fn behind_quote(bytes: &[u8], is_open: bool, place: usize) -> usize
    requires within { place < length bytes.now }
    ensures behind { place < result }
{
    if is_open && is_doubled(bytes, place) {
        place + 2
    } else {
        place + 1
    }
}

/// Where the quote opens in a feed that is never closed, and takes the rest of it as one value.
pub fn unclosed_quote(bytes: &[u8]) -> Option<usize> {
    let mut open: Option<usize> = None;
    let mut rest = 0;
    'quotes: while let Some(place) = quote_from(bytes, rest) {
        rest = behind_quote(bytes, open.is_some(), place);
        open = open_behind(bytes, open, place);
    }
    open
}
