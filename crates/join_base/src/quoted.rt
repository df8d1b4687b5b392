//! Quoted texts, written and read.
ghost use Rattle.std.specs.Prelude.{◌≡◌, List, ℕ, ◌∷◌, [], ◌++◌, ◌+◌, ◌<◌, ◌≤◌, ◌↔◌, length, take, drop, slice_index, IfOk, OnOk, OnErr, IfSome, IsNone, Err, MatchOption, Some, None, false};
ghost use Rattle.std.specs.List.{flat_map};
ghost use Rattle.std.specs.Fmt.{digit_glyph};
ghost use Rattle.std.specs.Str.{IsUtf8};
ghost use Rattle.join_base.specs.Text.{IsText};
ghost use Rattle.join_base.specs.Quoted.{is_control, byte_form, quoted, Unquotes, BeginsNoQuoted, QuotedIsPrefixFree, QuotedIsDecided};
ghost use Rattle.join_base.specs.Unquoted.{hex_value, hex_byte, is_hex_escaped, hex_escape, escape, form_of, form_at, IsFront};

use crate::items::NoMemory;
use crate::text::{Bytes, Line, Text, byte_at};
use std::alloc::Global;
use thiserror::Error;

/// Why no text was read.
#[derive(Clone, Copy, PartialEq, Eq, Debug, Error)]
pub enum QuoteFault {
    /// No quoted form of a text that is short enough begins there.
    #[error("no quoted text")]
    BadQuote,
    #[error("out of memory")]
    NoMemory,
}

impl From<NoMemory> for QuoteFault {
    ghost use Rattle.std.specs.Prelude.{◌≡◌};
    ghost use Rattle.join_base.specs.declared.quoted.QuoteFault.TheVariants.{NoMemory};

    ghost from_gives = { λ _ e. e ≡ NoMemory };

    fn from(_: NoMemory) -> QuoteFault {
        QuoteFault::NoMemory
    }
}

fn is_control(byte: u8) -> bool
    ensures { result ≡ is_control byte }
{
    byte < 0x20 || byte == 0x7F
}

// The lower-case hexadecimal digit of a value.
fn hex_digit(value: u8) -> u8
    requires { value < 16 }
    ensures { result ≡ digit_glyph false value }
{
    if value < 10 {
        b'0' + value
    } else {
        b'a' + (value - 10)
    }
}

// Appends the form of one byte.
fn push_form(out: &mut Bytes, byte: u8) -> Result<(), NoMemory>
    ensures ok { OnOk result (out.new ≡ out.old ++ byte_form byte) }
    ensures err { OnErr result (out.new ≡ out.old) }
{
    match byte {
        b'"' => out.push_all(b"\\\""),
        b'\\' => out.push_all(b"\\\\"),
        b'\n' => out.push_all(b"\\n"),
        b'\r' => out.push_all(b"\\r"),
        b'\t' => out.push_all(b"\\t"),
        _ if is_control(byte) => {
            out.push_all(&[b'\\', b'x', hex_digit(byte / 16), hex_digit(byte % 16)])
        }
        _ => out.push_all(&[byte]),
    }
}

// Appends the forms of some bytes between quotes. Without memory some of it stays appended.
fn push_quoted(out: &mut Bytes, text: &[u8]) -> Result<(), NoMemory>
    ensures ok { OnOk result (out.new ≡ out.old ++ quoted text.now) }
    ensures err { OnErr result (take (length out.old) out.new ≡ out.old) }
{
    out.push_all(b"\"")?;
    for byte in text {
        push_form(out, *byte)?;
    }
    out.push_all(b"\"")
}

/// Appends the quoted form of a text. Without memory the bytes are as they were.
pub fn write_quoted(out: &mut Bytes, text: &[u8]) -> Result<(), NoMemory>
    requires utf8 { IsUtf8 text.now }
    ensures ok { OnOk result (out.new ≡ out.old ++ quoted text.now) }
    ensures err { OnErr result (out.new ≡ out.old) }
{
    let before = out.bytes().len();
    let written = push_quoted(out, text);
    if written.is_err() {
        out.truncate(before);
    }
    written
}

#[tactic(auto, unfolding(crate::specs::Unquoted::hex_value))]
fn hex_value(digit: u8) -> Option<u8>
    ensures value { result ≡ hex_value digit }
    ensures small { IfSome result (λ value. value < 16) }
{
    match digit {
        b'0'..=b'9' => Some(digit - b'0'),
        b'a'..=b'f' => Some(digit - b'a' + 10),
        _ => None,
    }
}

fn hex_byte(high: u8, low: u8) -> Option<u8>
    ensures { result ≡ hex_byte (hex_value high) (hex_value low) }
{
    let high = hex_value(high)?;
    let low = hex_value(low)?;
    Some(high * 16 + low)
}

fn is_hex_escaped(byte: u8) -> bool
    ensures { result ≡ is_hex_escaped byte }
{
    is_control(byte) && !(byte == b'\t' || byte == b'\n' || byte == b'\r')
}

fn hex_escape(high: u8, low: u8) -> Option<(u8, usize)>
    ensures { result ≡ hex_escape (hex_byte (hex_value high) (hex_value low)) }
{
    let byte = hex_byte(high, low)?;
    if is_hex_escaped(byte) {
        Some((byte, 4))
    } else {
        None
    }
}

// The byte that `\` and what follows stand for, and the length of this form.
#[tactic(auto, unfolding(crate::specs::Unquoted::escape))]
fn escape(letter: u8, high: u8, low: u8) -> Option<(u8, usize)>
    ensures { result ≡ escape letter high low }
{
    match letter {
        b'"' => Some((b'"', 2)),
        b'\\' => Some((b'\\', 2)),
        b'n' => Some((b'\n', 2)),
        b'r' => Some((b'\r', 2)),
        b't' => Some((b'\t', 2)),
        b'x' => hex_escape(high, low),
        _ => None,
    }
}

// The byte whose form stands in front, and the length of this form.
#[tactic(auto, unfolding(crate::specs::Unquoted::form_of))]
fn form_at(bytes: &[u8]) -> Option<(u8, usize)>
    ensures value { result ≡ form_at bytes.now }
    ensures front { IfSome result (λ p. IsFront bytes.now p.0 p.1) }
{
    let first = byte_at(bytes, 0);
    if first == b'\\' {
        return escape(byte_at(bytes, 1), byte_at(bytes, 2), byte_at(bytes, 3));
    }
    if first == b'"' || is_control(first) {
        return None;
    }
    Some((first, 1))
}

// Reads the forms of bytes up to a `"` into the room, which they may fill. The answer is how many bytes they are,
// and the place after the `"`.
fn read_forms(bytes: &[u8], at: usize, room: &mut [u8]) -> Option<(usize, usize)>
    requires within { at ≤ length bytes.now }
    ensures room { IfSome result (λ p. p.0 ≤ length room.new) }
    ensures end { IfSome result (λ p. (at < p.1) × (p.1 ≤ length bytes.now)) }
    ensures forms { IfSome result (λ p. drop at bytes.now ≡ flat_map byte_form (take p.0 room.new) ++ 34
        ∷ drop p.1 bytes.now) }
    ensures none { IsNone result → (text rest : List ℕ) → length text ≤ length room.old
        → drop at bytes.now ≡ flat_map byte_form text ++ 34 ∷ rest → ⊥ }
{
    let mut count = 0;
    let mut place = at;
    'forms: loop {
        let rest = bytes.split_at(place).1;
        if byte_at(rest, 0) == b'"' {
            return Some((count, place + 1));
        }
        if count >= room.len() {
            return None;
        }
        let (byte, length) = form_at(rest)?;
        room[count] = byte;
        count += 1;
        place += length;
    }
}

// Reads a quoted text into the room. The answer is how many bytes the text has, and the place after it.
fn unquote(bytes: &[u8], at: usize, room: &mut [u8]) -> Option<(usize, usize)>
    requires within { at ≤ length bytes.now }
    ensures room { IfSome result (λ p. p.0 ≤ length room.new) }
    ensures end { IfSome result (λ p. (at < p.1) × (p.1 ≤ length bytes.now)) }
    ensures text { IfSome result (λ p. Unquotes (length room.old) (drop at bytes.now) (take p.0 room.new)
        (drop p.1 bytes.now)) }
    ensures none { IsNone result → BeginsNoQuoted (length room.old) (drop at bytes.now) }
{
    if byte_at(bytes.split_at(at).1, 0) != b'"' {
        return None;
    }
    let (count, end) = read_forms(bytes, at + 1, room)?;
    match std::str::from_utf8(room.split_at(count).0) {
        Ok(_) => Some((count, end)),
        Err(_) => None,
    }
}

/// The text whose quoted form begins at a place, of at most `max` bytes, and the place after the form. `BadQuote`
/// exactly where there is none.
pub fn read_quoted(
    alloc: Global,
    bytes: &[u8],
    at: usize,
    max: usize,
) -> Result<(Line, usize), QuoteFault>
    requires within { at ≤ length bytes.now }
    requires short { max ≤ 1920 }
    ensures text { IfOk result (λ p. Unquotes max (drop at bytes.now) p.0 (drop p.1 bytes.now)) }
    ensures end { IfOk result (λ p. (at < p.1) × (p.1 ≤ length bytes.now)) }
    ensures bad { (result ≡ Err QuoteFault.BadQuote) ↔ BeginsNoQuoted max (drop at bytes.now) }
{
    let mut room = [0; 1920];
    let room = &mut room[..max];
    match unquote(bytes, at, room) {
        None => Err(QuoteFault::BadQuote),
        Some((count, end)) => {
            let text = Line::from_text(alloc, &room[..count])?;
            Ok((text, end))
        }
    }
}

/// The same for a text of at most 120 bytes.
pub fn read_quoted_text(alloc: Global, bytes: &[u8], at: usize) -> Result<(Text, usize), QuoteFault>
    requires within { at ≤ length bytes.now }
    ensures text { IfOk result (λ p. Unquotes 120 (drop at bytes.now) p.0 (drop p.1 bytes.now)) }
    ensures end { IfOk result (λ p. (at < p.1) × (p.1 ≤ length bytes.now)) }
    ensures bad { (result ≡ Err QuoteFault.BadQuote) ↔ BeginsNoQuoted 120 (drop at bytes.now) }
{
    let mut room = [0; 120];
    match unquote(bytes, at, &mut room) {
        None => Err(QuoteFault::BadQuote),
        Some((count, end)) => {
            let text = Text::from_text(alloc, &room[..count])?;
            Ok((text, end))
        }
    }
}

/// A text has one quoted form, and no quoted form begins a longer one.
pub fn quoted_law()
    ensures { QuotedIsPrefixFree }
{}

/// Either the quoted form of a text that is short enough begins some bytes, or none does.
pub fn quoted_or_none()
    ensures { QuotedIsDecided }
{}
