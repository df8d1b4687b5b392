//! Words, numbers and values put together in a room, from its end to its front, so that a line is appended in one
//! piece. Each function puts something before a place of the room, and answers where it begins.
ghost use Rattle.std.specs.Prelude.{◌≡◌, ◌≤◌, ◌+◌, ◌++◌, drop, length, map, IfSome};
ghost use Rattle.std.specs.Fmt.{decimal, signed_decimal};
ghost use Rattle.std.specs.List.{list_all};
ghost use Rattle.join_base.specs.Quoted.{quoted};
ghost use Rattle.join_base.specs.Fields.{value_seen};
ghost use Rattle.arrival_log.specs.Commas.{is_plain_byte, stamp_behind};
ghost use Rattle.arrival_log.specs.LogText.{comma_joined, value_text};

use fair_semantics::LogVersion;
use itoa::write_digits;
use join_base::{Fields, ValueRef};

/// The bytes of a room.
pub(crate) const ROOM: usize = 512;

/// How many of them are kept for what stands before the values of a line.
pub(crate) const FRONT: usize = 256;

#[inline]
pub(crate) fn put_words(room: &mut [u8; ROOM], end: usize, words: &[u8]) -> usize
    requires within { (length words.now ≤ end) × (end ≤ 512) }
    ensures start { result + length words.now ≡ end }
    ensures written { drop result room.new ≡ words.now ++ drop end room.old }
{
    let start = end - words.len();
    room[start..end].copy_from_slice(words);
    start
}

#[inline]
pub(crate) fn put_number(room: &mut [u8; ROOM], end: usize, number: u64) -> usize
    requires within { (20 ≤ end) × (end ≤ 512) }
    ensures start { (result ≤ end) × (end ≤ result + 20) }
    ensures written { drop result room.new ≡ decimal number ++ drop end room.old }
{
    write_digits(number, room, end)
}

// ` at S` behind an arrival's number, which a plain log lacks.
#[inline]
pub(crate) fn put_stamp(room: &mut [u8; ROOM], end: usize, version: LogVersion, stamp: u64) -> usize
    requires within { (24 ≤ end) × (end ≤ 512) }
    ensures start { (result ≤ end) × (end ≤ result + 24) }
    ensures written { drop result room.new ≡ stamp_behind version stamp ++ drop end room.old }
{
    if version.has_stamps() {
        let end = put_number(room, end, stamp);
        put_words(room, end, b" at ")
    } else {
        end
    }
}

#[inline]
fn put_integer(room: &mut [u8; ROOM], end: usize, number: i64) -> usize
    requires within { (21 ≤ end) × (end ≤ 512) }
    ensures start { (result ≤ end) × (end ≤ result + 21) }
    ensures written { drop result room.new ≡ signed_decimal number ++ drop end room.old }
{
    let start = put_number(room, end, number.unsigned_abs());
    if number < 0 {
        put_words(room, start, b"-")
    } else {
        start
    }
}

/// Whether each byte stands for itself between quotes. It goes through all of them, so that many are compared at once.
pub fn needs_no_escape(text: &[u8]) -> bool
    ensures { result ≡ list_all is_plain_byte text.now }
{
    let mut plain = true;
    for byte in text {
        let byte = *byte;
        plain = plain & !(byte == b'"' || byte == b'\\' || byte < 0x20 || byte == 0x7F);
    }
    plain
}

/// The quoted form of a text whose bytes stand for themselves, where there is room.
pub(crate) fn put_text(room: &mut [u8; ROOM], end: usize, text: &[u8]) -> Option<usize>
    requires within { end ≤ 512 }
    ensures start { IfSome result (λ start. (235 ≤ start) × (start ≤ 512)) }
    ensures written { IfSome result (λ start. drop start room.new ≡ quoted text.now ++ drop end room.old) }
{
    if end < FRONT || text.len() > end - FRONT || !needs_no_escape(text) {
        return None;
    }
    let behind = put_words(room, end, b"\"");
    let start = put_words(room, behind, text);
    Some(put_words(room, start, b"\""))
}

/// A value, where there is room and a text stands for itself.
#[inline]
pub(crate) fn put_value(room: &mut [u8; ROOM], end: usize, value: ValueRef<'_>) -> Option<usize>
    requires within { end ≤ 512 }
    ensures start { IfSome result (λ start. (235 ≤ start) × (start ≤ 512)) }
    ensures written { IfSome result (λ start. drop start room.new ≡ value_text (value_seen value.entry)
        ++ drop end room.old) }
{
    match value {
        ValueRef::Int(number) => {
            if end < FRONT {
                return None;
            }
            Some(put_integer(room, end, number))
        }
        ValueRef::Words(words) => put_text(room, end, words.bytes()),
    }
}

/// The values with commas between them, likewise.
pub(crate) fn put_values(room: &mut [u8; ROOM], end: usize, values: &Fields) -> Option<usize>
    requires within { (235 ≤ end) × (end ≤ 512) }
    ensures start { IfSome result (λ start. (235 ≤ start) × (start ≤ 512)) }
    ensures written { IfSome result (λ start. drop start room.new ≡ comma_joined (map value_text values.now)
        ++ drop end room.old) }
{
    if values.len() == 0 {
        return Some(end);
    }
    let mut place = values.len() - 1;
    let mut start = put_value(room, end, values.at(place))?;
    'values: while place > 0 {
        place -= 1;
        let behind = put_words(room, start, b",");
        start = put_value(room, behind, values.at(place))?;
    }
    Some(start)
}

/// The numbers with commas between them.
pub(crate) fn put_numbers(room: &mut [u8; ROOM], end: usize, numbers: &[u32]) -> usize
    requires few { length numbers.now ≤ 8 }
    requires within { (256 ≤ end) × (end ≤ 512) }
    ensures start { (88 ≤ result) × (result ≤ 512) }
    ensures written { drop result room.new ≡ comma_joined (map (λ n. decimal n) numbers.now) ++ drop end room.old }
{
    if numbers.is_empty() {
        return end;
    }
    let mut place = numbers.len() - 1;
    let mut start = put_number(room, end, u64::from(numbers[place]));
    'numbers: while place > 0 {
        place -= 1;
        let behind = put_words(room, start, b",");
        start = put_number(room, behind, u64::from(numbers[place]));
    }
    start
}
