ghost use Rattle.std.specs.Prelude.{◌≤◌, length};

use join_base::{
    Bytes, Items, Line, Name, NoMemory, QuoteFault, Text, TextFault, Word, read_integer,
    read_quoted, read_quoted_text, write_number, write_quoted,
};
use std::alloc::Global;
use std::test::Fail;

// Whether the text is written as this quoted form, and read back from it.
fn is_quoted(alloc: Global, text: &str, form: &[u8]) -> bool {
    let mut out = Bytes::new(alloc);
    if write_quoted(&mut out, text.as_bytes()).is_err() || out.bytes() != form {
        return false;
    }
    match read_quoted(alloc, form, 0, 1920) {
        Ok((line, end)) => line.bytes() == text.as_bytes() && end == form.len(),
        Err(_) => false,
    }
}

#[test]
fn texts_have_one_quoted_form(rt: HostRuntime) {
    let alloc = rt.alloc();
    let all = is_quoted(alloc, "", b"\"\"")
        && is_quoted(alloc, "a \"b\"", b"\"a \\\"b\\\"\"")
        && is_quoted(alloc, "\n\r\t\\", b"\"\\n\\r\\t\\\\\"")
        && is_quoted(alloc, "\x00\x1f\x7f", b"\"\\x00\\x1f\\x7f\"")
        && is_quoted(alloc, "\x0b", b"\"\\x0b\"")
        && is_quoted(alloc, "\u{e9}~ ", b"\"\xc3\xa9~ \"");
    assert!(rt; all);
}

fn are_refused(alloc: Global, forms: &[&[u8]]) -> bool {
    for form in forms {
        let refused = match read_quoted(alloc, form, 0, 120) {
            Ok(_) => false,
            Err(fault) => fault == QuoteFault::BadQuote,
        };
        if !refused {
            return false;
        }
    }
    true
}

const OTHER_FORMS: &[&[u8]] = &[
    b"",
    b"a",
    b"\"",
    b"\"a",
    b"\"a\\",
    b"\"\n\"",
    b"\"\x7f\"",
    b"\"\\a\"",
    b"\"\\x0a\"",
    b"\"\\x41\"",
    b"\"\\x1F\"",
    b"\"\\x1\"",
    b"\"\\x80\"",
    b"\"\xff\"",
];

fn forms_of_no_text() -> &'static [&'static [u8]] {
    OTHER_FORMS
}

#[test]
fn other_forms_are_refused(rt: HostRuntime) {
    assert!(rt; are_refused(rt.alloc(), forms_of_no_text()));
}

// How many bytes the quoted text at place 1 has, and where it ends.
fn line_at(alloc: Global, bytes: &[u8], most: usize) -> Option<(usize, usize)>
    requires within { 1 ≤ length bytes.now }
    requires short { most ≤ 1920 }
{
    let (line, end) = read_quoted(alloc, bytes, 1, most).ok()?;
    Some((line.bytes().len(), end))
}

fn text_at(alloc: Global, bytes: &[u8]) -> Option<(usize, usize)>
    requires within { 1 ≤ length bytes.now }
{
    let (text, end) = read_quoted_text(alloc, bytes, 1).ok()?;
    Some((text.bytes().len(), end))
}

#[test]
fn the_bound_of_a_quoted_text_is_of_its_bytes(rt: HostRuntime) {
    let bytes = b",\"\\x01\\x02\\x03\",";
    let all = line_at(rt.alloc(), bytes, 3) == Some((3, 15))
        && line_at(rt.alloc(), bytes, 2).is_none()
        && text_at(rt.alloc(), bytes) == Some((3, 15));
    assert!(rt; all);
}

fn is_written(alloc: Global, value: i128, form: &[u8]) -> bool {
    let mut out = Bytes::new(alloc);
    write_number(&mut out, value).is_ok() && out.bytes() == form
}

#[test]
fn integers_are_written(rt: HostRuntime) {
    let all = is_written(rt.alloc(), 0, b"0")
        && is_written(rt.alloc(), -7, b"-7")
        && is_written(rt.alloc(), 9223372036854775808, b"9223372036854775808")
        && is_written(
            rt.alloc(),
            -590295810358705651648,
            b"-590295810358705651648",
        );
    assert!(rt; all);
}

fn are_integers(cases: &[(&[u8], i64)]) -> bool {
    for (bytes, value) in cases {
        if read_integer(bytes) != Some(*value) {
            return false;
        }
    }
    true
}

fn are_no_integers(cases: &[&[u8]]) -> bool {
    for bytes in cases {
        if read_integer(bytes).is_some() {
            return false;
        }
    }
    true
}

const INTEGERS: &[(&[u8], i64)] = &[
    (b"007", 7),
    (b"-0", 0),
    (b"9223372036854775807", 9223372036854775807),
    (b"-9223372036854775808", -9223372036854775808),
];

const NO_INTEGERS: &[&[u8]] = &[
    b"9223372036854775808",
    b"-9223372036854775809",
    b"340282366920938463463374607431768211457",
    b"+1",
    b"",
    b"1.5",
];

fn forms_of_integers() -> &'static [(&'static [u8], i64)] {
    INTEGERS
}

fn forms_of_no_integer() -> &'static [&'static [u8]] {
    NO_INTEGERS
}

#[test]
fn integers_are_read(rt: HostRuntime) {
    assert!(rt; are_integers(forms_of_integers()) && are_no_integers(forms_of_no_integer()));
}

// How many bytes a copy of the text has that these bytes are.
fn text_of(alloc: Global, bytes: &[u8]) -> Result<usize, TextFault> {
    Ok(Text::from_bytes(alloc, bytes)?.copy(alloc)?.bytes().len())
}

fn line_of(alloc: Global, bytes: &[u8]) -> Result<usize, TextFault> {
    Ok(Line::from_bytes(alloc, bytes)?.bytes().len())
}

// Whether a name that is made of its bytes, and copied, has them.
fn is_name_kept(alloc: Global) -> Result<bool, NoMemory> {
    let name = Name::from_bytes(alloc, b"m_1")?;
    Ok(name.copy(alloc)?.bytes() == b"m_1".as_slice())
}

fn is_word(alloc: Global, text: &str) -> Result<bool, NoMemory> {
    Ok(Word::from_text(alloc, text)?.as_str() == text)
}

fn messages(alloc: Global, count: usize) -> Result<Bytes, NoMemory> {
    let mut bytes = Bytes::new(alloc);
    for _ in 0..count {
        bytes.push_all(b"k")?;
    }
    Ok(bytes)
}

// Whether a text has at most 120 bytes, and a line may have more.
fn are_bounded(alloc: Global) -> Result<bool, NoMemory> {
    let most = messages(alloc, 120)?;
    let more = messages(alloc, 121)?;
    Ok(
        text_of(alloc, most.bytes()) == Ok(120)
            && text_of(alloc, more.bytes()) == Err(TextFault::TooLong)
            && line_of(alloc, more.bytes()) == Ok(121)
            && line_of(alloc, b"\xff") == Err(TextFault::NotText),
    )
}

fn is_long_line(alloc: Global) -> Result<bool, NoMemory> {
    let long = [b'k'; 121];
    Ok(Line::from_text(alloc, &long)?.bytes().len() == 121)
}

#[test]
fn texts_names_and_words(rt: HostRuntime) -> Result<(), Fail> {
    let alloc = rt.alloc();
    let lines = are_bounded(alloc)? && is_long_line(alloc)?;
    assert!(rt; lines && is_word(alloc, "run")? && is_name_kept(alloc)?);
    Ok(())
}

fn numbers_grow(alloc: Global) -> Result<bool, NoMemory> {
    let mut numbers: Items<u32> = Items::new(alloc);
    numbers.push(5)?;
    numbers.push(6)?;
    Ok(numbers.len() == 2 && numbers.pop() == Some(6))
}

fn bytes_grow(alloc: Global) -> Result<bool, NoMemory> {
    let mut bytes = Bytes::new(alloc);
    bytes.push_all(b"ab")?;
    Ok(bytes.bytes() == b"ab".as_slice() && bytes.copy(alloc)?.bytes() == b"ab".as_slice())
}

#[test]
fn lists_grow(rt: HostRuntime) -> Result<(), Fail> {
    assert!(rt; numbers_grow(rt.alloc())? && bytes_grow(rt.alloc())?);
    Ok(())
}
