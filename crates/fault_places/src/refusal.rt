//! The line that the program writes for a refusal, read again.

/// What a line refuses. The causes are their names.
#[derive(Clone, Copy, PartialEq, Eq, Debug)]
pub enum Refused<'a> {
    Script { place: u64, cause: &'a [u8] },
    Feed { row: u64, cause: &'a [u8] },
    Log { line: u64, cause: &'a [u8] },
}

// What stands behind a word and the space after it.
fn behind<'a>(text: &'a [u8], word: &[u8]) -> Option<&'a [u8]> {
    match text.strip_prefix(word) {
        Some([b' ', rest @ ..]) => Some(rest),
        _ => None,
    }
}

// The number in front, and what stands behind it and a space. One past 64 bits is the greatest.
fn number_in(text: &[u8]) -> Option<(u64, &[u8])> {
    let mut value: u64 = 0;
    let mut rest = text;
    'digits: while let [digit, more @ ..] = rest {
        if *digit == b' ' {
            return Some((value, more));
        }
        if !digit.is_ascii_digit() {
            return None;
        }
        value = value
            .saturating_mul(10)
            .saturating_add(u64::from(*digit - b'0'));
        rest = more;
    }
    None
}

// A number and a cause behind it.
fn number_and_cause(text: &[u8]) -> Option<(u64, &[u8])> {
    let (number, rest) = number_in(text)?;
    let cause = rest.strip_suffix(b"\n".as_slice())?;
    Some((number, cause))
}

/// What a written line refuses, where it is that of a script, a feed or a log.
pub fn read_refusal(line: &[u8]) -> Option<Refused<'_>> {
    let rest = behind(line, b"refused")?;
    if let Some(script) = behind(rest, b"script") {
        let (place, cause) = number_and_cause(script)?;
        return Some(Refused::Script { place, cause });
    }
    if let Some(feed) = behind(rest, b"feed") {
        let (_, rest) = number_in(feed)?;
        let (row, cause) = number_and_cause(behind(rest, b"row")?)?;
        return Some(Refused::Feed { row, cause });
    }
    let (line, cause) = number_and_cause(behind(behind(rest, b"log")?, b"line")?)?;
    Some(Refused::Log { line, cause })
}

/// The number of the line of a log that a written line says to differ.
pub fn differing_line(line: &[u8]) -> Option<u64> {
    match read_refusal(line) {
        Some(Refused::Log { line, cause }) if cause == b"Differs".as_slice() => Some(line),
        _ => None,
    }
}
