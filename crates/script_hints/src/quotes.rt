//! Why the text that a quote opens is none.

// The most bytes of a text.
const MAX_TEXT: usize = 120;

// How far a text has come.
#[derive(Clone, Copy, PartialEq, Eq)]
enum State {
    Plain,
    /// Behind a backslash.
    Escape,
    /// Behind `\x`, and behind its first digit.
    FirstDigit,
    LastDigit,
}

fn is_digit(b: u8) -> bool {
    b.is_ascii_digit() || (b'a' <= b && b <= b'f')
}

// What comes behind a byte, where it may stand there.
fn next_state(state: State, b: u8) -> Option<State> {
    match (state, b) {
        (State::Plain, b'\\') => Some(State::Escape),
        (State::Plain, 0..=31 | 127) => None,
        (State::Plain, _) => Some(State::Plain),
        (State::Escape, b'"' | b'\\' | b'n' | b'r' | b't') => Some(State::Plain),
        (State::Escape, b'x') => Some(State::FirstDigit),
        (State::FirstDigit, _) if is_digit(b) => Some(State::LastDigit),
        (State::LastDigit, _) if is_digit(b) => Some(State::Plain),
        _ => None,
    }
}

// Why a byte may not stand there.
fn byte_sentence(state: State, b: u8) -> &'static [u8] {
    match (state, b) {
        (State::Plain, b'\n' | b'\r') => b"the `\"` that ends this text is missing on its line",
        (State::Plain, _) => {
            b"this text has a byte that is written \\t (a tab) or \\x and two digits"
        }
        _ => b"behind \\ this text has none of \" \\ n r t, and no x with two digits of 0-9 a-f",
    }
}

// Why a text of so many bytes is none, though it ends.
fn whole_sentence(count: usize) -> &'static [u8] {
    if count > MAX_TEXT {
        b"a text has at most 120 bytes"
    } else {
        b"this text has \\x for a byte that is written as itself or as one of \\t \\n \\r \\\" \\\\"
    }
}

/// Why no text begins with a quote, by the bytes behind it.
pub fn text_sentence(behind: &[u8]) -> &'static [u8] {
    let mut state = State::Plain;
    let mut count = 0usize;
    for b in behind {
        if state == State::Plain && *b == b'"' {
            return whole_sentence(count);
        }
        let Some(next) = next_state(state, *b) else {
            return byte_sentence(state, *b);
        };
        if next == State::Plain {
            count = count.saturating_add(1);
        }
        state = next;
    }
    b"the `\"` that ends this text is missing"
}
