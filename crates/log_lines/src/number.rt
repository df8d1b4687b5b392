//! Numbers of a line.
ghost use Rattle.std.specs.Prelude.{◌≡◌, ◌+◌, ◌*◌, ◌^◌, ◌<◌, ◌≤◌, min, true, slice_index, IfSome};
ghost use Rattle.std.specs.List.{list_all};
ghost use Rattle.std.specs.Char.{is_ascii_digit};
ghost use Rattle.join_base.specs.Integer.{are_digits, value_of, natural_of};
ghost use Rattle.log_lines.specs.Numbers.{count_of, first_digit, int_of, is_plain, number_of};

use join_base::{byte_at, read_integer};

fn all_digits(text: &[u8]) -> bool
    ensures { result ≡ list_all is_ascii_digit text.now }
{
    text.iter().all(|byte| byte.is_ascii_digit())
}

fn are_digits(text: &[u8]) -> bool
    ensures { result ≡ are_digits text.now }
{
    !text.is_empty() && all_digits(text)
}

// The number that digits stand for, or one past the greatest that is wanted.
fn value_up_to(digits: &[u8], max: u64) -> u128
    requires digits { are_digits digits.now ≡ true }
    ensures { result ≡ min (value_of digits.now) (max + 1) }
{
    let past = u128::from(max) + 1;
    let mut value: u128 = 0;
    for digit in digits {
        value = (value * 10 + u128::from(*digit - b'0')).min(past);
    }
    value
}

// The number that one or more digits stand for, where it is at most `max`.
fn natural_of(text: &[u8], max: u64) -> Option<u64>
    ensures value { result ≡ natural_of max text.now }
    ensures small { IfSome result (λ n. n ≤ max) }
{
    if !are_digits(text) {
        return None;
    }
    let value = value_up_to(text, max);
    if value <= u128::from(max) {
        Some(value as u64)
    } else {
        None
    }
}

fn first_digit(text: &[u8]) -> u8
    ensures { result ≡ first_digit text.now }
{
    if byte_at(text, 0) == b'-' {
        byte_at(text, 1)
    } else {
        byte_at(text, 0)
    }
}

fn is_plain(text: &[u8]) -> bool
    ensures { result ≡ is_plain text.now }
{
    first_digit(text) != b'0' || text.len() == 1
}

/// The number that the text is, of at most `max`: decimal, without leading zeros.
#[tactic(auto, unfolding(crate::specs::Numbers::number_of))]
pub(crate) fn number_of(text: &[u8], max: u64) -> Option<u64>
    ensures value { result ≡ number_of max text.now }
    ensures small { IfSome result (λ n. n ≤ max) }
{
    if is_plain(text) {
        natural_of(text, max)
    } else {
        None
    }
}

/// The same of a number from 1 on.
#[tactic(auto, unfolding(crate::specs::Numbers::count_of))]
pub(crate) fn count_of(text: &[u8], max: u64) -> Option<u64>
    ensures value { result ≡ count_of max text.now }
    ensures small { IfSome result (λ n. n ≤ max) }
{
    if byte_at(text, 0) != b'0' {
        natural_of(text, max)
    } else {
        None
    }
}

/// The integer that the text is, of 64 bits: without leading zeros, and never `-0`.
#[tactic(auto, unfolding(crate::specs::Numbers::int_of))]
pub(crate) fn int_of(text: &[u8]) -> Option<i64>
    ensures { result ≡ int_of text.now }
{
    if is_plain(text) {
        read_integer(text)
    } else {
        None
    }
}
