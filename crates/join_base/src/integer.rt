//! Integers, written and read.
ghost use Rattle.std.specs.Prelude.{◌≡◌, ◌++◌, ◌≤◌, ◌+◌, ◌*◌, ◌^◌, min, OnOk, OnErr, length, true};
ghost use Rattle.std.specs.Fmt.{signed_decimal};
ghost use Rattle.std.specs.List.{list_all};
ghost use Rattle.std.specs.Char.{is_ascii_digit};
ghost use Rattle.join_base.specs.Integer.{are_digits, value_of, natural_of, integer_of};

use crate::items::NoMemory;
use crate::text::Bytes;
use itoa::Buffer;

/// Appends the decimal form of a number. Without memory the bytes are as they were.
pub fn write_number(out: &mut Bytes, value: i128) -> Result<(), NoMemory>
    ensures ok { OnOk result (out.new ≡ out.old ++ signed_decimal value) }
    ensures err { OnErr result (out.new ≡ out.old) }
{
    let mut buffer = Buffer::new();
    out.push_all(buffer.format(value).as_bytes())
}

fn all_digits(text: &[u8]) -> bool
    ensures { result ≡ list_all is_ascii_digit text.now }
{
    text.iter().all(|byte| byte.is_ascii_digit())
}

fn are_digits(text: &[u8]) -> bool
    ensures { result ≡ are_digits text.now }
{
    !text.is_empty() && all_digits(text)
}

// A digit more, up to one past the greatest that is wanted. 64 bits hold each step.
fn with_digit(value: u64, digit: u8, max: u64) -> u64
    requires small { max ≤ 2 ^ 63 }
    requires digit { digit ≤ 9 }
    ensures { result ≡ min (value * 10 + digit) (max + 1) }
{
    if value > max / 10 {
        max + 1
    } else {
        (value * 10 + u64::from(digit)).min(max + 1)
    }
}

// The number that digits stand for, or one past the greatest that is wanted.
fn value_up_to(digits: &[u8], max: u64) -> u64
    requires digits { are_digits digits.now ≡ true }
    requires small { max ≤ 2 ^ 63 }
    ensures { result ≡ min (value_of digits.now) (max + 1) }
{
    let mut value: u64 = 0;
    for digit in digits {
        value = with_digit(value, *digit - b'0', max);
    }
    value
}

// The number that one or more digits stand for, where it is at most `max`.
fn natural_of(text: &[u8], max: u64) -> Option<u64>
    requires small { max ≤ 2 ^ 63 }
    ensures { result ≡ natural_of max text.now }
{
    if !are_digits(text) {
        return None;
    }
    let value = value_up_to(text, max);
    if value <= max { Some(value) } else { None }
}

/// The integer that an optional `-` and one or more digits stand for. `None` exactly where the bytes are none of
/// these, or the value has more than 64 bits.
pub fn read_integer(bytes: &[u8]) -> Option<i64>
    ensures { result ≡ integer_of bytes.now }
{
    match bytes {
        [b'-', digits @ ..] => {
            let size = natural_of(digits, 1 << 63)?;
            Some((-i128::from(size)) as i64)
        }
        _ => {
            let size = natural_of(bytes, (1 << 63) - 1)?;
            Some(size as i64)
        }
    }
}
