//! Lists of numbers.
ghost use Rattle.std.specs.Prelude.{◌≡◌, ◌-◌, ◌^◌, ◌<◌, ◌≤◌, ◌∷◌, ◌==◌, length, Some};
ghost use Rattle.std.specs.List.{slice_split};
ghost use Rattle.std.specs.Str.{bytes_eq};
ghost use Rattle.log_lines.specs.Gives.{Gives};
ghost use Rattle.log_lines.specs.Numbers.{number_of};
ghost use Rattle.log_lines.specs.Messages.{numbers_of};
ghost use Rattle.log_lines.specs.Lines.{left_of};

use crate::fault::LineFault;
use crate::number::number_of;
use crate::parts::cut;
use join_base::{Items, Numbers};
use std::alloc::Global;

// The number that a part is.
fn arrival_number(part: &[u8]) -> Option<u32>
    ensures { result ≡ number_of (2 ^ 32 - 1) part.now }
{
    let number = number_of(part, u64::from(u32::MAX))?;
    Some(number as u32)
}

/// One or more numbers with commas between them.
#[tactic(auto, unfolding(crate::specs::Messages::numbers_of))]
pub(crate) fn numbers_of(alloc: Global, text: &[u8]) -> Result<Items<u32>, LineFault>
    ensures { Gives result (numbers_of text.now) }
{
    let mut numbers = Items::new(alloc);
    let mut rest = text;
    'parts: while let Some((part, more)) = cut(rest, b',') {
        let Some(number) = arrival_number(part) else {
            return Err(LineFault::NoLine);
        };
        numbers.push(number)?;
        rest = more;
    }
    let Some(number) = arrival_number(rest) else {
        return Err(LineFault::NoLine);
    };
    numbers.push(number)?;
    Ok(numbers)
}

/// The numbers, which are at most 8.
pub(crate) fn taken_of(numbers: &[u32]) -> Numbers
    requires few { length numbers.now ≤ 8 }
    ensures { result ≡ numbers.now }
{
    let mut taken = Numbers::new();
    for number in numbers {
        taken.push(*number);
    }
    taken
}

/// Numbers with commas between them, or `-` for none.
#[tactic(auto, unfolding(crate::specs::Lines::left_of))]
pub(crate) fn left_of(alloc: Global, text: &[u8]) -> Result<Items<u32>, LineFault>
    ensures { Gives result (left_of text.now) }
{
    if is(text, b"-") {
        Ok(Items::new(alloc))
    } else {
        numbers_of(alloc, text)
    }
}

/// Whether the text is this word.
pub(crate) fn is(text: &[u8], word: &[u8]) -> bool
    ensures { result ≡ bytes_eq text.now word.now }
{
    text == word
}
