//! The numbers of a span of values, one after the other.
ghost use Rattle.std.specs.Prelude.{◌≡◌, ◌∷◌, [], ◌≤◌, ℕ, ℤ, MatchOption, Some, true};
ghost use Rattle.pattern_core.specs.Members.{IsIn};
ghost use Rattle.value_index.specs.Columns.{entries_from, valued};
ghost use Rattle.value_index.specs.Entries.{entry};
ghost use Rattle.value_index.specs.Order.{IsFromStart};
ghost use Rattle.value_index.specs.ValueRange.{Ascend, is_up_to, lies_in, numbers_of, one_value};

use crate::column::Column;
use crate::valued::Valued;
use std::collections::BTreeSet;
use std::collections::btree_set::Range;
use std::marker::Model;

/// The most numbers that are found between two values.
pub const MOST: u32 = 32;

/// The values from the least one on, up to the greatest one if there is one, at the field of a place.
#[derive(Clone, Copy, PartialEq, Eq, Debug)]
pub struct Span {
    pub place: u32,
    pub low: i64,
    pub high: Option<i64>,
}

impl Span {
    /// One value alone.
    pub fn of(place: u32, value: i64) -> Span
        ensures { result ≡ one_value place value }
    {
        Span {
            place,
            low: value,
            high: Some(value),
        }
    }
}

// Whether a value is not above the greatest one, if there is one.
fn is_up_to(high: Option<i64>, value: i64) -> bool
    ensures { result ≡ is_up_to high value }
{
    match high {
        None => true,
        Some(high) => value <= high,
    }
}

/// The numbers that have a value of a span, in the order of their values. Contracts see those that are left.
#[derive(Drop)]
pub struct ValueRange<'a> {
    left: Option<Range<'a, Valued>>,
    high: Option<i64>,
}

impl<'a> Model for ValueRange<'a> {
    ghost use Rattle.std.specs.Prelude.{List, ℕ};

    ghost Value = { List ℕ };

    ghost use Rattle.value_index.specs.ValueRange.{numbers_in};

    ghost view = { λ a. numbers_in a.high a.left };
}

// Takes the next number, if its value is not above the greatest one.
fn next_up_to(left: &mut Range<'_, Valued>, high: Option<i64>) -> Option<u32>
    ensures { MatchOption result (numbers_of high left.old ≡ []) (λ number. numbers_of high left.old
        ≡ number ∷ numbers_of high left.new) }
{
    match left.next() {
        None => None,
        Some(one) => {
            if !is_up_to(high, one.value) {
                return None;
            }
            Some(one.number)
        }
    }
}

// The numbers with values from the start on.
fn left_from<'a>(column: &'a Column, low: i64, from: u32) -> Range<'a, Valued>
    ensures { IsFromStart column.now.numbers.keys (valued low from) result }
{
    column.numbers.range(Valued::new(low, from)..)
}

// Whether the numbers that are left ascend, and are at most `MOST`. They are gone through up to the one that tells.
fn walk_up(left: &mut ValueRange<'_>) -> bool
    ensures { result ≡ true → Ascend left.old }
{
    let Some(first) = left.next() else {
        return true;
    };
    let mut last = first;
    for _ in 0..MOST {
        let Some(number) = left.next() else {
            return true;
        };
        if number <= last {
            return false;
        }
        last = number;
    }
    false
}

impl<'a> ValueRange<'a> {
    /// Those of the span's values. Of its least one only those from this number on.
    pub(crate) fn from_start(columns: &'a [Column], span: Span, from: u32) -> ValueRange<'a>
        ensures ascend { span.high ≡ Some span.low → Ascend result }
        ensures has { (value : ℤ) (number : ℕ) → from ≤ number → lies_in span value ≡ true
            → IsIn (entry span.place value number) (entries_from 0 columns.now) → IsIn number result }
    {
        match columns.get(span.place as usize) {
            None => ValueRange {
                left: None,
                high: span.high,
            },
            Some(column) => ValueRange {
                left: Some(left_from(column, span.low, from)),
                high: span.high,
            },
        }
    }

    /// Whether the numbers that are left ascend, and are at most `MOST`.
    pub(crate) fn ascends(&self) -> bool
        ensures { result ≡ true → Ascend self.now }
    {
        let Some(left) = &self.left else {
            return true;
        };
        match left.clone() {
            Err(_) => false,
            Ok(left) => {
                let mut walked = ValueRange {
                    left: Some(left),
                    high: self.high,
                };
                walk_up(&mut walked)
            }
        }
    }

    /// Takes the next number.
    pub fn next(&mut self) -> Option<u32>
        ensures { MatchOption result (self.old ≡ []) (λ number. self.old ≡ number ∷ self.new) }
    {
        match &mut self.left {
            None => None,
            Some(left) => next_up_to(left, self.high),
        }
    }
}
