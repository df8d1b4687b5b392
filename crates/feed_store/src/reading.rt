//! Values of marks, and what stands behind them.
ghost use Rattle.std.specs.Prelude.{◌≡◌, ◌∷◌, [], ◌++◌, ◌<◌, ◌≤◌, length, IfOk, OnOk};
ghost use Rattle.feed_store.specs.Kept.{CanRead, CanReadAll, all_integers_behind, all_words_behind, first_of, integers_behind, rest_of, value_at, values_of, words_behind};

use crate::kept::Mark;
use join_base::{Fields, NoMemory, PushFault, Text, Value};
use std::alloc::Global;

// The first integer.
#[inline]
fn first_of(integers: &[i64]) -> i64
    requires some { 0 < length integers.now }
    ensures { result ≡ first_of integers.now }
{
    match integers.split_first() {
        Some((n, _)) => *n,
        None => unreachable!(),
    }
}

// The others.
#[inline]
fn rest_of(integers: &[i64]) -> &[i64]
    requires some { 0 < length integers.now }
    ensures { result.now ≡ rest_of integers.now }
{
    match integers.split_first() {
        Some((_, rest)) => rest,
        None => unreachable!(),
    }
}

// The value of a mark.
#[inline]
fn value_at(alloc: Global, mark: Mark, integers: &[i64], words: &[u8]) -> Result<Value, NoMemory>
    requires can { CanRead mark integers.now words.now }
    ensures { IfOk result (λ value. value ≡ value_at mark integers.now words.now) }
{
    match mark {
        Mark::Integer => Ok(Value::Int(first_of(integers))),
        Mark::Words(size) => {
            let text = Text::from_text(alloc, words.split_at(size as usize).0)?;
            Ok(Value::Words(text))
        }
    }
}

#[inline]
fn integers_behind<'a>(mark: Mark, integers: &'a [i64], words: &[u8]) -> &'a [i64]
    requires can { CanRead mark integers.now words.now }
    ensures { result.now ≡ integers_behind mark integers.now }
{
    match mark {
        Mark::Integer => rest_of(integers),
        Mark::Words(_) => integers,
    }
}

#[inline]
fn words_behind<'a>(mark: Mark, integers: &[i64], words: &'a [u8]) -> &'a [u8]
    requires can { CanRead mark integers.now words.now }
    ensures { result.now ≡ words_behind mark words.now }
{
    match mark {
        Mark::Integer => words,
        Mark::Words(size) => words.split_at(size as usize).1,
    }
}

// Appends a value for which there is room.
#[inline]
fn append(fields: &mut Fields, value: Value) -> Result<(), NoMemory>
    requires { length fields.old < 8 }
    ensures { OnOk result (fields.new ≡ fields.old ++ value ∷ []) }
{
    match fields.push(value) {
        Ok(()) => Ok(()),
        Err(PushFault::NoMemory(_)) => Err(NoMemory),
        Err(PushFault::Full(_)) => unreachable!(),
    }
}

// Whether some mark is that of a text. No clause rests on the answer.
#[inline]
fn has_words(marks: &[Mark]) -> bool {
    for mark in marks {
        if let Mark::Words(_) = mark {
            return true;
        }
    }
    false
}

/// The values of marks.
pub(crate) fn values_of(
    alloc: Global,
    marks: &[Mark],
    integers: &[i64],
    words: &[u8],
) -> Result<Fields, NoMemory>
    requires can { CanReadAll marks.now integers.now words.now }
    requires few { length marks.now ≤ 8 }
    ensures { IfOk result (λ fields. fields ≡ values_of marks.now integers.now words.now) }
{
    let mut fields = Fields::with_room(alloc, marks.len(), has_words(marks))?;
    let mut numbers = integers;
    let mut bytes = words;
    for place in 0..marks.len() {
        let mark = marks[place];
        let value = value_at(alloc, mark, numbers, bytes)?;
        append(&mut fields, value)?;
        let others = integers_behind(mark, numbers, bytes);
        let rest = words_behind(mark, numbers, bytes);
        numbers = others;
        bytes = rest;
    }
    Ok(fields)
}

/// The integers and the bytes behind the values of marks.
pub(crate) fn all_behind<'a>(
    marks: &[Mark],
    integers: &'a [i64],
    words: &'a [u8],
) -> (&'a [i64], &'a [u8])
    requires can { CanReadAll marks.now integers.now words.now }
    ensures integers { result.0.now ≡ all_integers_behind marks.now integers.now }
    ensures words { result.1.now ≡ all_words_behind marks.now words.now }
{
    let mut numbers = integers;
    let mut bytes = words;
    for place in 0..marks.len() {
        let mark = marks[place];
        let others = integers_behind(mark, numbers, bytes);
        let rest = words_behind(mark, numbers, bytes);
        numbers = others;
        bytes = rest;
    }
    (numbers, bytes)
}
