//! Values of messages, and texts.
ghost use Rattle.std.specs.Prelude.{ℕ, List, ◌≡◌, ◌∷◌, [], ◌++◌, ◌<◌, ◌≤◌, ◌==◌, length, map, OnOk, OnErr, Err, IfSome, Some, slice_index};
ghost use Rattle.std.specs.Str.{bytes_eq};
ghost use Rattle.join_base.specs.Quoted.{quoted};
ghost use Rattle.join_base.specs.Text.{is_text};
ghost use Rattle.join_base.specs.declared.message.Sort.{Sort};
ghost use Rattle.log_lines.specs.Gives.{Gives, GivesValue, GivesRest, where_true};
ghost use Rattle.log_lines.specs.Quoting.{quoted_at};
ghost use Rattle.log_lines.specs.Messages.{closed_int, closed_value, closed_words, closing, fields_of, opened, value_of, values_at, words_of};

use crate::fault::LineFault;
use crate::number::int_of;
use crate::parts::{after, cut};
use arrival_log::needs_no_escape;
use join_base::{
    BoundedText, Fields, Line, Name, PushFault, QuoteFault, Sort, Text, TextFault, Value, byte_at,
    read_quoted, read_quoted_text,
};
use std::alloc::Global;

// The text in front whose quoted form has nothing but the text between the quotes, and what stands behind that form.
fn plain_at(bytes: &[u8]) -> Option<(&[u8], &[u8])>
    ensures quoted { IfSome result (λ p. bytes.now ≡ quoted p.0.now ++ p.1.now) }
{
    let rest = after(bytes, b"\"")?;
    let (text, more) = cut(rest, b'"')?;
    if needs_no_escape(text) {
        Some((text, more))
    } else {
        None
    }
}

// The text of these bytes, where they are one.
fn bounded<const MAX: usize, const PLACE: usize>(
    alloc: Global,
    bytes: &[u8],
) -> Result<BoundedText<MAX, PLACE>, LineFault>
    ensures { Gives result (where_true (is_text MAX bytes.now) (Some bytes.now)) }
{
    match BoundedText::from_bytes(alloc, bytes) {
        Ok(text) => Ok(text),
        Err(TextFault::NotText) => Err(LineFault::NoLine),
        Err(TextFault::TooLong) => Err(LineFault::NoLine),
        Err(TextFault::NoMemory) => Err(LineFault::NoMemory),
    }
}

// The text of a value whose quoted form stands in front, and what stands behind it. Where its bytes stand for
// themselves, they are copied at once.
fn text_at(alloc: Global, text: &[u8]) -> Result<(Text, &[u8]), LineFault>
    ensures { GivesValue result (quoted_at 120 text.now) }
{
    if let Some((plain, rest)) = plain_at(text) {
        let words = bounded(alloc, plain)?;
        return Ok((words, rest));
    }
    match read_quoted_text(alloc, text, 0) {
        Ok((words, end)) => Ok((words, text.split_at(end).1)),
        Err(QuoteFault::BadQuote) => Err(LineFault::NoLine),
        Err(QuoteFault::NoMemory) => Err(LineFault::NoMemory),
    }
}

// The same of a printed text.
fn printed_at(alloc: Global, text: &[u8]) -> Result<(Line, &[u8]), LineFault>
    ensures { GivesValue result (quoted_at 1920 text.now) }
{
    if let Some((plain, rest)) = plain_at(text) {
        let words = bounded(alloc, plain)?;
        return Ok((words, rest));
    }
    match read_quoted(alloc, text, 0, 1920) {
        Ok((words, end)) => Ok((words, text.split_at(end).1)),
        Err(QuoteFault::BadQuote) => Err(LineFault::NoLine),
        Err(QuoteFault::NoMemory) => Err(LineFault::NoMemory),
    }
}

/// The printed text that all of the bytes are.
#[tactic(auto, unfolding(crate::specs::Messages::words_of))]
pub(crate) fn printed_of(alloc: Global, text: &[u8]) -> Result<Line, LineFault>
    ensures { Gives result (words_of 1920 text.now) }
{
    let (words, rest) = printed_at(alloc, text)?;
    if rest.is_empty() {
        Ok(words)
    } else {
        Err(LineFault::NoLine)
    }
}

#[tactic(auto, unfolding(crate::specs::Messages::words_of))]
fn text_of(alloc: Global, text: &[u8]) -> Result<Text, LineFault>
    ensures { Gives result (words_of 120 text.now) }
{
    let (words, rest) = text_at(alloc, text)?;
    if rest.is_empty() {
        Ok(words)
    } else {
        Err(LineFault::NoLine)
    }
}

/// The value that all of the bytes are.
#[tactic(auto, unfolding(crate::specs::Messages::value_of))]
pub(crate) fn value_of(alloc: Global, text: &[u8]) -> Result<Value, LineFault>
    ensures { Gives result (value_of text.now) }
{
    if byte_at(text, 0) == b'"' {
        let words = text_of(alloc, text)?;
        return Ok(Value::Words(words));
    }
    match int_of(text) {
        Some(number) => Ok(Value::Int(number)),
        None => Err(LineFault::NoLine),
    }
}

#[tactic(auto, unfolding(crate::specs::Messages::closed_int))]
fn closed_int(text: &[u8], close: u8) -> Result<(Value, &[u8]), LineFault>
    ensures { GivesValue result (closed_int close text.now) }
{
    let Some((number, rest)) = cut(text, close) else {
        return Err(LineFault::NoLine);
    };
    match int_of(number) {
        Some(number) => Ok((Value::Int(number), rest)),
        None => Err(LineFault::NoLine),
    }
}

#[tactic(auto, unfolding(crate::specs::Messages::closed_words))]
fn closed_words(alloc: Global, text: &[u8], close: u8) -> Result<(Value, &[u8]), LineFault>
    ensures { GivesValue result (closed_words close text.now) }
{
    let (words, rest) = text_at(alloc, text)?;
    match after(rest, &[close]) {
        Some(rest) => Ok((Value::Words(words), rest)),
        None => Err(LineFault::NoLine),
    }
}

// The value of this type in front of the mark, and what stands behind that.
fn closed_value(
    alloc: Global,
    sort: Sort,
    text: &[u8],
    close: u8,
) -> Result<(Value, &[u8]), LineFault>
    ensures { GivesValue result (closed_value sort close text.now) }
{
    match sort {
        Sort::Int => closed_int(text, close),
        Sort::Words => closed_words(alloc, text, close),
    }
}

// Appends a value for which there is room.
fn append(values: &mut Fields, value: Value) -> Result<(), LineFault>
    requires { length values.old < 8 }
    ensures ok { OnOk result (values.new ≡ values.old ++ value ∷ []) }
    ensures err { OnErr result (result ≡ Err LineFault.NoMemory) }
{
    match values.push(value) {
        Ok(()) => Ok(()),
        Err(PushFault::NoMemory(_)) => Err(LineFault::NoMemory),
        Err(PushFault::Full(_)) => unreachable!(),
    }
}

// The mark behind a value with these fields behind it: `)` behind the last, and a comma behind each other one.
fn closing(behind: &[(Name, Sort)]) -> u8
    ensures { result ≡ closing (map (λ (field : List ℕ × Sort). field.1) behind.now) }
{
    if behind.is_empty() { b')' } else { b',' }
}

// A value for each field in turn, and what stands behind them.
fn values_at<'a>(
    alloc: Global,
    fields: &[(Name, Sort)],
    text: &'a [u8],
) -> Result<(Fields, &'a [u8]), LineFault>
    requires few { length fields.now ≤ 8 }
    ensures { GivesValue result (values_at (map (λ (field : List ℕ × Sort). field.1) fields.now) text.now) }
{
    let has_texts = fields.iter().any(|(_, sort)| *sort == Sort::Words);
    let Ok(mut values) = Fields::with_room(alloc, fields.len(), has_texts) else {
        return Err(LineFault::NoMemory);
    };
    let mut rest = text;
    for (place, (_, sort)) in fields.iter().enumerate() {
        let close = closing(fields.split_at(place + 1).1);
        let (value, more) = closed_value(alloc, *sort, rest, close)?;
        append(&mut values, value)?;
        rest = more;
    }
    Ok((values, rest))
}

// Without a value the `)` stands alone.
fn opened<'a>(fields: &[(Name, Sort)], text: &'a [u8]) -> Option<&'a [u8]>
    ensures { GivesRest result (opened (map (λ (field : List ℕ × Sort). field.1) fields.now) text.now) }
{
    if fields.is_empty() {
        after(text, b")")
    } else {
        Some(text)
    }
}

/// All of the text is a value for each field, with commas between them and `)` behind them.
#[tactic(auto, unfolding(crate::specs::Messages::fields_of))]
pub(crate) fn fields_of(
    alloc: Global,
    fields: &[(Name, Sort)],
    text: &[u8],
) -> Result<Fields, LineFault>
    requires few { length fields.now ≤ 8 }
    ensures { Gives result (fields_of (map (λ (field : List ℕ × Sort). field.1) fields.now) text.now) }
{
    let Some(text) = opened(fields, text) else {
        return Err(LineFault::NoLine);
    };
    let (values, rest) = values_at(alloc, fields, text)?;
    if rest.is_empty() {
        Ok(values)
    } else {
        Err(LineFault::NoLine)
    }
}
