ghost use Rattle.std.specs.Prelude.{◌≡◌, ◌<◌, length, IfOk};

use crate::made::{message, worded};
use join_base::{Items, Message, MessageList, NoMemory};
use std::alloc::Global;
use std::test::Fail;
use value_index::{IndexedField, Span, ValueIndex, ValueRange, value_at};

// The integers of the first kind.
fn integers() -> IndexedField {
    IndexedField {
        kind: 0,
        field: 0,
        words: false,
    }
}

// The texts of the first kind.
fn texts() -> IndexedField {
    IndexedField {
        kind: 0,
        field: 1,
        words: true,
    }
}

// Two texts begin alike, and the third message is of another kind.
fn messages(alloc: Global) -> Result<MessageList, Fail>
    ensures { IfOk result (λ ls. length ls ≡ 5) }
{
    let mut messages = Items::new(alloc);
    messages.push(worded(alloc, 0, 5, b"hall")?)?;
    messages.push(worded(alloc, 0, 5, b"hallway")?)?;
    messages.push(worded(alloc, 1, 5, b"hall")?)?;
    messages.push(worded(alloc, 0, -3, b"hall")?)?;
    messages.push(worded(alloc, 0, 5, b"hall")?)?;
    Ok(messages)
}

// An index of the messages by these fields.
fn indexed(alloc: Global, messages: &[Message]) -> Result<ValueIndex, NoMemory>
    requires { length messages.now < 100 }
{
    let mut index = ValueIndex::new(alloc);
    index.add_field(integers())?;
    index.add_field(texts())?;
    for place in 0..messages.len() as u32 {
        index.insert(messages, place + 1)?;
    }
    Ok(index)
}

// Whether these numbers are left.
fn are_left(left: &mut ValueRange<'_>, numbers: &[u32]) -> bool {
    for number in numbers {
        if left.next() != Some(*number) {
            return false;
        }
    }
    left.next().is_none()
}

// Whether these are the numbers from one on whose messages have the value of this one at the field.
fn finds(
    index: &ValueIndex,
    messages: &[Message],
    field: IndexedField,
    like: u32,
    from: u32,
    numbers: &[u32],
) -> bool {
    let Some(place) = index.place_of(field) else {
        return false;
    };
    let mut left = index.numbers_from(place, value_at(messages, like, field), from);
    are_left(&mut left, numbers)
}

// Whether each value has its numbers.
fn finds_all(index: &ValueIndex, messages: &[Message]) -> bool {
    finds(index, messages, integers(), 1, 1, &[1, 2, 5])
        && finds(index, messages, integers(), 1, 2, &[2, 5])
        && finds(index, messages, integers(), 4, 1, &[4])
        && finds(index, messages, texts(), 1, 1, &[1, 4, 5])
        && finds(index, messages, texts(), 2, 1, &[2])
}

// Whether the first number has left both values.
fn finds_others(index: &ValueIndex, messages: &[Message]) -> bool {
    finds(index, messages, integers(), 1, 1, &[2, 5])
        && finds(index, messages, texts(), 1, 1, &[4, 5])
}

#[test]
fn numbers_are_found_by_their_values(rt: HostRuntime) -> Result<(), Fail> {
    let messages = messages(rt.alloc())?;
    let shown = messages.as_slice();
    let mut index = indexed(rt.alloc(), shown)?;
    let all = finds_all(&index, shown);
    index.remove(shown, 1);
    assert!(rt; all && finds_others(&index, shown));
    Ok(())
}

// The numbers whose integers are between two values, where they are found.
fn between(index: &ValueIndex, low: i64, high: Option<i64>) -> Option<ValueRange<'_>> {
    let place = index.place_of(integers())?;
    index.numbers_between(Span { place, low, high })
}

// Whether just these numbers are found between two values.
fn lie_between(index: &ValueIndex, low: i64, high: Option<i64>, numbers: &[u32]) -> bool {
    match between(index, low, high) {
        None => false,
        Some(mut left) => are_left(&mut left, numbers),
    }
}

// Whether the values of the five messages have their numbers. In the order of all of them the numbers do not ascend.
fn ranges_are_found(index: &ValueIndex) -> bool {
    lie_between(index, 5, None, &[1, 2, 5])
        && lie_between(index, 5, Some(5), &[1, 2, 5])
        && lie_between(index, 6, Some(i64::MAX), &[])
        && lie_between(index, i64::MIN, Some(-3), &[4])
        && lie_between(index, i64::MAX, Some(i64::MIN), &[])
        && between(index, -3, None).is_none()
        && between(index, i64::MIN, Some(i64::MAX)).is_none()
}

#[test]
fn numbers_between_two_values_are_found(rt: HostRuntime) -> Result<(), Fail> {
    let messages = messages(rt.alloc())?;
    let index = indexed(rt.alloc(), messages.as_slice())?;
    assert!(rt; ranges_are_found(&index));
    Ok(())
}

// So many messages, each with a value that is 1 more than that before it.
fn rising(alloc: Global, count: u32) -> Result<MessageList, NoMemory>
    ensures { IfOk result (λ ls. length ls ≡ count) }
{
    let mut messages = Items::new(alloc);
    for value in 0..count {
        messages.push(message(alloc, 0, value as i64)?)?;
    }
    Ok(messages)
}

// Whether numbers are found between two values of so many messages.
fn finds_some(alloc: Global, count: u32, low: i64, high: Option<i64>) -> Result<bool, NoMemory>
    requires { count < 100 }
{
    let messages = rising(alloc, count)?;
    let index = indexed(alloc, messages.as_slice())?;
    Ok(between(&index, low, high).is_some())
}

#[test]
fn at_most_32_numbers_are_found_between_two_values(rt: HostRuntime) -> Result<(), Fail> {
    let alloc = rt.alloc();
    let right = finds_some(alloc, 32, 0, None)?
        && !finds_some(alloc, 33, 0, None)?
        && finds_some(alloc, 40, 4, Some(35))?
        && !finds_some(alloc, 40, 4, Some(36))?;
    assert!(rt; right);
    Ok(())
}
