ghost use Rattle.std.specs.Prelude.{◌<◌, length};

use join_base::{Fields, Message, NoMemory, PushFault, Stamped, Text, Value, ValueRef};
use std::alloc::Global;
use std::test::Fail;

// Whether a ninth value is given back.
fn is_given_back(fields: &mut Fields) -> bool {
    match fields.push(Value::Int(8)) {
        Err(PushFault::Full(Value::Int(back))) => back == 8,
        _ => false,
    }
}

fn are_at_most_eight(alloc: Global) -> Result<bool, NoMemory> {
    let mut fields = Fields::with_room(alloc, 9, false)?;
    for value in 0..8 {
        if fields.push(Value::Int(value)).is_err() {
            return Ok(false);
        }
    }
    let full = is_given_back(&mut fields);
    let copy = Message { kind: 3, fields }.copy(alloc)?;
    Ok(full && copy.kind == 3 && copy.fields.len() == 8)
}

#[test]
fn messages_have_at_most_eight_values(rt: HostRuntime) -> Result<(), Fail> {
    assert!(rt; are_at_most_eight(rt.alloc())?);
    Ok(())
}

// Whether the first values are these integers.
fn begins_with(fields: &Fields, ints: &[i64]) -> bool {
    for (place, n) in ints.iter().enumerate() {
        match fields.get(place) {
            Some(ValueRef::Int(found)) => {
                if found != *n {
                    return false;
                }
            }
            _ => return false,
        }
    }
    true
}

// Whether the values, and those of a copy, are these integers.
fn are_ints(alloc: Global, fields: &Fields, ints: &[i64]) -> bool {
    let count = ints.len();
    if !begins_with(fields, ints) || fields.len() != count || fields.get(count).is_some() {
        return false;
    }
    match fields.copy(alloc) {
        Ok(copy) => begins_with(&copy, ints) && copy.len() == count && copy.get(count).is_none(),
        Err(_) => false,
    }
}

fn ints_grow(alloc: Global, ints: &[i64]) -> bool {
    let mut fields = Fields::new(alloc);
    for count in 0..ints.len() {
        let right = are_ints(alloc, &fields, &ints[..count]);
        if fields.push(Value::Int(ints[count])).is_err() || !right {
            return false;
        }
    }
    are_ints(alloc, &fields, ints)
}

#[test]
fn integers_grow_and_are_copied_in_place_and_in_a_list(rt: HostRuntime) {
    assert!(rt; ints_grow(rt.alloc(), &[4, -5, 6, 7, -8]));
}

// Whether the value at a place is this text.
fn is_text_at(fields: &Fields, place: usize, text: &[u8]) -> bool {
    match fields.get(place) {
        Some(ValueRef::Words(found)) => found.bytes() == text,
        _ => false,
    }
}

// Integers, two texts and a 9, and a copy of them.
fn values_behind(alloc: Global, ints: &[i64]) -> Option<Fields> {
    let mut fields = Fields::new(alloc);
    for n in ints {
        fields.push(Value::Int(*n)).ok()?;
    }
    for text in [b"ab", b"cd"] {
        let words = Text::from_bytes(alloc, text).ok()?;
        fields.push(Value::Words(words)).ok()?;
    }
    fields.push(Value::Int(9)).ok()?;
    fields.copy(alloc).ok()
}

fn are_in_order(alloc: Global, ints: &[i64]) -> bool
    requires { length ints.now < 8 }
{
    let count = ints.len();
    match values_behind(alloc, ints) {
        Some(fields) => {
            fields.len() == count + 3
                && begins_with(&fields, ints)
                && is_text_at(&fields, count, b"ab")
                && is_text_at(&fields, count + 1, b"cd")
                && matches!(fields.get(count + 2), Some(ValueRef::Int(9)))
        }
        None => false,
    }
}

#[test]
fn texts_and_integers_stand_in_their_order(rt: HostRuntime) {
    let alloc = rt.alloc();
    let all = are_in_order(alloc, &[])
        && are_in_order(alloc, &[4])
        && are_in_order(alloc, &[4, -5])
        && are_in_order(alloc, &[4, -5, 6])
        && are_in_order(alloc, &[4, -5, 6, 7]);
    assert!(rt; all);
}

fn is_stamp_kept(alloc: Global) -> Result<bool, NoMemory> {
    let message = Message {
        kind: 2,
        fields: Fields::new(alloc),
    };
    let stamped = Stamped {
        message,
        stamp: Stamped::GREATEST,
    };
    let copy = stamped.copy(alloc)?;
    Ok(copy.message.kind == 2 && copy.stamp == 4294967295)
}

#[test]
fn a_copy_of_a_stamped_message_has_its_stamp(rt: HostRuntime) -> Result<(), Fail> {
    assert!(rt; is_stamp_kept(rt.alloc())?);
    Ok(())
}
