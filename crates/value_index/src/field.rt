//! The fields that an index knows, and the values of messages there.
ghost use Rattle.std.specs.Prelude.{◌≡◌, ◌+◌, ◌*◌, ◌%◌, ◌<◌, pos};
ghost use Rattle.value_index.specs.Values.{text_value, value_at};

use join_base::{Message, ValueRef};

/// A field of the messages of a kind, of integers or, with `words`, of texts.
#[derive(Clone, Copy, PartialEq, Eq, Debug)]
pub struct IndexedField {
    pub kind: u32,
    pub field: u32,
    pub words: bool,
}

// One byte more.
#[inline]
fn with_byte(value: u64, byte: u8) -> u64
    requires { value < 4294967291 }
    ensures next { result ≡ (value * 257 + byte) % 4294967291 }
    ensures small { result < 4294967291 }
{
    (value * 257 + byte as u64) % 4294967291
}

fn text_value(bytes: &[u8]) -> i64
    ensures { result ≡ pos (text_value bytes.now) }
{
    let mut value = 0;
    for byte in bytes {
        value = with_byte(value, *byte);
    }
    value as i64
}

/// The value by which a recorded message is looked up at the field.
pub fn value_at(messages: &[Message], number: u32, indexed: IndexedField) -> i64
    ensures { result ≡ value_at messages.now number indexed }
{
    let Some(place) = number.checked_sub(1) else {
        return 0;
    };
    let Some(message) = messages.get(place as usize) else {
        return 0;
    };
    match message.fields.get(indexed.field as usize) {
        Some(ValueRef::Int(n)) => { if indexed.words { 0 } else { n } }
        Some(ValueRef::Words(text)) => {
            if indexed.words {
                text_value(text.bytes())
            } else {
                0
            }
        }
        None => 0,
    }
}
