//! What is kept of posts: heads, and the marks, integers and bytes of their values.
ghost use Rattle.std.specs.Prelude.{◌≡◌, ◌∷◌, [], ◌++◌, length, take, IfOk, OnOk, OnErr};
ghost use Rattle.std.specs.List.{AllByRecursion};
ghost use Rattle.join_base.specs.Fields.{value_seen};
ghost use Rattle.feed_store.specs.Kept.{HasText, integers_of, mark_of, marks_of, part_integers, part_words, words_of};

use join_base::{Fields, NoMemory, ValueRef};

/// What is kept of a post beside its values.
#[derive(Clone, Copy)]
pub(crate) struct Head {
    pub(crate) target: u32,
    pub(crate) kind: u32,
    /// How many values the message has.
    pub(crate) count: u8,
}

/// What is kept of a value beside its integer or its bytes.
#[derive(Clone, Copy)]
pub(crate) enum Mark {
    Integer,
    /// A text of so many bytes.
    Words(u8),
}

const _: () = prove!(size_of::<Head>() == 12);

const _: () = prove!(size_of::<Mark>() == 2);

/// The values of posts, one behind the other.
#[derive(Drop)]
pub(crate) struct Stock {
    pub(crate) marks: Vec<Mark>,
    pub(crate) integers: Vec<i64>,
    pub(crate) words: Vec<u8>,
}

/// How many items a list has.
#[inline]
pub(crate) fn count<T>(list: &Vec<T>) -> usize
    ensures { result ≡ length list.now.items }
{
    list.len()
}

// Appends an integer or the bytes of a text, and gives their mark. Without memory nothing changes.
#[inline]
fn push_part(
    integers: &mut Vec<i64>,
    words: &mut Vec<u8>,
    value: ValueRef<'_>,
) -> Result<Mark, NoMemory>
    ensures mark { IfOk result (λ mark. mark ≡ mark_of (value_seen value.entry)) }
    ensures text { OnOk result (HasText (value_seen value.entry)) }
    ensures integers { OnOk result (integers.new.items ≡ integers.old.items ++ part_integers (value_seen value.entry)) }
    ensures words { OnOk result (words.new.items ≡ words.old.items ++ part_words (value_seen value.entry)) }
    ensures same_integers { OnErr result (integers.new.items ≡ integers.old.items) }
    ensures same_words { OnErr result (words.new.items ≡ words.old.items) }
{
    match value {
        ValueRef::Int(n) => {
            integers.push(n)?;
            Ok(Mark::Integer)
        }
        ValueRef::Words(text) => {
            let bytes = text.bytes();
            words.extend_from_slice(bytes)?;
            Ok(Mark::Words(bytes.len() as u8))
        }
    }
}

// Appends a value. Without memory nothing changes.
#[inline]
fn push_value(stock: &mut Stock, value: ValueRef<'_>) -> Result<(), NoMemory>
    ensures marks { OnOk result (stock.new.marks.items ≡ stock.old.marks.items ++ mark_of (value_seen value.entry) ∷ []) }
    ensures integers { OnOk result (stock.new.integers.items ≡ stock.old.integers.items ++ part_integers (value_seen value.entry)) }
    ensures words { OnOk result (stock.new.words.items ≡ stock.old.words.items ++ part_words (value_seen value.entry)) }
    ensures text { OnOk result (HasText (value_seen value.entry)) }
    ensures same_marks { OnErr result (stock.new.marks.items ≡ stock.old.marks.items) }
    ensures same_integers { OnErr result (stock.new.integers.items ≡ stock.old.integers.items) }
    ensures same_words { OnErr result (stock.new.words.items ≡ stock.old.words.items) }
{
    stock.marks.reserve(1)?;
    let mark = push_part(&mut stock.integers, &mut stock.words, value)?;
    stock.marks.push_reserved(mark);
    Ok(())
}

// Appends values, as far as there is memory.
fn push_some(stock: &mut Stock, fields: &Fields) -> Result<(), NoMemory>
    ensures marks { OnOk result (stock.new.marks.items ≡ stock.old.marks.items ++ marks_of fields.now) }
    ensures integers { OnOk result (stock.new.integers.items ≡ stock.old.integers.items ++ integers_of fields.now) }
    ensures words { OnOk result (stock.new.words.items ≡ stock.old.words.items ++ words_of fields.now) }
    ensures texts { OnOk result (AllByRecursion HasText fields.now) }
    ensures same_marks { take (length stock.old.marks.items) stock.new.marks.items ≡ stock.old.marks.items }
    ensures same_integers { take (length stock.old.integers.items) stock.new.integers.items ≡ stock.old.integers.items }
    ensures same_words { take (length stock.old.words.items) stock.new.words.items ≡ stock.old.words.items }
{
    for place in 0..fields.len() {
        push_value(stock, fields.at(place))?;
    }
    Ok(())
}

/// Appends the values of a message. Without memory nothing changes.
pub(crate) fn push_values(stock: &mut Stock, fields: &Fields) -> Result<(), NoMemory>
    ensures marks { OnOk result (stock.new.marks.items ≡ stock.old.marks.items ++ marks_of fields.now) }
    ensures integers { OnOk result (stock.new.integers.items ≡ stock.old.integers.items ++ integers_of fields.now) }
    ensures words { OnOk result (stock.new.words.items ≡ stock.old.words.items ++ words_of fields.now) }
    ensures texts { OnOk result (AllByRecursion HasText fields.now) }
    ensures same_marks { OnErr result (stock.new.marks.items ≡ stock.old.marks.items) }
    ensures same_integers { OnErr result (stock.new.integers.items ≡ stock.old.integers.items) }
    ensures same_words { OnErr result (stock.new.words.items ≡ stock.old.words.items) }
{
    let marks = count(&stock.marks);
    let integers = count(&stock.integers);
    let words = count(&stock.words);
    match push_some(stock, fields) {
        Ok(()) => Ok(()),
        Err(NoMemory) => {
            stock.marks.truncate(marks);
            stock.integers.truncate(integers);
            stock.words.truncate(words);
            Err(NoMemory)
        }
    }
}
