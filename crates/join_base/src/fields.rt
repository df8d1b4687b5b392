//! The values of a message, in little room.
ghost use Rattle.std.specs.Prelude.{◌≡◌, ◌∷◌, [], ◌++◌, ◌<◌, ◌≤◌, length, map, IfOk, IfErr, IfSome, OnOk, OnErr, slice_get, Some};
ghost use Rattle.join_base.specs.declared.message.Value.TheVariants.{Int};
ghost use Rattle.join_base.specs.Fields.{value_seen, values_in, values_seen};

use crate::items::NoMemory;
use crate::message::Value;
use crate::text::Text;
use std::alloc::Global;
use std::marker::Model;
use std::{mem, slice};

/// A value where it stands.
#[derive(Clone, Copy)]
pub enum ValueRef<'a> {
    Int(i64),
    Words(&'a Text),
}

impl Value {
    /// The value where it stands.
    #[inline]
    pub fn seen(&self) -> ValueRef<'_>
        ensures same { value_seen result ≡ self.now }
    {
        match self {
            Value::Int(n) => ValueRef::Int(*n),
            Value::Words(text) => ValueRef::Words(text),
        }
    }
}

/// Why a value was not appended. It is handed back.
#[derive(Drop)]
pub enum PushFault {
    /// There are 8 values already.
    Full(Value),
    NoMemory(Value),
}

// The values of a message.
#[derive(Drop)]
enum Values {
    Empty,
    // Integers in place.
    One(i64),
    Two([i64; 2]),
    Three([i64; 3]),
    // Integers in a list, which may have fewer than four and room for more.
    Ints(Vec<i64>),
    // A text in place.
    Words(Text),
    // Any values.
    Mixed(Vec<Value>),
}

const _: () = prove!(size_of::<Values>() == 32);

// The values of a message where they stand.
#[derive(Clone, Copy)]
enum Stand<'a> {
    Ints(&'a [i64]),
    Words(&'a Text),
    Mixed(&'a [Value]),
}

impl Values {
    #[inline]
    fn stand(&self) -> Stand<'_>
        ensures same { values_seen result ≡ values_in self.now }
    {
        match self {
            Values::Empty => Stand::Ints(&[]),
            Values::One(n) => Stand::Ints(slice::from_ref(n)),
            Values::Two(both) => Stand::Ints(both),
            Values::Three(all) => Stand::Ints(all),
            Values::Ints(ints) => Stand::Ints(ints.as_slice()),
            Values::Words(text) => Stand::Words(text),
            Values::Mixed(values) => Stand::Mixed(values.as_slice()),
        }
    }

    #[inline]
    fn len(&self) -> usize
        ensures count { result ≡ length (values_in self.now) }
    {
        match self.stand() {
            Stand::Ints(ints) => ints.len(),
            Stand::Words(_) => 1,
            Stand::Mixed(values) => values.len(),
        }
    }

    // Takes the values out, into a list. Without memory they stay.
    fn take(&mut self, alloc: Global) -> Result<Vec<Value>, NoMemory>
        ensures ok { IfOk result (λ values. values.items ≡ values_in self.old) }
        ensures err { OnErr result (values_in self.new ≡ values_in self.old) }
    {
        match self {
            Values::Mixed(values) => Ok(mem::replace(values, Vec::new(alloc))),
            Values::Words(_) => {
                let mut taken = Vec::with_capacity(alloc, 2)?;
                if let Values::Words(text) = mem::replace(self, Values::Empty) {
                    taken.push_reserved(Value::Words(text));
                }
                Ok(taken)
            }
            Values::Empty => Ok(Vec::new(alloc)),
            Values::One(n) => int_values(alloc, slice::from_ref(n)),
            Values::Two(both) => int_values(alloc, both),
            Values::Three(all) => int_values(alloc, all),
            Values::Ints(ints) => int_values(alloc, ints.as_slice()),
        }
    }

    // Appends a value to a list of any values. Without memory it is handed back, and nothing changes.
    fn push_mixed(&mut self, alloc: Global, value: Value) -> Result<(), Value>
        requires few { length (values_in self.old) < 8 }
        ensures ok { OnOk result (values_in self.new ≡ values_in self.old ++ value ∷ []) }
        ensures err { OnErr result (values_in self.new ≡ values_in self.old) }
        ensures back { IfErr result (λ back. back ≡ value) }
    {
        let Ok(mut values) = self.take(alloc) else {
            return Err(value);
        };
        let pushed = values.push(value);
        *self = Values::Mixed(values);
        match pushed {
            Ok(()) => Ok(()),
            Err(refused) => Err(refused.value),
        }
    }

    // Appends an integer. Without memory it is handed back, and nothing changes.
    #[inline]
    fn push_int(&mut self, alloc: Global, n: i64) -> Result<(), Value>
        requires few { length (values_in self.old) < 8 }
        ensures ok { OnOk result (values_in self.new ≡ values_in self.old ++ Int n ∷ []) }
        ensures err { OnErr result (values_in self.new ≡ values_in self.old) }
        ensures back { IfErr result (λ back. back ≡ Int n) }
    {
        let longer = match self {
            Values::Empty => Values::One(n),
            Values::One(first) => Values::Two(with_second(*first, n)),
            Values::Two(both) => Values::Three(with_third(both, n)),
            Values::Three(all) => match with_fourth(alloc, all, n) {
                Ok(ints) => Values::Ints(ints),
                Err(NoMemory) => return Err(Value::Int(n)),
            },
            Values::Ints(ints) => {
                return match ints.push(n) {
                    Ok(()) => Ok(()),
                    Err(_) => Err(Value::Int(n)),
                };
            }
            Values::Words(_) | Values::Mixed(_) => return self.push_mixed(alloc, Value::Int(n)),
        };
        *self = longer;
        Ok(())
    }

    // Appends a value. Without memory it is handed back, and nothing changes.
    #[inline]
    fn push(&mut self, alloc: Global, value: Value) -> Result<(), Value>
        requires few { length (values_in self.old) < 8 }
        ensures ok { OnOk result (values_in self.new ≡ values_in self.old ++ value ∷ []) }
        ensures err { OnErr result (values_in self.new ≡ values_in self.old) }
        ensures back { IfErr result (λ back. back ≡ value) }
    {
        match (&mut *self, value) {
            (_, Value::Int(n)) => self.push_int(alloc, n),
            (Values::Empty, Value::Words(text)) => {
                *self = Values::Words(text);
                Ok(())
            }
            (_, words) => self.push_mixed(alloc, words),
        }
    }

    // The same values, with room for exactly these.
    fn copy(&self, alloc: Global) -> Result<Values, NoMemory>
        ensures equal { IfOk result (λ v. values_in v ≡ values_in self.now) }
    {
        match self {
            Values::Empty => Ok(Values::Empty),
            Values::One(n) => Ok(Values::One(*n)),
            Values::Two(both) => Ok(Values::Two(*both)),
            Values::Three(all) => Ok(Values::Three(*all)),
            Values::Ints(ints) => Ok(Values::Ints(ints.as_slice().to_vec(alloc)?)),
            Values::Words(text) => Ok(Values::Words(text.copy(alloc)?)),
            Values::Mixed(values) => Ok(Values::Mixed(copy_values(alloc, values.as_slice())?)),
        }
    }
}

fn with_second(first: i64, n: i64) -> [i64; 2]
    ensures longer { result ≡ first ∷ n ∷ [] }
{
    [first, n]
}

fn with_third(both: &[i64; 2], n: i64) -> [i64; 3]
    ensures longer { result ≡ both.now ++ n ∷ [] }
{
    let mut all = [n; 3];
    all[..2].copy_from_slice(both);
    all
}

// Three integers and a fourth, with room for 8.
fn with_fourth(alloc: Global, all: &[i64; 3], n: i64) -> Result<Vec<i64>, NoMemory>
    ensures longer { IfOk result (λ ints. ints.items ≡ all.now ++ n ∷ []) }
{
    let mut ints = Vec::with_capacity(alloc, Fields::MAX)?;
    ints.extend_from_slice(all)?;
    ints.push(n)?;
    Ok(ints)
}

// The integers as values, with room for one more.
fn int_values(alloc: Global, ints: &[i64]) -> Result<Vec<Value>, NoMemory>
    ensures same { IfOk result (λ values. values.items ≡ map (λ n. Int n) ints.now) }
{
    let mut values = Vec::with_capacity(alloc, ints.len().saturating_add(1))?;
    for n in ints {
        values.push(Value::Int(*n))?;
    }
    Ok(values)
}

fn copy_values(alloc: Global, values: &[Value]) -> Result<Vec<Value>, NoMemory>
    ensures equal { IfOk result (λ v. v.items ≡ values.now) }
{
    let mut copies = Vec::with_capacity(alloc, values.len())?;
    for value in values {
        let copied = value.copy(alloc)?;
        copies.push(copied)?;
    }
    Ok(copies)
}

/// At most 8 values. Up to three integers, or one text, stand in place, and others in a list of their own.
#[derive(Drop)]
pub struct Fields {
    values: Values,
    alloc: Global,
}

impl Model for Fields {
    ghost use Rattle.std.specs.Prelude.{List, length, ◌≤◌};
    ghost use Rattle.join_base.specs.declared.message.Value.{Value as OneValue};
    ghost use Rattle.join_base.specs.Fields.{values_in};

    ghost Value = { List OneValue };

    ghost view = { λ a. values_in a.values };

    ghost invariant = { λ a. length (values_in a.values) ≤ 8 };
}

impl Fields {
    ghost use Rattle.std.specs.Prelude.{option_map};
    ghost use Rattle.join_base.specs.Fields.{IsPushed};

    /// The most values of a message.
    pub const MAX: usize = 8;

    pub fn new(alloc: Global) -> Fields
        ensures empty { result ≡ [] }
    {
        Fields {
            values: Values::Empty,
            alloc,
        }
    }

    /// No values, and room for as many as `count`, or for 8 where it is more: so many are appended without more memory,
    /// integers alone or, `with_texts`, any values.
    pub fn with_room(alloc: Global, count: usize, with_texts: bool) -> Result<Fields, NoMemory>
        ensures empty { IfOk result (λ f. f ≡ []) }
    {
        let room = count.min(Fields::MAX);
        let values = match (count, with_texts) {
            (0..=3, false) | (0..=1, true) => Values::Empty,
            (_, false) => Values::Ints(Vec::with_capacity(alloc, room)?),
            (_, true) => Values::Mixed(Vec::with_capacity(alloc, room)?),
        };
        Ok(Fields { values, alloc })
    }

    #[inline]
    pub fn len(&self) -> usize
        ensures count { result ≡ length self.now }
        ensures few { length self.now ≤ 8 }
    {
        self.values.len()
    }

    /// The value at a place, if there is one.
    #[inline]
    pub fn get(&self, place: usize) -> Option<ValueRef<'_>>
        ensures same { option_map value_seen result ≡ slice_get self.now place }
    {
        match self.values.stand() {
            Stand::Ints(ints) => match ints.get(place) {
                None => None,
                Some(n) => Some(ValueRef::Int(*n)),
            },
            Stand::Words(text) => {
                if place == 0 {
                    Some(ValueRef::Words(text))
                } else {
                    None
                }
            }
            Stand::Mixed(values) => match values.get(place) {
                None => None,
                Some(value) => Some(value.seen()),
            },
        }
    }

    #[inline]
    pub fn at(&self, place: usize) -> ValueRef<'_>
        requires within { place < length self.now }
        ensures item { slice_get self.now place ≡ Some (value_seen result) }
    {
        match self.get(place) {
            Some(value) => value,
            None => unreachable!(),
        }
    }

    /// Appends a value. `Full` exactly where 8 are held, and nothing changes at a fault.
    #[inline]
    pub fn push(&mut self, value: Value) -> Result<(), PushFault>
        ensures pushed { IsPushed self.old self.new value result }
    {
        if self.len() >= 8 {
            return Err(PushFault::Full(value));
        }
        match self.values.push(self.alloc, value) {
            Ok(()) => Ok(()),
            Err(value) => Err(PushFault::NoMemory(value)),
        }
    }

    /// The same values, with room for exactly these.
    pub fn copy(&self, alloc: Global) -> Result<Fields, NoMemory>
        ensures equal { IfOk result (λ f. f ≡ self.now) }
    {
        let values = self.values.copy(alloc)?;
        Ok(Fields { values, alloc })
    }
}
