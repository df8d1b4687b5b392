//! The index.
ghost use Rattle.std.specs.Prelude.{◌≡◌, ◌≤◌, [], ℕ, ℤ, IfSome, OnOk, Some, slice_get, true};
ghost use Rattle.pattern_core.specs.Members.{IsIn};
ghost use Rattle.pattern_core.specs.Suits.{IsRecorded};
ghost use Rattle.value_index.specs.Index.{AddsNone, AddsOnly, Has, Keeps, KeepsOthers, Lacks, entry};
ghost use Rattle.value_index.specs.ValueRange.{Ascend, lies_in};

use crate::column::{Column, clear_in, insert_in, remove_in};
use crate::field::IndexedField;
use crate::value_range::{Span, ValueRange};
use join_base::{Message, NoMemory};
use std::alloc::Global;
use std::collections::BTreeSet;
use std::marker::Model;

/// The numbers of messages by the values of some of their fields.
#[derive(Drop)]
pub struct ValueIndex {
    alloc: Global,
    columns: Vec<Column>,
}

impl Model for ValueIndex {
    ghost use Rattle.std.specs.Prelude.{◌≤◌, length};
    ghost use Rattle.value_index.specs.Columns.{index_of};
    ghost use Rattle.value_index.specs.Index.{Index};

    ghost Value = { Index };

    ghost view = { λ a. index_of a.columns.items };

    ghost invariant = { λ a. length a.columns.items ≤ 64 };
}

impl ValueIndex {
    /// The most fields that are indexed.
    pub const MAX: usize = 64;

    /// An index of no field.
    pub fn new(alloc: Global) -> ValueIndex
        ensures fields { result.fields ≡ [] }
        ensures entries { result.entries ≡ [] }
    {
        ValueIndex {
            alloc,
            columns: Vec::new(alloc),
        }
    }

    /// The place of a field among those that are indexed.
    pub fn place_of(&self, indexed: IndexedField) -> Option<u32>
        ensures { IfSome result (λ place. slice_get self.now.fields place ≡ Some indexed) }
    {
        for (place, column) in self.columns.iter().enumerate() {
            if column.indexed == indexed {
                return Some(place as u32);
            }
        }
        None
    }

    /// Adds a field, unless there are 64 or it is there already. No number has an entry at it.
    pub fn add_field(&mut self, indexed: IndexedField) -> Result<(), NoMemory>
        ensures entries { self.new.entries ≡ self.old.entries }
    {
        if self.columns.len() >= ValueIndex::MAX || self.place_of(indexed).is_some() {
            return Ok(());
        }
        self.columns.push(Column {
            indexed,
            numbers: BTreeSet::new(self.alloc),
        })?;
        Ok(())
    }

    /// Adds a recorded number with its values. Without memory some of them may be there.
    pub fn insert(&mut self, messages: &[Message], number: u32) -> Result<(), NoMemory>
        requires recorded { IsRecorded messages.now number }
        ensures fields { self.new.fields ≡ self.old.fields }
        ensures keeps { Keeps self.old.entries self.new.entries }
        ensures only { AddsOnly number self.old.entries self.new.entries }
        ensures has { OnOk result (Has self.new messages.now number) }
    {
        insert_in(&mut self.columns, messages, number)?;
        Ok(())
    }

    /// Takes a recorded number out.
    pub fn remove(&mut self, messages: &[Message], number: u32)
        requires recorded { IsRecorded messages.now number }
        ensures fields { self.new.fields ≡ self.old.fields }
        ensures others { KeepsOthers number self.old.entries self.new.entries }
        ensures adds_none { AddsNone self.old.entries self.new.entries }
        ensures lacks { Lacks self.new messages.now number }
    {
        remove_in(&mut self.columns, messages, number);
    }

    /// Takes all numbers out.
    pub fn clear(&mut self)
        ensures fields { self.new.fields ≡ self.old.fields }
        ensures entries { self.new.entries ≡ [] }
    {
        clear_in(&mut self.columns);
    }

    /// The numbers from this one on that have the value at the field of the place, in ascending order.
    pub fn numbers_from(&self, place: u32, value: i64, from: u32) -> ValueRange<'_>
        ensures ascend { Ascend result }
        ensures has { (number : ℕ) → from ≤ number → IsIn (entry place value number) self.now.entries
            → IsIn number result }
    {
        ValueRange::from_start(&self.columns, Span::of(place, value), from)
    }

    /// The numbers that have a value of the span, if in the order of these values they ascend and are at most 32. So it
    /// is with times, where messages arrive in their order. The numbers are gone through once to see that.
    pub fn numbers_between(&self, span: Span) -> Option<ValueRange<'_>>
        ensures ascend { IfSome result Ascend }
        ensures has { IfSome result (λ numbers. (value : ℤ) (number : ℕ) → lies_in span value ≡ true
            → IsIn (entry span.place value number) self.now.entries → IsIn number numbers) }
    {
        let found = ValueRange::from_start(&self.columns, span, 0);
        if !found.ascends() {
            return None;
        }
        Some(found)
    }
}
