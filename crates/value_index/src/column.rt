//! What an index has of one field.
ghost use Rattle.std.specs.Prelude.{OnOk};
ghost use Rattle.std.specs.List.{AllByRecursion};
ghost use Rattle.pattern_core.specs.Suits.{IsRecorded};
ghost use Rattle.value_index.specs.Columns.{Each, Gains, HasIn, IsEmptied, LacksIn, Loses};

use crate::field::{IndexedField, value_at};
use crate::valued::{Valued, add_valued, remove_valued};
use join_base::{Message, NoMemory};
use pattern_core::has_kind;
use std::collections::BTreeSet;

/// The numbers of messages of a field's kind, with their values there.
#[derive(Drop)]
pub(crate) struct Column {
    pub indexed: IndexedField,
    pub numbers: BTreeSet<Valued>,
}

impl Column {
    // Adds a number, where its message is of the field's kind.
    fn insert(&mut self, messages: &[Message], number: u32) -> Result<(), NoMemory>
        requires recorded { IsRecorded messages.now number }
        ensures gains { Gains number self.old self.new }
        ensures has { OnOk result (HasIn messages.now number self.new) }
    {
        if !has_kind(messages, number, self.indexed.kind) {
            return Ok(());
        }
        let value = value_at(messages, number, self.indexed);
        add_valued(&mut self.numbers, Valued::new(value, number))
    }

    // Takes a number out, where its message is of the field's kind.
    fn remove(&mut self, messages: &[Message], number: u32)
        requires recorded { IsRecorded messages.now number }
        ensures loses { Loses number self.old self.new }
        ensures lacks { LacksIn messages.now number self.new }
    {
        if !has_kind(messages, number, self.indexed.kind) {
            return;
        }
        let value = value_at(messages, number, self.indexed);
        remove_valued(&mut self.numbers, Valued::new(value, number));
    }

    // Takes all numbers out.
    fn clear(&mut self)
        ensures { IsEmptied self.old self.new }
    {
        self.numbers.clear();
    }
}

/// Adds a number to the columns of its kind. Without memory some of them may have it.
pub(crate) fn insert_in(
    columns: &mut [Column],
    messages: &[Message],
    number: u32,
) -> Result<(), NoMemory>
    requires recorded { IsRecorded messages.now number }
    ensures gain { Each (Gains number) columns.old columns.new }
    ensures has { OnOk result (AllByRecursion (HasIn messages.now number) columns.new) }
{
    for column in columns.iter_mut() {
        column.insert(messages, number)?;
    }
    Ok(())
}

/// Takes a number out of the columns of its kind.
pub(crate) fn remove_in(columns: &mut [Column], messages: &[Message], number: u32)
    requires recorded { IsRecorded messages.now number }
    ensures lose { Each (Loses number) columns.old columns.new }
    ensures lack { AllByRecursion (LacksIn messages.now number) columns.new }
{
    for column in columns.iter_mut() {
        column.remove(messages, number);
    }
}

/// Takes all numbers out of the columns.
pub(crate) fn clear_in(columns: &mut [Column])
    ensures { Each IsEmptied columns.old columns.new }
{
    for column in columns.iter_mut() {
        column.clear();
    }
}
