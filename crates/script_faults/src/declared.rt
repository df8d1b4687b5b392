//! Faults of declarations.
ghost use Rattle.std.specs.Prelude.{◌≡◌, ◌∷◌, [], OnOk};
ghost use Rattle.std.specs.List.{flat_map};
ghost use Rattle.script_names.specs.Scope.{field_rows, types_bound};
ghost use Rattle.script_faults.specs.Again.{again_faults, field_variable};
ghost use Rattle.script_faults.specs.First.{first_of};
ghost use Rattle.script_faults.specs.Faults.{is_other, message_faults, own_place, twice_declared};

use crate::first::{Fault, note_if, note_too_many};
use crate::pattern::note_bound;
use crate::placed::Placed;
use join_base::NoMemory;
use script_grammar::{FieldDecl, MessageDecl, ScriptCause};
use script_names::{NameTable, Slot, Variables};
use std::alloc::Global;

// Whether a name stands for another row than its own.
fn is_other(number: usize, first: Option<usize>) -> bool
    ensures { result ≡ is_other number first }
{
    match first {
        Some(first) => first != number,
        None => false,
    }
}

/// Notes each name that was declared before.
pub(crate) fn note_twice<T: Placed + Copy + Drop>(found: &mut Option<Fault>, table: &NameTable<T>)
    ensures { found.new ≡ first_of found.old (twice_declared T.place table.now) }
{
    for (number, (name, item)) in table.rows().iter().enumerate() {
        let is_twice = is_other(number, table.number_of(name));
        note_if(found, is_twice, ScriptCause::TwiceDeclared, item.place());
    }
}

// Binds the name of a field as that of a variable, and notes one that was bound before.
fn note_field<'a>(
    found: &mut Option<Fault>,
    names: &mut Variables<'a>,
    field: &'a FieldDecl,
) -> Result<(), NoMemory>
    ensures found { OnOk result (found.new ≡ first_of found.old
        (again_faults names.old (field_variable field.now ∷ []))) }
    ensures bound { OnOk result (names.new ≡ types_bound names.old (field_variable field.now ∷ [])) }
{
    let slot = Slot {
        place: field.name.place,
        pattern: 0,
        field: 0,
        sort: field.sort,
    };
    note_bound(found, names, field.name.name.bytes(), slot)?;
    Ok(())
}

// Notes each field whose name was declared before. There may be many more than a message can have, so that no more is
// held of one than of a variable.
fn note_fields(
    alloc: Global,
    found: &mut Option<Fault>,
    fields: &[FieldDecl],
) -> Result<(), NoMemory>
    ensures { OnOk result (found.new ≡ first_of found.old (twice_declared own_place (field_rows fields.now))) }
{
    let mut names = Variables::new(alloc);
    for field in fields {
        note_field(found, &mut names, field)?;
    }
    Ok(())
}

// Notes the faults of a message's fields.
fn note_message(
    alloc: Global,
    found: &mut Option<Fault>,
    message: &MessageDecl,
) -> Result<(), NoMemory>
    ensures { OnOk result (found.new ≡ first_of found.old (message_faults message.now)) }
{
    let fields = message.fields.as_slice();
    note_too_many(found, 8, fields);
    note_fields(alloc, found, fields)?;
    Ok(())
}

/// Notes the faults of each message's fields.
pub(crate) fn note_messages(
    alloc: Global,
    found: &mut Option<Fault>,
    messages: &[MessageDecl],
) -> Result<(), NoMemory>
    ensures { OnOk result (found.new ≡ first_of found.old (flat_map message_faults messages.now)) }
{
    for message in messages {
        note_message(alloc, found, message)?;
    }
    Ok(())
}
