//! The names that places stand for. Each is empty where the plan has none, which no checked plan needs.
ghost use Rattle.std.specs.Prelude.{◌≡◌, ◌++◌, OnOk};
ghost use Rattle.plan_text.specs.PlanNames.{row_of, sort_name, variable_name};
ghost use Rattle.script_types.specs.Names.{name_of_actor, name_of_kind};

use guard_eval::Place;
use join_base::{Bytes, Items, Name, NoMemory, Sort};

/// The variables of a pattern: a name for each field, or `None` for the blank.
pub type Row = Items<Option<Name>>;

/// The variables of the pattern at a place, from 0 on. There are none where the rows have no such place.
pub fn row_of(variables: &[Row], pattern: usize) -> &[Option<Name>]
    ensures { result.now ≡ row_of variables.now pattern }
{
    match variables.get(pattern) {
        Some(row) => row.as_slice(),
        None => &[],
    }
}

/// Appends the name of the variable at a place, and nothing where it has none.
pub fn write_variable(text: &mut Bytes, variables: &[Row], place: Place) -> Result<(), NoMemory>
    ensures { OnOk result (text.new ≡ text.old ++ variable_name variables.now place) }
{
    match row_of(variables, place.pattern as usize).get(place.field as usize) {
        Some(Some(name)) => text.push_all(name.bytes()),
        _ => Ok(()),
    }
}

pub(crate) fn write_sort(text: &mut Bytes, sort: Sort) -> Result<(), NoMemory>
    ensures { OnOk result (text.new ≡ text.old ++ sort_name sort) }
{
    match sort {
        Sort::Int => text.push_all(b"int"),
        Sort::Words => text.push_all(b"text"),
    }
}
