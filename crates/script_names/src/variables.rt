//! Variables while a definition is read.
ghost use Rattle.std.specs.Prelude.{◌≡◌, [], not, IfOk, OnOk};
ghost use Rattle.std.specs.Option.{is_some, option_map};
ghost use Rattle.script_names.specs.Names.{bound, item_of};
ghost use Rattle.script_names.specs.Scope.{sort_slot};

use indexmap::IndexMap;
use join_base::{NoMemory, Sort};
use std::alloc::Global;
use std::marker::Model;

/// The types of the variables of a definition, of each name the first alone: a name means its first declaration. A
/// contract sees them as variables of which the type alone is known.
#[derive(Drop)]
pub struct Variables<'a> {
    sorts: IndexMap<&'a [u8], Sort>,
}

impl<'a> Model for Variables<'a> {
    ghost use Rattle.std.specs.Prelude.{ℕ, List, map};
    ghost use Rattle.script_names.specs.declared.scope.Slot.{Slot};

    ghost Value = { List (List ℕ × Slot) };

    ghost use Rattle.script_names.specs.Scope.{sort_slot};

    ghost view = { λ t. map (λ e. (e.0.now, sort_slot e.1)) t.sorts.entries };
}

impl<'a> Variables<'a> {
    pub fn new(alloc: Global) -> Variables<'a>
        ensures { result ≡ [] }
    {
        Variables {
            sorts: IndexMap::new(alloc),
        }
    }

    /// The type of the variable of a name.
    pub fn sort_of(&self, name: &[u8]) -> Option<Sort>
        ensures { option_map sort_slot result ≡ item_of name.now self.now }
    {
        self.sorts.get(name).copied()
    }

    /// Adds a variable, unless one of its name is there: whether it is new.
    pub fn bind(&mut self, name: &'a [u8], sort: Sort) -> Result<bool, NoMemory>
        ensures is_new { IfOk result (λ is_new. is_new ≡ not (is_some (item_of name.now self.old))) }
        ensures bound { OnOk result (self.new ≡ bound self.old (name.now, sort_slot sort)) }
    {
        if self.sorts.contains_key(name) {
            return Ok(false);
        }
        self.sorts.insert(name, sort)?;
        Ok(true)
    }
}
