//! The numbers of names.
ghost use Rattle.std.specs.Prelude.{◌≡◌, ◌∷◌, [], ◌++◌, ◌<◌, length, map, IfSome, OnOk, OnErr};
ghost use Rattle.script_names.specs.Names.{item_of, names_of, number_of};

use indexmap::IndexMap;
use join_base::NoMemory;
use std::alloc::Global;
use std::marker::Model;

/// A list of names, each with an item, that grows at its end. The first of a name is found without going through it.
#[derive(Drop)]
pub struct NameTable<'a, T> {
    rows: Vec<(&'a [u8], T)>,
    numbers: IndexMap<&'a [u8], usize>,
}

impl<'a, T> Model for NameTable<'a, T> {
    ghost use Rattle.std.specs.Prelude.{◌≡◌, ℕ, List, map};
    ghost use Rattle.std.specs.Str.{bytes_eq};
    ghost use Rattle.indexmap.specs.IndexMap.{get_by};
    ghost use Rattle.script_names.specs.Names.{number_of};

    ghost Value = { List (List ℕ × T) };

    ghost view = { λ t. map (λ r. (r.0.now, r.1)) t.rows.items };

    ghost invariant = { λ t. (name : List ℕ) → get_by (λ key. bytes_eq name key.now) t.numbers
        ≡ number_of name (map (λ r. r.0.now) t.rows.items) };
}

impl<'a, T> NameTable<'a, T> {
    pub fn new(alloc: Global) -> NameTable<'a, T>
        ensures { result ≡ [] }
    {
        NameTable {
            rows: Vec::new(alloc),
            numbers: IndexMap::new(alloc),
        }
    }

    /// The number of the first of the names that is this one, counted from 0.
    pub fn number_of(&self, name: &[u8]) -> Option<usize>
        ensures first { result ≡ number_of name.now (names_of self.now) }
        ensures within { IfSome result (λ number. number < length self.now) }
    {
        match self.numbers.get(name) {
            Some(number) => Some(*number),
            None => None,
        }
    }
}

impl<'a, T> NameTable<'a, T> {
    /// The names with their items, in order.
    pub fn rows(&self) -> &[(&'a [u8], T)]
        ensures { map (λ r. (r.0.now, r.1)) result.now ≡ self.now }
    {
        self.rows.as_slice()
    }
}

impl<'a, T: Copy + Drop> NameTable<'a, T> {
    /// The item of the first of the names that is this one.
    pub fn item_of(&self, name: &[u8]) -> Option<T>
        ensures { result ≡ item_of name.now self.now }
    {
        match self.number_of(name) {
            Some(number) => Some(self.rows[number].1),
            None => None,
        }
    }

    /// Adds a name behind the others. Without memory the table is as it was.
    pub fn push(&mut self, name: &'a [u8], item: T) -> Result<(), NoMemory>
        ensures ok { OnOk result (self.new ≡ self.old ++ (name.now, item) ∷ []) }
        ensures err { OnErr result (self.new ≡ self.old) }
    {
        let count = self.rows.len();
        self.rows.push((name, item))?;
        if self.numbers.contains_key(name) {
            return Ok(());
        }
        match self.numbers.insert(name, count) {
            Ok(_) => Ok(()),
            Err(_) => {
                self.rows.pop();
                Err(NoMemory)
            }
        }
    }
}
