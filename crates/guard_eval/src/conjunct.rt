//! One element of a guard: it is true where one of its atoms is.
ghost use Rattle.std.specs.Prelude.{◌≡◌, ◌∷◌, [], ◌++◌, ◌<◌, length, map, slice_get, Some, IfOk, OnOk, OnErr};
ghost use Rattle.guard_eval.specs.Condition.{Never, with_atom};
ghost use Rattle.guard_eval.specs.Shape.{atom_condition, conjunct_condition};

use crate::term::Operand;
use join_base::{NoMemory, Relation};
use std::alloc::Global;
use std::marker::Model;

/// Atoms, of which one has to be true. Contracts see the tree `conjunct_condition`.
#[cycle(guard)]
#[derive(Drop)]
pub struct Conjunct {
    pub atoms: Vec<Atom>,
}

/// A test of a guard. Contracts see the tree `atom_condition`.
#[cycle(guard)]
#[derive(Drop)]
pub enum Atom {
    /// Two operands of one type. Texts are compared by `Equal` and `NotEqual` alone.
    Compare {
        left: Operand,
        relation: Relation,
        right: Operand,
    },
    /// True where the atom is not.
    Not(Box<Atom>),
    /// True where the conjunct is.
    Group(Conjunct),
}

impl Atom {
    /// An equal atom. `NoMemory` where there is no memory for it.
    #[cycle(copy)]
    pub fn copy(&self, alloc: Global) -> Result<Atom, NoMemory>
        ensures equal { IfOk result (λ a. atom_condition a ≡ atom_condition self.now) }
    {
        match self {
            Atom::Compare {
                left,
                relation,
                right,
            } => Ok(Atom::Compare {
                left: left.copy(alloc)?,
                relation: *relation,
                right: right.copy(alloc)?,
            }),
            Atom::Not(inner) => {
                let copied = inner.copy(alloc)?;
                Ok(Atom::Not(Box::new(alloc, copied)?))
            }
            Atom::Group(inner) => Ok(Atom::Group(inner.copy(alloc)?)),
        }
    }
}

impl Conjunct {
    /// The conjunct without an atom, which is never true.
    pub fn new(alloc: Global) -> Conjunct
        ensures { conjunct_condition result ≡ Never }
    {
        Conjunct {
            atoms: Vec::new(alloc),
        }
    }

    /// Appends an atom. Without memory the atom is dropped and the conjunct is as it was.
    #[tactic(auto, using(crate::proofs::Atoms::atoms))]
    pub fn push(&mut self, atom: Atom) -> Result<(), NoMemory>
        ensures ok { OnOk result (conjunct_condition self.new ≡ with_atom (conjunct_condition self.old)
            (atom_condition atom)) }
        ensures err { OnErr result (conjunct_condition self.new ≡ conjunct_condition self.old) }
    {
        match self.atoms.push(atom) {
            Ok(()) => Ok(()),
            Err(_) => Err(NoMemory),
        }
    }

    /// An equal conjunct. `NoMemory` where there is no memory for it.
    #[cycle(copy)]
    pub fn copy(&self, alloc: Global) -> Result<Conjunct, NoMemory>
        ensures equal { IfOk result (λ c. conjunct_condition c ≡ conjunct_condition self.now) }
    {
        let mut atoms = Vec::new(alloc);
        for atom in &self.atoms {
            let copied = atom.copy(alloc)?;
            atoms.push(copied)?;
        }
        Ok(Conjunct { atoms })
    }
}

/// The conjuncts of a guard. It is true where each of them is, and without a conjunct always.
#[derive(Drop)]
pub struct ConjunctList {
    rows: Vec<Conjunct>,
}

impl Model for ConjunctList {
    ghost use Rattle.std.specs.Prelude.{List, map};
    ghost use Rattle.std.specs.Coded.{coded_list};
    ghost use Rattle.guard_eval.specs.Condition.{Condition, coded_condition};

    ghost Value = { List Condition };

    ghost coded = { coded_list coded_condition };

    ghost use Rattle.guard_eval.specs.Shape.{conjunct_condition};

    ghost view = { λ a. map conjunct_condition a.rows.items };
}

impl ConjunctList {
    pub fn new(alloc: Global) -> ConjunctList
        ensures { result ≡ [] }
    {
        ConjunctList {
            rows: Vec::new(alloc),
        }
    }

    pub fn len(&self) -> usize
        ensures { result ≡ length self.now }
    {
        self.rows.len()
    }

    pub fn as_slice(&self) -> &[Conjunct]
        ensures same { map conjunct_condition result.now ≡ self.now }
    {
        self.rows.as_slice()
    }

    /// The conjunct at a place, counted from 0.
    pub fn at(&self, place: usize) -> &Conjunct
        requires { place < length self.now }
        ensures { slice_get self.now place ≡ Some (conjunct_condition result.now) }
    {
        let rows = &self.rows;
        &rows[place]
    }

    /// Appends a conjunct. Without memory it is dropped and the list is as it was.
    pub fn push(&mut self, conjunct: Conjunct) -> Result<(), NoMemory>
        ensures ok { OnOk result (self.new ≡ self.old ++ conjunct_condition conjunct ∷ []) }
        ensures err { OnErr result (self.new ≡ self.old) }
    {
        match self.rows.push(conjunct) {
            Ok(()) => Ok(()),
            Err(_) => Err(NoMemory),
        }
    }

    /// An equal list. `NoMemory` where there is no memory for it.
    pub fn copy(&self, alloc: Global) -> Result<ConjunctList, NoMemory>
        ensures equal { IfOk result (λ c. c ≡ self.now) }
    {
        let mut rows = Vec::new(alloc);
        for conjunct in &self.rows {
            let copied = conjunct.copy(alloc)?;
            rows.push(copied)?;
        }
        Ok(ConjunctList { rows })
    }
}
