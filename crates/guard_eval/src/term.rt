//! Operands.
ghost use Rattle.std.specs.Prelude.{◌≡◌, ◌≤◌, length, IfOk};

use join_base::{Items, NoMemory, Text};
use std::alloc::Global;
use std::marker::Model;

/// A field of the message that a pattern takes. Patterns and fields are counted from 0.
#[derive(Clone, Copy, PartialEq, Eq, Debug)]
pub struct Place {
    pub pattern: u32,
    pub field: u32,
}

/// A part of a sum: a number, or an integer field.
#[derive(Clone, Copy, PartialEq, Eq, Debug)]
pub enum Leaf {
    Number(i64),
    Field(Place),
}

/// A leaf with its sign: with `minus` it is taken away.
#[derive(Clone, Copy, PartialEq, Eq, Debug)]
pub struct Signed {
    pub minus: bool,
    pub leaf: Leaf,
}

/// The sum of 1 to 64 leaves.
#[derive(Drop)]
pub struct Term {
    leaves: Vec<Signed>,
}

impl Model for Term {
    ghost use Rattle.std.specs.Prelude.{List, length, ◌≤◌};
    ghost use Rattle.guard_eval.specs.declared.term.Signed.{Signed as SignedLeaf};

    ghost Value = { List SignedLeaf };

    ghost view = { λ a. a.leaves.items };

    ghost invariant = { λ a. (1 ≤ length a.leaves.items) × (length a.leaves.items ≤ 64) };
}

impl Term {
    /// The most leaves of a term.
    pub const MAX: usize = 64;

    /// The sum of these leaves. It takes no memory.
    pub fn new(leaves: Items<Signed>) -> Term
        requires some { 1 ≤ length leaves }
        requires few { length leaves ≤ 64 }
        ensures same { result ≡ leaves }
    {
        Term {
            leaves: leaves.into_vec(),
        }
    }

    pub fn leaves(&self) -> &[Signed]
        ensures same { result.now ≡ self.now }
        ensures some { 1 ≤ length self.now }
        ensures few { length self.now ≤ 64 }
    {
        self.leaves.as_slice()
    }

    /// An equal term. `NoMemory` where there is no memory for it.
    pub fn copy(&self, alloc: Global) -> Result<Term, NoMemory>
        ensures equal { IfOk result (λ t. t ≡ self.now) }
    {
        let mut leaves = Vec::new(alloc);
        for signed in &self.leaves {
            leaves.push(*signed)?;
        }
        Ok(Term { leaves })
    }
}

/// A text of a guard or a body: a fixed one, or a text field.
#[derive(Drop)]
pub enum WordsLeaf {
    Fixed(Text),
    Field(Place),
}

impl WordsLeaf {
    /// An equal leaf. `NoMemory` where there is no memory for it.
    pub fn copy(&self, alloc: Global) -> Result<WordsLeaf, NoMemory>
        ensures equal { IfOk result (λ w. w ≡ self.now) }
    {
        match self {
            WordsLeaf::Fixed(text) => Ok(WordsLeaf::Fixed(text.copy(alloc)?)),
            WordsLeaf::Field(place) => Ok(WordsLeaf::Field(*place)),
        }
    }
}

/// What is compared or posted: an integer or a text.
#[derive(Drop)]
pub enum Operand {
    Sum(Term),
    Words(WordsLeaf),
}

impl Operand {
    /// An equal operand. `NoMemory` where there is no memory for it.
    pub fn copy(&self, alloc: Global) -> Result<Operand, NoMemory>
        ensures equal { IfOk result (λ o. o ≡ self.now) }
    {
        match self {
            Operand::Sum(term) => Ok(Operand::Sum(term.copy(alloc)?)),
            Operand::Words(words) => Ok(Operand::Words(words.copy(alloc)?)),
        }
    }
}
