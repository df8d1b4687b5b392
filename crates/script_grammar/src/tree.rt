//! The tree of a script, with places.
ghost use Rattle.std.specs.Prelude.{◌≡◌, ◌∷◌, [], ◌++◌, ◌<◌, length, map, slice_get, Some, OnOk, OnErr};

use crate::operand::OperandDecl;
use crate::prefix::Prefix;
use join_base::{Items, NoMemory, Relation, Sort, Text};
use script_tokens::ScriptName;
use std::alloc::Global;
use std::marker::Model;

/// A name and its place.
#[derive(Drop)]
pub struct Spelt {
    pub name: ScriptName,
    pub place: u64,
}

/// A script: its messages and its actors, each in the order of the text. Only clauses speak of a whole one: a script is
/// read definition by definition, so that no more of it is held.
#[derive(Drop)]
pub struct Tree {
    pub messages: Items<MessageDecl>,
    pub actors: Items<ActorDecl>,
}

/// `message NAME(FIELDS)`.
#[derive(Drop)]
pub struct MessageDecl {
    pub name: Spelt,
    pub fields: Items<FieldDecl>,
}

/// `NAME: int` or `NAME: text`.
#[derive(Drop)]
pub struct FieldDecl {
    pub name: Spelt,
    pub sort: Sort,
}

/// `actor NAME { DEFINITIONS }`, of which only clauses speak.
#[derive(Drop)]
pub struct ActorDecl {
    pub name: Spelt,
    pub rules: Items<RuleDecl>,
}

/// A definition, with the place of its `when`. Its window is the number behind `within`, with its place. Without a
/// guard it has no conjunct.
#[derive(Drop)]
pub struct RuleDecl {
    pub place: u64,
    pub patterns: Items<PatternDecl>,
    pub window: Option<(u64, i64)>,
    pub guard: ConjunctDeclList,
    pub body: Items<StatementDecl>,
}

/// `KIND(VARIABLES)`. A variable without a name is the blank.
#[derive(Drop)]
pub struct PatternDecl {
    pub kind: Spelt,
    pub variables: Items<(u64, Option<ScriptName>)>,
}

/// Atoms with `||` between them.
#[cycle(atom)]
#[derive(Drop)]
pub struct ConjunctDecl {
    pub atoms: Vec<AtomDecl>,
}

/// A comparison or a conjunct in parentheses, behind its prefix. Only where that is full, one more `!` takes a box, and
/// one more `(` makes a conjunct of one atom.
#[cycle(atom)]
#[derive(Drop)]
pub enum AtomDecl {
    Compare {
        relation: Relation,
        prefix: Prefix,
        left: OperandDecl,
        right: OperandDecl,
    },
    Not(Box<AtomDecl>),
    Group {
        prefix: Prefix,
        conjunct: ConjunctDecl,
    },
}

/// A number or a name of a term, with its own place, and whether it counts negative.
#[derive(Drop)]
pub struct LeafDecl {
    pub place: u64,
    pub minus: bool,
    pub part: Part,
}

/// What a leaf is.
#[derive(Drop)]
pub enum Part {
    Number(i64),
    Named(ScriptName),
}

/// A statement, with the place of its keyword.
#[derive(Drop)]
pub enum StatementDecl {
    Print {
        place: u64,
        items: Items<ItemDecl>,
    },
    Post {
        place: u64,
        target: Spelt,
        kind: Spelt,
        operands: Items<OperandDecl>,
    },
    Stop {
        place: u64,
    },
    /// The pattern is the number of the text, which counts from 1, with its place.
    Reply {
        place: u64,
        number_place: u64,
        pattern: i64,
        operand: OperandDecl,
    },
}

/// What a print writes: a quoted text, a variable, or a term in parentheses with the place of the `(`.
#[derive(Drop)]
pub enum ItemDecl {
    Fixed { place: u64, words: Text },
    Named(Spelt),
    Sum { place: u64, leaves: Items<LeafDecl> },
}

/// The conjuncts of a guard.
#[derive(Drop)]
pub struct ConjunctDeclList {
    rows: Vec<ConjunctDecl>,
}

impl Model for ConjunctDeclList {
    ghost use Rattle.std.specs.Prelude.{List, map};
    ghost use Rattle.std.specs.Coded.{coded_list};
    ghost use Rattle.script_grammar.specs.Atoms.{Atoms, coded_atoms};

    ghost Value = { List Atoms };

    ghost coded = { coded_list coded_atoms };

    ghost use Rattle.script_grammar.specs.AtomViews.{conjunct_view};

    ghost view = { λ a. map conjunct_view a.rows.items };
}

impl ConjunctDeclList {
    ghost use Rattle.script_grammar.specs.AtomViews.{conjunct_view};

    pub fn new(alloc: Global) -> ConjunctDeclList
        ensures empty { result ≡ [] }
    {
        ConjunctDeclList {
            rows: Vec::new(alloc),
        }
    }

    pub fn len(&self) -> usize
        ensures count { result ≡ length self.now }
    {
        self.rows.len()
    }

    pub fn as_slice(&self) -> &[ConjunctDecl]
        ensures same { map conjunct_view result.now ≡ self.now }
    {
        self.rows.as_slice()
    }

    /// The conjunct at a place, counted from 0.
    pub fn at(&self, place: usize) -> &ConjunctDecl
        requires within { place < length self.now }
        ensures item { slice_get self.now place ≡ Some (conjunct_view result.now) }
    {
        let rows = &self.rows;
        &rows[place]
    }

    /// Appends a conjunct. Without memory it is dropped and the list is as it was.
    pub fn push(&mut self, conjunct: ConjunctDecl) -> Result<(), NoMemory>
        ensures ok { OnOk result (self.new ≡ self.old ++ conjunct_view conjunct ∷ []) }
        ensures err { OnErr result (self.new ≡ self.old) }
    {
        match self.rows.push(conjunct) {
            Ok(()) => Ok(()),
            Err(_) => Err(NoMemory),
        }
    }

    /// Gives back the room for more conjuncts.
    pub fn fit(&mut self)
        ensures same { self.new ≡ self.old }
    {
        self.rows.shrink_to_fit();
    }
}
