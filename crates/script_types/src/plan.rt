//! The plan's types. A plan is what a script says, with numbers in place of names.
use guard_eval::{Operand, Place, Term, WordsLeaf};
use join_base::{Items, Name, Sort};
use pattern_core::Definition;

/// What a script says: its kinds of message and its actors, each counted from 0 in order of declaration.
#[derive(Drop)]
pub struct Plan {
    pub kinds: Items<Kind>,
    pub actors: Items<ActorPlan>,
}

/// A kind of message, with the name and the type of each of its fields, at most 8 and counted from 0.
#[derive(Drop)]
pub struct Kind {
    pub name: Name,
    pub fields: Items<(Name, Sort)>,
}

/// An actor, with its rules in order of declaration, at most 16.
#[derive(Drop)]
pub struct ActorPlan {
    pub name: Name,
    pub rules: Items<Rule>,
}

/// A definition with its body of at most 16 statements.
/// For each pattern it has a variable for each field, or `None` where the script has `_`.
#[derive(Drop)]
pub struct Rule {
    pub definition: Definition,
    pub variables: Items<Items<Option<Name>>>,
    pub body: Items<Statement>,
}

/// A statement of a body. Targets and kinds are counted from 0.
#[derive(Drop)]
pub enum Statement {
    /// A line of 1 to 16 items, one behind the other.
    Print(Items<Item>),
    /// A message of the kind to the target, with an operand for each field.
    Post {
        target: u32,
        kind: u32,
        operands: Items<Operand>,
    },
    /// The actor ends. It stands last.
    Stop,
    /// The value of the operand, in reply to the message that the pattern takes. Patterns are counted from 0.
    Reply {
        pattern: u32,
        operand: Operand,
    },
}

/// What a print writes: words, an integer variable as it is, or a sum.
#[derive(Drop)]
pub enum Item {
    Words(WordsLeaf),
    Plain(Place),
    Sum(Term),
}
