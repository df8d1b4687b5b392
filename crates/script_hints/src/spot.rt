//! How far a script has come in front of a token.
use script_tokens::{Kind, Mark, Token};

/// In what a term stands.
#[derive(Clone, Copy, PartialEq, Eq, Debug)]
pub enum Part {
    /// On the left of a comparison, and on its right.
    Left,
    Right,
    /// In the parentheses of a print.
    Item,
    /// In a post, and in a reply.
    Value,
    Reply,
}

/// How far a term has come.
#[derive(Clone, Copy, PartialEq, Eq, Debug)]
pub enum Step {
    Begin,
    /// Behind a sign.
    Leaf,
    /// Behind a number or a variable.
    Behind,
    /// Behind a quoted text.
    Quoted,
}

/// What a script has come to. A spot is named by what is wanted there, or by what it stands behind.
#[derive(Clone, Copy, PartialEq, Eq, Debug)]
pub enum Spot {
    Declaration,
    MessageName,
    MessageOpen,
    FirstField,
    Field,
    Colon,
    Type,
    BehindField,
    ActorName,
    ActorOpen,
    Definition,
    PatternKind,
    PatternOpen,
    FirstVariable,
    Variable,
    BehindVariable,
    BehindPattern,
    Window,
    BehindWindow,
    Term(Part, Step),
    BehindParenthesis,
    Statement,
    FirstItem,
    Item,
    Target,
    PostKind,
    PostOpen,
    FirstValue,
    BehindPost,
    BehindStop,
    ReplyNumber,
}

/// What stands at a place.
#[derive(Clone, Copy, PartialEq, Eq, Debug)]
pub enum Sight {
    Mark(Mark),
    Name,
    Number,
    Quoted,
    /// No token begins there.
    Bad,
    /// The script ends there.
    End,
}

/// What a token is.
pub fn sight_of(token: &Token) -> Sight {
    match &token.kind {
        Kind::Mark(mark) => Sight::Mark(*mark),
        Kind::Name(_) => Sight::Name,
        Kind::Number(_) => Sight::Number,
        Kind::Words(_) => Sight::Quoted,
        Kind::Bad => Sight::Bad,
    }
}

/// Whether it is one of these, where no one stands for all.
pub fn is_one_of(sight: Sight, sights: &[Sight]) -> bool {
    sights.is_empty() || sights.iter().any(|other| *other == sight)
}

// A spot, what stands there, and the spot behind it. No sight stands for all others.
type Row = (Spot, &'static [Sight], Spot);

const CLOSE: &[Sight] = &[Sight::Mark(Mark::Close)];

const SIGN: &[Sight] = &[Sight::Mark(Mark::Plus), Sight::Mark(Mark::Minus)];

const MINUS: &[Sight] = &[Sight::Mark(Mark::Minus)];

const IF: &[Sight] = &[Sight::Mark(Mark::If)];

const JOINING: &[Sight] = &[Sight::Mark(Mark::And), Sight::Mark(Mark::Or)];

const OVER: &[Sight] = &[Sight::Mark(Mark::Not), Sight::Mark(Mark::Open)];

// Messages, and the heads of actors and definitions.
const DECLARING: &[Row] = &[
    (
        Spot::Declaration,
        &[Sight::Mark(Mark::Message)],
        Spot::MessageName,
    ),
    (Spot::Declaration, &[], Spot::ActorName),
    (Spot::MessageName, &[], Spot::MessageOpen),
    (Spot::MessageOpen, &[], Spot::FirstField),
    (Spot::FirstField, CLOSE, Spot::Declaration),
    (Spot::FirstField, &[], Spot::Colon),
    (Spot::Field, &[], Spot::Colon),
    (Spot::Colon, &[], Spot::Type),
    (Spot::Type, &[], Spot::BehindField),
    (Spot::BehindField, CLOSE, Spot::Declaration),
    (Spot::BehindField, &[], Spot::Field),
    (Spot::ActorName, &[], Spot::ActorOpen),
    (Spot::ActorOpen, &[], Spot::Definition),
    (
        Spot::Definition,
        &[Sight::Mark(Mark::When)],
        Spot::PatternKind,
    ),
    (Spot::Definition, &[], Spot::Declaration),
    (Spot::PatternKind, &[], Spot::PatternOpen),
    (Spot::PatternOpen, &[], Spot::FirstVariable),
    (Spot::FirstVariable, CLOSE, Spot::BehindPattern),
    (Spot::FirstVariable, &[], Spot::BehindVariable),
    (Spot::Variable, &[], Spot::BehindVariable),
    (Spot::BehindVariable, CLOSE, Spot::BehindPattern),
    (Spot::BehindVariable, &[], Spot::Variable),
    (
        Spot::BehindPattern,
        &[Sight::Mark(Mark::With)],
        Spot::PatternKind,
    ),
    (
        Spot::BehindPattern,
        &[Sight::Mark(Mark::Within)],
        Spot::Window,
    ),
    (Spot::BehindPattern, IF, Spot::Term(Part::Left, Step::Begin)),
    (Spot::BehindPattern, &[], Spot::Statement),
    (Spot::Window, &[], Spot::BehindWindow),
    (Spot::BehindWindow, IF, Spot::Term(Part::Left, Step::Begin)),
    (Spot::BehindWindow, &[], Spot::Statement),
];

// Statements.
const ACTING: &[Row] = &[
    (
        Spot::Statement,
        &[Sight::Mark(Mark::Print)],
        Spot::FirstItem,
    ),
    (Spot::Statement, &[Sight::Mark(Mark::Post)], Spot::Target),
    (
        Spot::Statement,
        &[Sight::Mark(Mark::Stop)],
        Spot::BehindStop,
    ),
    (
        Spot::Statement,
        &[Sight::Mark(Mark::Reply)],
        Spot::ReplyNumber,
    ),
    (Spot::Statement, &[], Spot::Definition),
    (
        Spot::FirstItem,
        &[Sight::Mark(Mark::Open)],
        Spot::Term(Part::Item, Step::Begin),
    ),
    (Spot::FirstItem, &[], Spot::Item),
    (
        Spot::Item,
        &[Sight::Mark(Mark::Open)],
        Spot::Term(Part::Item, Step::Begin),
    ),
    (Spot::Item, &[Sight::Mark(Mark::Semicolon)], Spot::Statement),
    (Spot::Item, &[], Spot::Item),
    (Spot::Target, &[], Spot::PostKind),
    (Spot::PostKind, &[], Spot::PostOpen),
    (Spot::PostOpen, &[], Spot::FirstValue),
    (Spot::FirstValue, CLOSE, Spot::BehindPost),
    (Spot::FirstValue, MINUS, Spot::Term(Part::Value, Step::Leaf)),
    (
        Spot::FirstValue,
        &[Sight::Quoted],
        Spot::Term(Part::Value, Step::Quoted),
    ),
    (Spot::FirstValue, &[], Spot::Term(Part::Value, Step::Behind)),
    (Spot::BehindPost, &[], Spot::Statement),
    (Spot::BehindStop, &[], Spot::Statement),
    (Spot::ReplyNumber, &[], Spot::Term(Part::Reply, Step::Begin)),
];

// The spot behind a whole term.
const ENDING: &[(Part, &[Sight], Spot)] = &[
    (Part::Left, &[], Spot::Term(Part::Right, Step::Begin)),
    (Part::Right, CLOSE, Spot::BehindParenthesis),
    (Part::Right, JOINING, Spot::Term(Part::Left, Step::Begin)),
    (Part::Right, &[], Spot::Statement),
    (Part::Item, &[], Spot::Item),
    (
        Part::Value,
        &[Sight::Mark(Mark::Comma)],
        Spot::Term(Part::Value, Step::Begin),
    ),
    (Part::Value, &[], Spot::BehindPost),
    (Part::Reply, &[], Spot::Statement),
];

fn found_in(rows: &[Row], spot: Spot, sight: Sight) -> Option<Spot> {
    for (here, sights, next) in rows {
        if *here == spot && is_one_of(sight, sights) {
            return Some(*next);
        }
    }
    None
}

fn in_declaration(spot: Spot, sight: Sight) -> Option<Spot> {
    found_in(DECLARING, spot, sight)
}

fn in_body(spot: Spot, sight: Sight) -> Option<Spot> {
    found_in(ACTING, spot, sight)
}

// The spot behind a token that stands behind a term.
fn behind_term(part: Part, sight: Sight) -> Spot {
    for (here, sights, next) in ENDING {
        if *here == part && is_one_of(sight, sights) {
            return *next;
        }
    }
    Spot::Statement
}

// The spot behind a token of a term, or behind one that stands behind it.
fn in_term(part: Part, step: Step, sight: Sight) -> Spot {
    let is_sign = is_one_of(sight, SIGN);
    match (step, sight) {
        (Step::Begin, Sight::Mark(Mark::Minus)) => Spot::Term(part, Step::Leaf),
        (Step::Begin, Sight::Quoted) => Spot::Term(part, Step::Quoted),
        (Step::Begin | Step::Leaf, _) => Spot::Term(part, Step::Behind),
        (Step::Behind, _) if is_sign => Spot::Term(part, Step::Leaf),
        _ => behind_term(part, sight),
    }
}

/// The spot behind a token, where a script may have that token there.
pub fn next_spot(spot: Spot, sight: Sight) -> Spot {
    match spot {
        Spot::Term(Part::Left, Step::Begin) if is_one_of(sight, OVER) => spot,
        Spot::Term(part, step) => in_term(part, step, sight),
        Spot::BehindParenthesis => behind_term(Part::Right, sight),
        _ => in_declaration(spot, sight)
            .or(in_body(spot, sight))
            .unwrap_or(Spot::Declaration),
    }
}
