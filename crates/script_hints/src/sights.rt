//! Sorts of tokens that mistakes are told by, and the rows of the tables of what could stand there.
use crate::spot::{Sight, Spot};
use script_tokens::Mark;

/// Where the mark stands: under the token, or behind the one in front of it.
#[derive(Clone, Copy, PartialEq, Eq, Debug)]
pub enum Side {
    Here,
    Behind,
}

/// A spot, what stands there, and what is told. No sight stands for all others, so the last row of a spot has none.
pub type Row = (Spot, &'static [Sight], Side, &'static [u8]);

pub const KEYWORD: &[Sight] = &[
    Sight::Mark(Mark::Message),
    Sight::Mark(Mark::Actor),
    Sight::Mark(Mark::When),
    Sight::Mark(Mark::If),
    Sight::Mark(Mark::Print),
    Sight::Mark(Mark::Post),
    Sight::Mark(Mark::Stop),
    Sight::Mark(Mark::Int),
    Sight::Mark(Mark::Text),
    Sight::Mark(Mark::Within),
    Sight::Mark(Mark::Reply),
];

pub const STATEMENT: &[Sight] = &[
    Sight::Mark(Mark::Print),
    Sight::Mark(Mark::Post),
    Sight::Mark(Mark::Stop),
    Sight::Mark(Mark::Reply),
];

pub const DECLARATION: &[Sight] = &[
    Sight::Mark(Mark::Message),
    Sight::Mark(Mark::Actor),
    Sight::Mark(Mark::When),
];

pub const RELATION: &[Sight] = &[
    Sight::Mark(Mark::Equal),
    Sight::Mark(Mark::NotEqual),
    Sight::Mark(Mark::Less),
    Sight::Mark(Mark::LessEqual),
    Sight::Mark(Mark::Greater),
    Sight::Mark(Mark::GreaterEqual),
];

pub const SIGN: &[Sight] = &[Sight::Mark(Mark::Plus), Sight::Mark(Mark::Minus)];

pub const OPEN: &[Sight] = &[Sight::Mark(Mark::Open)];

pub const COMMA: &[Sight] = &[Sight::Mark(Mark::Comma)];

pub const SEMICOLON: &[Sight] = &[Sight::Mark(Mark::Semicolon)];

pub const TYPE: &[Sight] = &[Sight::Mark(Mark::Int), Sight::Mark(Mark::Text)];

pub const BRACE: &[Sight] = &[Sight::Mark(Mark::OpenBrace)];

pub const VALUE: &[Sight] = &[Sight::Number, Sight::Quoted, Sight::Mark(Mark::Minus)];
