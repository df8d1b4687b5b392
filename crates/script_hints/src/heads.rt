//! What could stand in declarations and in the heads of definitions.
use crate::sights::{KEYWORD, RELATION, Row, SEMICOLON, STATEMENT, Side, TYPE, VALUE};
use crate::spot::{Sight, Spot};
use script_tokens::Mark;

// Of messages.
pub const MESSAGES: &[Row] = &[
    (
        Spot::Declaration,
        &[Sight::Mark(Mark::CloseBrace)],
        Side::Here,
        b"this `}` is one too many",
    ),
    (
        Spot::Declaration,
        &[Sight::Mark(Mark::When)],
        Side::Here,
        b"a definition stands in the braces of an actor: actor NAME { when .. }",
    ),
    (
        Spot::Declaration,
        STATEMENT,
        Side::Here,
        b"a statement stands in the braces of a definition, and a `}` in front of it is one too many",
    ),
    (
        Spot::Declaration,
        SEMICOLON,
        Side::Here,
        b"`;` ends a statement, and nothing else",
    ),
    (
        Spot::Declaration,
        &[],
        Side::Here,
        b"`message NAME(field: type, ..)` or `actor NAME { .. }` is wanted here",
    ),
    (
        Spot::MessageName,
        KEYWORD,
        Side::Here,
        b"this word is a keyword, and no name",
    ),
    (
        Spot::MessageName,
        &[],
        Side::Here,
        b"the name of the message is wanted here",
    ),
    (
        Spot::MessageOpen,
        &[],
        Side::Here,
        b"`(` is wanted here: message NAME(field: type, ..)",
    ),
    (
        Spot::FirstField,
        TYPE,
        Side::Here,
        b"this word is a type, and no name of a field: NAME: int or NAME: text",
    ),
    (
        Spot::FirstField,
        KEYWORD,
        Side::Here,
        b"this word is a keyword, and no name of a field",
    ),
    (
        Spot::FirstField,
        &[],
        Side::Here,
        b"a field or `)` is wanted here: message NAME(field: type, ..)",
    ),
    (
        Spot::Field,
        TYPE,
        Side::Here,
        b"this word is a type, and no name of a field: NAME: int or NAME: text",
    ),
    (
        Spot::Field,
        KEYWORD,
        Side::Here,
        b"this word is a keyword, and no name of a field",
    ),
    (
        Spot::Field,
        &[],
        Side::Here,
        b"a field is wanted here: NAME: int or NAME: text",
    ),
    (
        Spot::Colon,
        &[],
        Side::Behind,
        b"`:` and the type are missing here: NAME: int or NAME: text",
    ),
    (
        Spot::Type,
        &[],
        Side::Here,
        b"the types are `int` and `text`",
    ),
    (
        Spot::BehindField,
        &[],
        Side::Here,
        b"`,` and a further field, or `)`, is wanted here",
    ),
];

// Of actors.
pub const ACTORS: &[Row] = &[
    (
        Spot::ActorName,
        KEYWORD,
        Side::Here,
        b"this word is a keyword, and no name",
    ),
    (
        Spot::ActorName,
        &[],
        Side::Here,
        b"the name of the actor is wanted here",
    ),
    (
        Spot::ActorOpen,
        &[],
        Side::Here,
        b"`{` is wanted here: actor NAME { when .. }",
    ),
    (
        Spot::Definition,
        STATEMENT,
        Side::Here,
        b"a statement stands in the braces of a definition: when KIND(..) { .. }",
    ),
    (
        Spot::Definition,
        &[Sight::Mark(Mark::Actor)],
        Side::Behind,
        b"the `}` of the actor is missing here",
    ),
    (
        Spot::Definition,
        &[Sight::Mark(Mark::Message)],
        Side::Behind,
        b"the `}` of the actor is missing here: messages are declared outside of actors",
    ),
    (
        Spot::Definition,
        SEMICOLON,
        Side::Here,
        b"`;` ends a statement, and nothing else",
    ),
    (
        Spot::Definition,
        &[],
        Side::Here,
        b"`when` of a definition, or the `}` of the actor, is wanted here",
    ),
];

// Of the heads of definitions.
pub const HEADS: &[Row] = &[
    (
        Spot::PatternKind,
        KEYWORD,
        Side::Here,
        b"this word is a keyword, and no kind of message",
    ),
    (
        Spot::PatternKind,
        &[],
        Side::Here,
        b"a pattern is wanted here: KIND(variable, ..)",
    ),
    (
        Spot::PatternOpen,
        &[],
        Side::Here,
        b"`(` is wanted here: KIND(variable, ..) with a variable or `_` for each field",
    ),
    (
        Spot::FirstVariable,
        KEYWORD,
        Side::Here,
        b"this word is a keyword, and no variable",
    ),
    (
        Spot::FirstVariable,
        VALUE,
        Side::Here,
        b"a pattern has variables alone: name one here, and compare it behind `if`",
    ),
    (
        Spot::FirstVariable,
        &[],
        Side::Here,
        b"a variable, `_` or `)` is wanted here",
    ),
    (
        Spot::Variable,
        KEYWORD,
        Side::Here,
        b"this word is a keyword, and no variable",
    ),
    (
        Spot::Variable,
        VALUE,
        Side::Here,
        b"a pattern has variables alone: name one here, and compare it behind `if`",
    ),
    (
        Spot::Variable,
        &[],
        Side::Here,
        b"a variable or `_` is wanted here",
    ),
    (
        Spot::BehindVariable,
        RELATION,
        Side::Here,
        b"conditions stand behind `if`: when KIND(x) if x == 1",
    ),
    (
        Spot::BehindVariable,
        &[Sight::Mark(Mark::Colon)],
        Side::Here,
        b"a pattern has no types: name the variables alone",
    ),
    (
        Spot::BehindVariable,
        &[],
        Side::Here,
        b"`,` and a further variable, or `)`, is wanted here",
    ),
    (
        Spot::BehindPattern,
        &[
            Sight::Mark(Mark::And),
            Sight::Mark(Mark::Comma),
            Sight::Mark(Mark::Or),
            Sight::Name,
        ],
        Side::Here,
        b"patterns are joined by `&`: when KIND(..) & KIND(..)",
    ),
    (
        Spot::BehindPattern,
        STATEMENT,
        Side::Behind,
        b"the `{` of the body is missing here",
    ),
    (
        Spot::BehindPattern,
        &[],
        Side::Here,
        b"`&` and a pattern, `within`, `if` or the `{` of the body is wanted here",
    ),
    (
        Spot::Window,
        &[],
        Side::Here,
        b"a number is wanted here: within 20",
    ),
    (
        Spot::BehindWindow,
        &[Sight::Mark(Mark::With)],
        Side::Here,
        b"`within` stands behind all patterns",
    ),
    (
        Spot::BehindWindow,
        STATEMENT,
        Side::Behind,
        b"the `{` of the body is missing here",
    ),
    (
        Spot::BehindWindow,
        &[],
        Side::Here,
        b"`if` or the `{` of the body is wanted here",
    ),
];
