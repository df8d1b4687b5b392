//! What could stand in bodies and in terms.
use crate::sights::{
    BRACE, COMMA, DECLARATION, KEYWORD, OPEN, RELATION, Row, SEMICOLON, SIGN, STATEMENT, Side,
};
use crate::spot::{Part, Sight, Spot};
use script_tokens::Mark;

// Of statements.
pub const BODIES: &[Row] = &[
    (
        Spot::Statement,
        DECLARATION,
        Side::Behind,
        b"the `}` of the body is missing here",
    ),
    (
        Spot::Statement,
        SEMICOLON,
        Side::Here,
        b"there is no statement in front of this `;`",
    ),
    (
        Spot::Statement,
        &[Sight::Mark(Mark::If)],
        Side::Here,
        b"a body has no `if`: write a definition for each case",
    ),
    (
        Spot::Statement,
        &[],
        Side::Here,
        b"a statement is wanted here: print .., post ACTOR KIND(..), reply NUMBER value or stop; or the `}` of the body",
    ),
    (
        Spot::FirstItem,
        &[Sight::Number, Sight::Mark(Mark::Minus)],
        Side::Here,
        b"a number or a sum in a print stands in parentheses: print \"until \" (t + 300);",
    ),
    (
        Spot::FirstItem,
        &[],
        Side::Here,
        b"a text in double quotes, a variable or a sum in parentheses is wanted here",
    ),
    (
        Spot::Item,
        &[
            Sight::Number,
            Sight::Mark(Mark::Plus),
            Sight::Mark(Mark::Minus),
        ],
        Side::Here,
        b"a number or a sum in a print stands in parentheses: print \"until \" (t + 300);",
    ),
    (
        Spot::Item,
        COMMA,
        Side::Here,
        b"the items of a print stand one behind the other, without `,`",
    ),
    (Spot::Item, &[], Side::Behind, b"`;` is missing here"),
    (
        Spot::Target,
        &[],
        Side::Here,
        b"the name of an actor is wanted here: post ACTOR KIND(..);",
    ),
    (
        Spot::PostKind,
        OPEN,
        Side::Here,
        b"a post names the actor and then the kind: post ACTOR KIND(..);",
    ),
    (
        Spot::PostKind,
        &[],
        Side::Here,
        b"the kind of the message is wanted here: post ACTOR KIND(..);",
    ),
    (
        Spot::PostOpen,
        &[],
        Side::Here,
        b"`(` is wanted here: post ACTOR KIND(..);",
    ),
    (
        Spot::FirstValue,
        OPEN,
        Side::Here,
        b"a sum has no parentheses here: post ACTOR KIND(x + 1);",
    ),
    (
        Spot::FirstValue,
        &[],
        Side::Here,
        b"a value or `)` is wanted here: a text in double quotes, a variable, a number or a sum",
    ),
    (Spot::BehindPost, &[], Side::Behind, b"`;` is missing here"),
    (Spot::BehindStop, &[], Side::Behind, b"`;` is missing here"),
    (
        Spot::ReplyNumber,
        &[],
        Side::Here,
        b"the number of a pattern, counted from 1, is wanted here: reply NUMBER value;",
    ),
];

// Of terms that begin, or go on behind a sign.
pub const BEGINNINGS: &[(Part, &[Sight], &[u8])] = &[
    (
        Part::Left,
        KEYWORD,
        b"this word is a keyword, and no variable",
    ),
    (
        Part::Left,
        BRACE,
        b"a comparison is missing in front of this",
    ),
    (
        Part::Left,
        &[Sight::Mark(Mark::Not), Sight::Mark(Mark::Open)],
        b"at most 32 `!` and `(` stand over a comparison",
    ),
    (
        Part::Left,
        &[],
        b"a comparison is wanted here: x == y, x + 1 < 5 or place == \"hall\"",
    ),
    (
        Part::Right,
        OPEN,
        b"a sum has no parentheses: write x - y + 1, and not x - (y - 1)",
    ),
    (
        Part::Right,
        &[],
        b"the right side of the comparison is wanted here: a text, a variable, a number or a sum",
    ),
    (
        Part::Item,
        &[Sight::Quoted],
        b"a text in a print stands without parentheses",
    ),
    (
        Part::Item,
        &[],
        b"a number or a variable is wanted here: print \"until \" (t + 300);",
    ),
    (
        Part::Reply,
        &[],
        b"the value of the reply is wanted here: reply NUMBER value;",
    ),
    (
        Part::Value,
        OPEN,
        b"a sum has no parentheses here: post ACTOR KIND(x + 1);",
    ),
    (
        Part::Value,
        &[],
        b"a value is wanted here: a text in double quotes, a variable, a number or a sum",
    ),
];

pub const LEAVES: &[(&[Sight], &[u8])] = &[
    (
        OPEN,
        b"a sum has no parentheses: write x - y + 1, and not x - (y - 1)",
    ),
    (
        &[Sight::Quoted],
        b"texts are not added, and `-` stands before integers alone",
    ),
    (SIGN, b"one sign stands in front of a number or a variable"),
    (&[], b"a number or a variable is wanted here"),
];

// Behind whole terms.
pub const ENDINGS: &[(Part, &[Sight], Side, &[u8])] = &[
    (
        Part::Left,
        &[
            Sight::Mark(Mark::OpenBrace),
            Sight::Mark(Mark::Close),
            Sight::Mark(Mark::And),
            Sight::Mark(Mark::Or),
        ],
        Side::Behind,
        b"a comparison has two sides: x == 1 or place == \"hall\"",
    ),
    (
        Part::Left,
        &[Sight::Name],
        Side::Here,
        b"`==`, `!=`, `<`, `<=`, `>` or `>=` is wanted here, and `not` is written `!`: !(x == y)",
    ),
    (
        Part::Left,
        &[],
        Side::Here,
        b"`==`, `!=`, `<`, `<=`, `>` or `>=` and the other side of the comparison is wanted here",
    ),
    (
        Part::Right,
        RELATION,
        Side::Here,
        b"a comparison has two sides: write 1 < x && x < 5, and not 1 < x < 5",
    ),
    (
        Part::Right,
        &[Sight::Mark(Mark::With)],
        Side::Here,
        b"conditions are joined by `&&`, and patterns by `&`",
    ),
    (
        Part::Right,
        &[Sight::Mark(Mark::Comma), Sight::Name],
        Side::Here,
        b"conditions are joined by `&&` and `||`",
    ),
    (
        Part::Right,
        &[Sight::Mark(Mark::Within)],
        Side::Here,
        b"`within` stands before `if`: when KIND(..) within 20 if ..",
    ),
    (
        Part::Right,
        &[Sight::Mark(Mark::And)],
        Side::Here,
        b"`&&` stands in no parentheses: write (p && q) || r as p || r && q || r",
    ),
    (
        Part::Right,
        BRACE,
        Side::Behind,
        b"the `)` of a parenthesis is missing here",
    ),
    (
        Part::Right,
        &[Sight::Mark(Mark::Close)],
        Side::Here,
        b"this `)` is one too many",
    ),
    (
        Part::Right,
        STATEMENT,
        Side::Behind,
        b"the `{` of the body is missing here",
    ),
    (
        Part::Right,
        &[],
        Side::Here,
        b"`&&`, `||` or the `{` of the body is wanted here",
    ),
    (
        Part::Item,
        &[],
        Side::Here,
        b"the `)` of the sum is wanted here: print \"until \" (t + 300);",
    ),
    (
        Part::Value,
        &[],
        Side::Here,
        b"`,` and a further value, or `)`, is wanted here",
    ),
    (Part::Reply, &[], Side::Behind, b"`;` is missing here"),
];
