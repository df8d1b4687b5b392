//! Logs of an actor that prints pairs, of both versions.

use crate::answer::Answer;
use crate::table::{DIGITS, Expected, LEADING, Line, Log, MarkedByte, PLAIN, Replaced, Wanted};

// One actor that prints pairs.
const SCRIPT: &str =
    "message a(x: int) message b(x: int) actor m { when a(x) & b(y) { print \"hit \" x y; } }";

// The lines that both versions have.
const ACTOR: Line = Line {
    text: "actor m",
    marks: ".......",
    dropped: Answer::Bad(2),
    doubled: Answer::Bad(3),
    exchanged: Answer::Bad(2),
};

const FIRES: Line = Line {
    text: "fire rule 1 take 1,2",
    marks: "..........n......ncn",
    dropped: Answer::Bad(5),
    doubled: Answer::Bad(6),
    exchanged: Answer::Bad(5),
};

const PRINTS: Line = Line {
    text: "print \"hit 12\"",
    marks: ".......tetttt.",
    dropped: Answer::Differs(6),
    doubled: Answer::Differs(7),
    exchanged: Answer::Bad(7),
};

const ENDS: Line = Line {
    text: "end running left - partials 1",
    marks: ".................n..........n",
    dropped: Answer::Bad(7),
    doubled: Answer::Bad(8),
    exchanged: Answer::Bad(7),
};

// A log of version 1, where an `a` and a `b` came.
const LINES_1: &[Line] = &[
    Line {
        text: "joinlog 1 arrivals 50000 partials 65536 feeds 1",
        marks: "........v..........fdddd..........fdddd.......f",
        dropped: Answer::Bad(1),
        doubled: Answer::Bad(2),
        exchanged: Answer::Bad(1),
    },
    ACTOR,
    Line {
        text: "1 from feed 1 a(1)",
        marks: "n.............k.p.",
        dropped: Answer::Differs(3),
        doubled: Answer::Differs(4),
        exchanged: Answer::Differs(3),
    },
    Line {
        text: "2 from feed 1 b(2)",
        marks: "n.............k.p.",
        dropped: Answer::Differs(4),
        doubled: Answer::Differs(5),
        exchanged: Answer::Bad(6),
    },
    FIRES,
    PRINTS,
    ENDS,
];

// The same in version 2.
const LINES_2: &[Line] = &[
    Line {
        text: "joinlog 2 arrivals 50000 partials 65536 feeds 1",
        marks: "........w..........fdddd..........fdddd.......f",
        dropped: Answer::Bad(1),
        doubled: Answer::Bad(2),
        exchanged: Answer::Bad(1),
    },
    ACTOR,
    Line {
        text: "1 at 1 from feed 1 a(1)",
        marks: "n....s.............k.p.",
        dropped: Answer::Differs(3),
        doubled: Answer::Differs(4),
        exchanged: Answer::Differs(3),
    },
    Line {
        text: "2 at 2 from feed 1 b(2)",
        marks: "n....s.............k.p.",
        dropped: Answer::Differs(4),
        doubled: Answer::Differs(5),
        exchanged: Answer::Bad(6),
    },
    FIRES,
    PRINTS,
    ENDS,
];

const MARKS: &[MarkedByte] = &[
    // The arrivals of version 2 have another form.
    (b'v', b"2", Wanted::Bad(3)),
    // So do those of version 1.
    (b'w', b"1", Wanted::Bad(3)),
    // A stamp is at least 1, and follows from those before it.
    (b's', LEADING, Wanted::DiffersHere),
    // A limit is another number, and the run the same.
    (b'f', LEADING, Wanted::Accepted(2)),
    (b'd', DIGITS, Wanted::Accepted(2)),
    // The numbers of arrivals, of a firing, of what is left and of partial matches follow from the arrivals.
    (b'n', DIGITS, Wanted::DiffersHere),
    // With two messages of one kind there is no firing, and the section ends in line 5.
    (b'k', b"ab", Wanted::Differs(5)),
    // Another value is printed.
    (b'p', DIGITS, Wanted::Differs(6)),
    // A firing may take one message as far as form goes: then the rest of the line is none.
    (b'c', b"\n", Wanted::BadNext),
    (b'c', DIGITS, Wanted::DiffersHere),
    // Another text is printed. `\` may stand in front of `t`.
    (b't', PLAIN, Wanted::DiffersHere),
    (b'e', PLAIN, Wanted::DiffersHere),
    (b'e', b"\\", Wanted::DiffersHere),
];

// Numbers at the bounds of their ranges and past them, and other lines than one byte makes.
const REPLACED_1: &[Replaced] = &[
    (
        1,
        "joinlog 1 arrivals 0 partials 65536 feeds 1",
        Answer::Bad(1),
    ),
    (
        1,
        "joinlog 1 arrivals 1000000 partials 65536 feeds 1",
        Answer::Accepted(2),
    ),
    (
        1,
        "joinlog 1 arrivals 1000001 partials 65536 feeds 1",
        Answer::Bad(1),
    ),
    (
        1,
        "joinlog 1 arrivals 50000 partials 1000001 feeds 1",
        Answer::Bad(1),
    ),
    (
        1,
        "joinlog 1 arrivals 50000 partials 65536 feeds 16",
        Answer::Accepted(2),
    ),
    (
        1,
        "joinlog 1 arrivals 50000 partials 65536 feeds 17",
        Answer::Bad(1),
    ),
    // There is room for the first arrival alone.
    (
        1,
        "joinlog 1 arrivals 1 partials 65536 feeds 1",
        Answer::Differs(4),
    ),
    (3, "01 from feed 1 a(1)", Answer::Bad(3)),
    (3, "4294967295 from feed 1 a(1)", Answer::Differs(3)),
    (3, "4294967296 from feed 1 a(1)", Answer::Bad(3)),
    (3, "1 from feed 2 a(1)", Answer::Bad(3)),
    (3, "1 from feed 1 a(-0)", Answer::Bad(3)),
    (
        3,
        "1 from feed 1 a(9223372036854775807)",
        Answer::Differs(6),
    ),
    (3, "1 from feed 1 a(9223372036854775808)", Answer::Bad(3)),
    // The actor sends nothing to itself.
    (3, "1 from actor m a(1)", Answer::Differs(3)),
    (5, "fire rule 1 take 2,1", Answer::Differs(5)),
    (5, "fire rule 1 take 1,2,1,2,1,2,1,2", Answer::Differs(5)),
    (5, "fire rule 1 take 1,2,1,2,1,2,1,2,1", Answer::Bad(5)),
    (6, "print \"hit 13\"", Answer::Differs(6)),
    (6, "print \"hit \\x31\"", Answer::Bad(6)),
    // Nothing is late at an actor that runs on and has room.
    (
        7,
        "late feed 1 3\nend running left - partials 1",
        Answer::Differs(7),
    ),
    (7, "end spent left - partials 1", Answer::Differs(7)),
    (
        7,
        "end running left - partials 18446744073709551615",
        Answer::Differs(7),
    ),
    (
        7,
        "end running left - partials 18446744073709551616",
        Answer::Bad(7),
    ),
    (7, "end running left - partials 1\nend", Answer::Bad(8)),
];

// What follows from the arrivals is made again, and a message that was read is taken as it is.
const EXPECTED_1: &[Expected] = &[
    ((3, "7 from feed 1 a(1)"), &[]),
    ((5, "fire rule 1 take 2,1"), &[]),
    ((6, "print \"hit 13\""), &[]),
    ((7, "late feed 1 3\nend running left - partials 1"), &[]),
    ((7, "end spent left 2 partials 9"), &[]),
    (
        (3, "1 from feed 1 a(7)"),
        &[(3, "1 from feed 1 a(7)"), (6, "print \"hit 72\"")],
    ),
];

// A stamp from a feed is one more than the one before.
const EXPECTED_2: &[Expected] = &[
    ((3, "1 at 5 from feed 1 a(1)"), &[]),
    ((4, "2 at 9 from feed 1 b(2)"), &[]),
];

const VERSIONS: &[Log] = &[
    Log {
        name: "pairs, version 1",
        script: SCRIPT,
        arrivals: 2,
        lines: LINES_1,
        marks: MARKS,
        replaced: REPLACED_1,
        expected: EXPECTED_1,
    },
    Log {
        name: "pairs, version 2",
        script: SCRIPT,
        arrivals: 2,
        lines: LINES_2,
        marks: MARKS,
        replaced: &[],
        expected: EXPECTED_2,
    },
];

/// The logs of pairs.
pub fn logs() -> &'static [Log] {
    VERSIONS
}
