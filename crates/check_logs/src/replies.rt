//! A log of an actor that replies.

use crate::answer::Answer;
use crate::table::{DIGITS, Expected, LEADING, Line, Log, MarkedByte, PLAIN, Wanted};

// One actor that replies to the first message and prints a part of it.
const SCRIPT: &str =
    "message ask(s: text, n: int) actor m { when ask(s, n) { reply 1 s; print n; stop; } }";

// The lines of its log, where two rows came too late. Its plan has no log of version 1.
const LINES: &[Line] = &[
    Line {
        text: "joinlog 2 arrivals 50000 partials 65536 feeds 1",
        marks: "...................fdddd..........fdddd.......f",
        dropped: Answer::Bad(1),
        doubled: Answer::Bad(2),
        exchanged: Answer::Bad(1),
    },
    Line {
        text: "actor m",
        marks: ".......",
        dropped: Answer::Bad(2),
        doubled: Answer::Bad(3),
        exchanged: Answer::Bad(2),
    },
    Line {
        text: "1 at 1 from feed 1 ask(\"ab\",-5)",
        marks: "n....s..................xx..ii.",
        dropped: Answer::Bad(3),
        doubled: Answer::Differs(4),
        exchanged: Answer::Bad(3),
    },
    Line {
        text: "fire rule 1 take 1",
        marks: "..........n......n",
        dropped: Answer::Bad(4),
        doubled: Answer::Bad(5),
        exchanged: Answer::Bad(4),
    },
    Line {
        text: "reply 1 \"ab\"",
        marks: "......n..tt.",
        dropped: Answer::Differs(5),
        doubled: Answer::Differs(6),
        exchanged: Answer::Differs(5),
    },
    Line {
        text: "print \"-5\"",
        marks: ".......tt.",
        dropped: Answer::Differs(6),
        doubled: Answer::Differs(7),
        exchanged: Answer::Bad(7),
    },
    Line {
        text: "late feed 1 2",
        marks: "............l",
        dropped: Answer::Accepted(1),
        doubled: Answer::Bad(8),
        exchanged: Answer::Bad(8),
    },
    Line {
        text: "end stopped left - partials 1",
        marks: ".................n..........n",
        dropped: Answer::Bad(8),
        doubled: Answer::Bad(9),
        exchanged: Answer::Bad(8),
    },
];

const MARKS: &[MarkedByte] = &[
    // A limit is another number, and the run the same.
    (b'f', LEADING, Wanted::Accepted(1)),
    (b'd', DIGITS, Wanted::Accepted(1)),
    // The numbers of arrivals, of a firing, of what is left and of partial matches follow from the arrivals.
    (b'n', DIGITS, Wanted::DiffersHere),
    // A stamp is at least 1.
    (b's', LEADING, Wanted::DiffersHere),
    // Another text comes, and is the reply.
    (b'x', PLAIN, Wanted::Differs(5)),
    // Another number comes, and is printed. It does not begin with 0.
    (b'i', LEADING, Wanted::Differs(6)),
    // Another text is the reply or printed.
    (b't', PLAIN, Wanted::DiffersHere),
    // Of what came too late from a feed nothing but the count is known, which is above 0.
    (b'l', LEADING, Wanted::Accepted(1)),
];

// The late counts of feeds are taken as they were read.
const EXPECTED: &[Expected] = &[
    ((5, "reply 2 \"b\""), &[]),
    ((6, "print \"-6\""), &[]),
    ((7, "late feed 1 9"), &[(7, "late feed 1 9")]),
    ((8, "end running left 1 partials 0"), &[]),
];

const ONE: &[Log] = &[Log {
    name: "replies",
    script: SCRIPT,
    arrivals: 1,
    lines: LINES,
    marks: MARKS,
    replaced: &[],
    expected: EXPECTED,
}];

/// The log of replies.
pub fn logs() -> &'static [Log] {
    ONE
}
