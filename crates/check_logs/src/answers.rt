//! Logs of two actors that answer each other, of both versions.

use crate::answer::Answer;
use crate::table::{DIGITS, Expected, LEADING, Line, Log, MarkedByte, Wanted};

// Two actors that answer each other.
const SCRIPT: &str =
    "message ping(n: int) actor p { when ping(n) { post q ping(n + 1); } } actor q { when ping(n) { post p ping(n + 1); } }";

// The lines that both versions have, of the first actor and of the second.
const FIRST_ACTOR: Line = Line {
    text: "actor p",
    marks: ".......",
    dropped: Answer::Bad(2),
    doubled: Answer::Bad(3),
    exchanged: Answer::Bad(2),
};

const FIRST_FIRES: Line = Line {
    text: "fire rule 1 take 1",
    marks: "..........n......n",
    dropped: Answer::Bad(4),
    doubled: Answer::Bad(5),
    exchanged: Answer::Bad(4),
};

const FIRST_POSTS: Line = Line {
    text: "post q ping(1)",
    marks: ".....o......n.",
    dropped: Answer::Differs(5),
    doubled: Answer::Differs(6),
    exchanged: Answer::Bad(6),
};

const FIRST_IS_LATE: Line = Line {
    text: "late actor q 1",
    marks: "...........o.s",
    dropped: Answer::Differs(6),
    doubled: Answer::Bad(7),
    exchanged: Answer::Bad(7),
};

const FIRST_ENDS: Line = Line {
    text: "end spent left - partials 1",
    marks: "...............n..........n",
    dropped: Answer::Bad(7),
    doubled: Answer::Bad(8),
    exchanged: Answer::Bad(7),
};

const SECOND_ACTOR: Line = Line {
    text: "actor q",
    marks: ".......",
    dropped: Answer::Bad(8),
    doubled: Answer::Bad(9),
    exchanged: Answer::Bad(8),
};

const SECOND_FIRES: Line = Line {
    text: "fire rule 1 take 1",
    marks: "..........n......n",
    dropped: Answer::Bad(10),
    doubled: Answer::Bad(11),
    exchanged: Answer::Bad(10),
};

const SECOND_POSTS: Line = Line {
    text: "post p ping(2)",
    marks: ".....o......n.",
    dropped: Answer::Differs(11),
    doubled: Answer::Differs(12),
    exchanged: Answer::Bad(12),
};

const SECOND_ENDS: Line = Line {
    text: "end running left - partials 1",
    marks: ".................n..........n",
    dropped: Answer::Bad(12),
    doubled: Answer::Bad(13),
    exchanged: Answer::Bad(12),
};

// A log of version 1 with room for one arrival, where a `ping` came from a feed.
const LINES_1: &[Line] = &[
    Line {
        text: "joinlog 1 arrivals 1 partials 65536 feeds 1",
        marks: "........v..........a..........fdddd.......f",
        dropped: Answer::Bad(1),
        doubled: Answer::Bad(2),
        exchanged: Answer::Bad(1),
    },
    FIRST_ACTOR,
    Line {
        text: "1 from feed 1 ping(0)",
        marks: "n..................p.",
        dropped: Answer::Bad(3),
        doubled: Answer::Differs(4),
        exchanged: Answer::Bad(3),
    },
    FIRST_FIRES,
    FIRST_POSTS,
    FIRST_IS_LATE,
    FIRST_ENDS,
    SECOND_ACTOR,
    Line {
        text: "1 from actor p ping(1)",
        marks: "n............o......n.",
        dropped: Answer::Bad(9),
        doubled: Answer::Differs(10),
        exchanged: Answer::Bad(9),
    },
    SECOND_FIRES,
    SECOND_POSTS,
    SECOND_ENDS,
];

// The same in version 2.
const LINES_2: &[Line] = &[
    Line {
        text: "joinlog 2 arrivals 1 partials 65536 feeds 1",
        marks: "........w..........a..........fdddd.......f",
        dropped: Answer::Bad(1),
        doubled: Answer::Bad(2),
        exchanged: Answer::Bad(1),
    },
    FIRST_ACTOR,
    Line {
        text: "1 at 1 from feed 1 ping(0)",
        marks: "n....s..................p.",
        dropped: Answer::Bad(3),
        doubled: Answer::Differs(4),
        exchanged: Answer::Bad(3),
    },
    FIRST_FIRES,
    FIRST_POSTS,
    FIRST_IS_LATE,
    FIRST_ENDS,
    SECOND_ACTOR,
    Line {
        text: "1 at 2 from actor p ping(1)",
        marks: "n....s............o......n.",
        dropped: Answer::Bad(9),
        doubled: Answer::Differs(10),
        exchanged: Answer::Bad(9),
    },
    SECOND_FIRES,
    SECOND_POSTS,
    SECOND_ENDS,
];

const MARKS: &[MarkedByte] = &[
    // The arrivals of version 2 have another form.
    (b'v', b"2", Wanted::Bad(3)),
    // So do those of version 1.
    (b'w', b"1", Wanted::Bad(3)),
    // With room for another arrival the actor runs on, and nothing is late.
    (b'a', LEADING, Wanted::Differs(6)),
    // Another limit is another number, and the run the same.
    (b'f', LEADING, Wanted::Accepted(2)),
    (b'd', DIGITS, Wanted::Accepted(2)),
    // Another value comes from the feed, and is posted.
    (b'p', DIGITS, Wanted::Differs(5)),
    // A post, and an arrival from an actor, is the post of the firing. Other numbers follow from the arrivals.
    (b'n', DIGITS, Wanted::DiffersHere),
    // The other actor.
    (b'o', b"pq", Wanted::DiffersHere),
    // A stamp is at least 1 and follows from those before it and from the post. A late count is above 0.
    (b's', LEADING, Wanted::DiffersHere),
];

// What an actor posts, and how many posts come too late, is made again. A post arrives as it was read.
const EXPECTED_1: &[Expected] = &[
    ((5, "post q ping(4)"), &[]),
    ((6, "late actor q 9"), &[]),
    ((12, "end stopped left 1 partials 2"), &[]),
    (
        (9, "1 from actor p ping(6)"),
        &[(9, "1 from actor p ping(6)"), (11, "post p ping(7)")],
    ),
];

// A post has the stamp that was read at the arrival that made it.
const EXPECTED_2: &[Expected] = &[
    ((9, "1 at 1 from actor p ping(1)"), &[]),
    (
        (3, "1 at 4 from feed 1 ping(0)"),
        &[(9, "1 at 5 from actor p ping(1)")],
    ),
];

const VERSIONS: &[Log] = &[
    Log {
        name: "answers, version 1",
        script: SCRIPT,
        arrivals: 2,
        lines: LINES_1,
        marks: MARKS,
        replaced: &[],
        expected: EXPECTED_1,
    },
    Log {
        name: "answers, version 2",
        script: SCRIPT,
        arrivals: 2,
        lines: LINES_2,
        marks: MARKS,
        replaced: &[],
        expected: EXPECTED_2,
    },
];

/// The logs of answers.
pub fn logs() -> &'static [Log] {
    VERSIONS
}
