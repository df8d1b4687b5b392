//! The files of the requests.
use crate::calls::File;

// The parts of a log of version 2 and of one feed, in which m takes two messages. Its second arrival and what it prints
// stand between them.
const TO_THE_SECOND: &[u8] = b"joinlog 2 arrivals 50000 partials 65536 feeds 1\n\
    actor m\n\
    1 at 1 from feed 1 a(1)\n";

const FIRED: &[u8] = b"fire rule 1 take 1,2\n";

const FROM_THE_END: &[u8] = b"end running left - partials 1\n\
    actor n\n\
    1 at 1 from feed 1 a(9)\n\
    end running left 1 partials 0\n";

const SECOND: &[u8] = b"2 at 2 from feed 1 b(2)\n";

// In the log `twice` both a value and what was printed of it are changed, and in `once` the printed one alone.
pub const FILES: &[File<'static>] = &[
    (
        "s",
        &[
            b"message a(x: int) message b(x: int) actor m { when a(x) & b(y) { print \"hit \" x y; } } actor n { }",
        ],
    ),
    ("f", &[b"n,a,9\nm,a,1\nm,b,2\n"]),
    ("longer", &[b"n,a,9\nm,a,1\nn,a,8\nm,b,2\nm,a,3\n"]),
    ("shorter", &[b"n,a,9\nm,a,1\n"]),
    ("empty", &[]),
    ("other", &[b"k,a,1\n"]),
    (
        "log",
        &[
            TO_THE_SECOND,
            SECOND,
            FIRED,
            b"print \"hit 12\"\n",
            FROM_THE_END,
        ],
    ),
    (
        "twice",
        &[
            TO_THE_SECOND,
            b"2 at 2 from feed 1 b(3)\n",
            FIRED,
            b"print \"hit 13\"\n",
            FROM_THE_END,
        ],
    ),
    (
        "once",
        &[
            TO_THE_SECOND,
            SECOND,
            FIRED,
            b"print \"hit 13\"\n",
            FROM_THE_END,
        ],
    ),
];
