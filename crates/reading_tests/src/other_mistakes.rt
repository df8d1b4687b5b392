//! Mistakes in feeds, logs and words, and what a person is told of each.
use crate::script_mistakes::Mistake;

// A script for feeds.
const SCRIPT: &[u8] =
    b"message a(x: int) message say(s: text) message motion(room: text, t: int) actor m { when a(x) { } }";

// Mistakes in feeds of that script.
const FEEDS: &[Mistake] = &[
    (
        b"x,a,1\n",
        b"refused feed 1 row 1 UnknownActor\n",
        b"home:1: row 1: UnknownActor: the first field is no actor's name (there is no line of headings, and blanks count): \"x\"\n",
    ),
    (
        b"actor,kind,x\nm,a,1\n",
        b"refused feed 1 row 1 UnknownActor\n",
        b"home:1: row 1: UnknownActor: the first field is no actor's name (there is no line of headings, and blanks count): \"actor\"\n",
    ),
    (
        b"m,a,1\n m,a,1\n",
        b"refused feed 1 row 2 UnknownActor\n",
        b"home:2: row 2: UnknownActor: the first field is no actor's name (there is no line of headings, and blanks count): \" m\"\n",
    ),
    (
        b"m;a;1\n",
        b"refused feed 1 row 1 UnknownActor\n",
        b"home:1: row 1: UnknownActor: commas stand between the fields of a row, and the first one is no actor's name: \"m;a;1\"\n",
    ),
    (
        b"m,z,1\n",
        b"refused feed 1 row 1 UnknownMessage\n",
        b"home:1: row 1: UnknownMessage: the second field is no message's name (blanks count): \"z\"\n",
    ),
    (
        b"m, a,1\n",
        b"refused feed 1 row 1 UnknownMessage\n",
        b"home:1: row 1: UnknownMessage: the second field is no message's name (blanks count): \" a\"\n",
    ),
    (
        b"m\n",
        b"refused feed 1 row 1 WrongCount\n",
        b"home:1: row 1: WrongCount: a row has an actor, a message and its values: ACTOR,MESSAGE,VALUE,..\n",
    ),
    (
        b"m,a\n",
        b"refused feed 1 row 1 WrongCount\n",
        b"home:1: row 1: WrongCount: message a has 1 field, and behind its name 0 values stand\n",
    ),
    (
        b"m,motion,hall, 3,7\n",
        b"refused feed 1 row 1 WrongCount\n",
        b"home:1: row 1: WrongCount: message motion has 2 fields, and behind its name 3 values stand\n",
    ),
    (
        b"m,a,1,2\n",
        b"refused feed 1 row 1 WrongCount\n",
        b"home:1: row 1: WrongCount: message a has 1 field, and behind its name 2 values stand\n",
    ),
    (
        b"m,motion,hall\n",
        b"refused feed 1 row 1 WrongCount\n",
        b"home:1: row 1: WrongCount: message motion has 2 fields, and behind its name 1 value stands\n",
    ),
    (
        b"m\ta\t1\n",
        b"refused feed 1 row 1 UnknownActor\n",
        b"home:1: row 1: UnknownActor: commas stand between the fields of a row, and the first one is no actor's name: \"m\ta\t1\"\n",
    ),
    (
        b"m,a,+1\n",
        b"refused feed 1 row 1 BadInt\n",
        b"home:1: row 1: BadInt: field 3 of the row, x of a, is an int: a whole number of 64 bits, as 7 or -7, without blanks, and not \"+1\"\n",
    ),
    (
        b"m,motion,hall,12.5\n",
        b"refused feed 1 row 1 BadInt\n",
        b"home:1: row 1: BadInt: field 4 of the row, t of motion, is an int: a whole number of 64 bits, as 7 or -7, without blanks, and not \"12.5\"\n",
    ),
    (
        b"m,a, 7\n",
        b"refused feed 1 row 1 BadInt\n",
        b"home:1: row 1: BadInt: field 3 of the row, x of a, is an int: a whole number of 64 bits, as 7 or -7, without blanks, and not \" 7\"\n",
    ),
    (
        b"m,a,\n",
        b"refused feed 1 row 1 BadInt\n",
        b"home:1: row 1: BadInt: field 3 of the row, x of a, is an int: a whole number of 64 bits, as 7 or -7, without blanks, and not \"\"\n",
    ),
    (
        b"m,a,9223372036854775808\n",
        b"refused feed 1 row 1 BadInt\n",
        b"home:1: row 1: BadInt: field 3 of the row, x of a, is an int: a whole number of 64 bits, as 7 or -7, without blanks, and not \"9223372036854775808\"\n",
    ),
    (
        b"m,say,\xFF\n",
        b"refused feed 1 row 1 NotText\n",
        b"home:1: row 1: NotText: field 3 of the row, s of say, is a text, and here it is not UTF-8\n",
    ),
    (
        b"m,say,ttttttttttttttttttttttttttttttttttttttttttttttttttttttttttttttttttttttttttttttttttttttttttttttttttttttttttttttttttttttttt\n",
        b"refused feed 1 row 1 TooLong\n",
        b"home:1: row 1: TooLong: field 3 of the row, s of say, is a text of at most 120 bytes, and here are 121\n",
    ),
    (
        b"\n\nm,a,1\n\nm,a,x\n",
        b"refused feed 1 row 2 BadInt\n",
        b"home:5: row 2: BadInt: field 3 of the row, x of a, is an int: a whole number of 64 bits, as 7 or -7, without blanks, and not \"x\"\n",
    ),
];

// Mistakes in logs.
const LOGS: &[Mistake] = &[
    (
        b"joinlog 3 arrivals 5 partials 6 feeds 1\nactor m\n",
        b"refused log line 1 LogFault\n",
        b"home:1: LogFault: logs of versions 1 and 2 are read\n",
    ),
    (
        b"actor m\n",
        b"refused log line 1 LogFault\n",
        b"home:1: LogFault: a log begins with its head: joinlog 2 arrivals N partials N feeds N\n",
    ),
    (
        b"joinlog 2 arrivals 5 partials 6 feeds 1\nactor z\n",
        b"refused log line 2 LogFault\n",
        b"home:2: LogFault: no log of this script goes on like this\n",
    ),
    (
        b"joinlog 2 arrivals 5 partials 6 feeds 1\nactor m\n1 at 1 from fe",
        b"refused log line 3 LogFault\n",
        b"home:3: LogFault: the log ends within this line\n",
    ),
    (
        b"joinlog 2 arrivals 5 partials 6 feeds 1\nactor m\n",
        b"refused log line 3 LogFault\n",
        b"home:3: LogFault: the log ends too early\n",
    ),
    (
        b"joinlog 2 arrivals 5 partials 6 feeds 1\x0D\nactor m\x0D\n",
        b"refused log line 1 LogFault\n",
        b"home:1: LogFault: the line ends in a carriage return, and a log has none\n",
    ),
    (
        b"joinlog 2 arrivals 5 partials 6 feeds 1\nactor m\nend running left 1 partials 1\n",
        b"refused log line 3 Differs\n",
        b"home:3: Differs: the actors of this script do something else with these arrivals\n",
    ),
];

/// Words with a space between them, and what is told of them.
pub type Words = (&'static str, &'static str);

// Mistakes on the command line.
const WORDS: &[Words] = &[
    (
        "",
        "joinactors: no command is given, or a word of it is not UTF-8\n",
    ),
    ("rum s f", "joinactors: rum is no command\n"),
    ("--help", "joinactors: these are the commands\n"),
    ("s f", "joinactors: s is no command\n"),
    (
        "run",
        "joinactors: run: a script and 1 to 16 feeds are wanted, and there are 0 words\n",
    ),
    (
        "run s",
        "joinactors: run: a script and 1 to 16 feeds are wanted, and there is 1 word\n",
    ),
    (
        "run s f --worker 3",
        "joinactors: --worker is no option of run\n",
    ),
    (
        "run s f -w 3",
        "joinactors: -w is no option of run, and behind -- a word is a file\n",
    ),
    (
        "run s f --workers",
        "joinactors: --workers: a number from 1 to 64 is wanted behind it\n",
    ),
    (
        "run s f --workers 65",
        "joinactors: --workers: a number from 1 to 64 is wanted, and not 65\n",
    ),
    (
        "run s f --workers=",
        "joinactors: --workers: a number from 1 to 64 is wanted, and not \"\"\n",
    ),
    (
        "run --ring +5 s f",
        "joinactors: --ring: a number from 1 to 4096 is wanted, and not +5\n",
    ),
    (
        "run --arrivals 5 --arrivals=5 s f",
        "joinactors: --arrivals is given twice\n",
    ),
    (
        "run --partials 0 s f",
        "joinactors: --partials: a number from 1 to 1000000 is wanted, and not 0\n",
    ),
    (
        "watch --monitors 9 s f",
        "joinactors: --monitors: a number from 1 to 8 is wanted, and not 9\n",
    ),
    (
        "run --monitors 2 s f",
        "joinactors: --monitors is no option of run\n",
    ),
    (
        "run --workers s f",
        "joinactors: --workers: a number from 1 to 64 is wanted, and not s\n",
    ),
    (
        "run --pool other s f",
        "joinactors: --pool: queue or steal is wanted, and not other\n",
    ),
    (
        "run s f --pool",
        "joinactors: --pool: queue or steal is wanted behind it\n",
    ),
    (
        "ask --pool steal s f",
        "joinactors: --pool is no option of ask\n",
    ),
    (
        "check",
        "joinactors: check: one script is wanted, and there are 0 words\n",
    ),
    (
        "check s f",
        "joinactors: check: one script is wanted, and there are 2 words\n",
    ),
    (
        "check --workers 2 s",
        "joinactors: check has no options, and --workers begins like one\n",
    ),
    (
        "lint s t",
        "joinactors: lint: one script is wanted, and there are 2 words\n",
    ),
    (
        "replay s",
        "joinactors: replay: a script and a log are wanted, and there is 1 word\n",
    ),
    (
        "replay s l m",
        "joinactors: replay: a script and a log are wanted, and there are 3 words\n",
    ),
    (
        "load",
        "joinactors: load: a number from 1 to 20000 is wanted, and there are 0 words\n",
    ),
    (
        "load 20001",
        "joinactors: load: a number from 1 to 20000 is wanted, and not 20001\n",
    ),
    (
        "load --workers 2 3",
        "joinactors: load has no options, and --workers begins like one\n",
    ),
    (
        "run s f g h i j k l m n o p q r s t u v",
        "joinactors: run: a script and 1 to 16 feeds are wanted, and there are 18 words\n",
    ),
];

/// A script for feeds.
pub fn script_of_feeds() -> &'static [u8] {
    SCRIPT
}

/// Mistakes in feeds of that script.
pub fn feeds_in_fault() -> &'static [Mistake] {
    FEEDS
}

/// Mistakes in logs.
pub fn logs_in_fault() -> &'static [Mistake] {
    LOGS
}

/// Mistakes on the command line.
pub fn words_in_fault() -> &'static [Words] {
    WORDS
}
