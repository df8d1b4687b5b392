//! What a person is told of a fault, for each sort of fault.
use crate::other_mistakes::{
    Words, feeds_in_fault, logs_in_fault, script_of_feeds, words_in_fault,
};
use crate::script_mistakes::{
    Mistake, more_in_fault, others_in_fault, scripts_in_fault, signs_in_fault,
};
use fault_places::{
    LIMITS, NO_MEMORY, USAGE, long_note, read_note, refusal_note, refusal_note_by, unseen_note,
    words_note, write_note,
};
use join_base::{Bytes, NoMemory, Word, WordList};
use std::alloc::Global;

// A file named `home`, the line that is written of it, and what a person is told.
type Told = (&'static [u8], &'static [u8], &'static [u8]);

// Scripts with places of all forms, and what stands on the lines.
const SCRIPTS_TOLD: &[Told] = &[
    (
        b"message \xFF",
        b"refused script 8 NotText\n",
        b"home:1:9: NotText: from here on the file is not UTF-8
    message \xFF
            ^
",
    ),
    (
        b"message a(x: int) actor m { when a(x) { print \"it is open; } }",
        b"refused script 46 BadToken\n",
        b"home:1:47: BadToken: the `\"` that ends this text is missing
    message a(x: int) actor m { when a(x) { print \"it is open; } }
                                                  ^
",
    ),
    (
        b"message a(x: int) actor m { when a(x) if x > 9223372036854775808 { } }",
        b"refused script 45 BadToken\n",
        b"home:1:46: BadToken: the number is greater than 9223372036854775807
    message a(x: int) actor m { when a(x) if x > 9223372036854775808 { } }
                                                 ^
",
    ),
    (
        b"\xEF\xBB\xBFmessage a()",
        b"refused script 0 BadToken\n",
        b"home:1:1: BadToken: a byte order mark stands here; save the file without one
    \xEF\xBB\xBFmessage a()
    ^
",
    ),
    // A sign that a terminal obeys.
    (
        b"\xC2\x9B@message",
        b"refused script 0 BadToken\n",
        b"home:1:1: BadToken: outside a text in double quotes there are letters of ASCII alone
     @message
    ^
",
    ),
    // A tab stands under a tab.
    (
        b"message a(x: int)\nactor m {\n\twhen a(x) if rooom == x {\n\t}\n}\n",
        b"refused script 42 UnknownName\n",
        b"home:3:15: UnknownName: no variable of this definition has the name rooom
    \twhen a(x) if rooom == x {
    \t             ^
",
    ),
    // A letter of two bytes is one character.
    (
        b"message a(x: int)\nactor m {\n  when a(x) { print \"\xC3\xA4\" y; }\n}\n",
        b"refused script 53 UnknownName\n",
        b"home:3:25: UnknownName: no variable of this definition has the name y
      when a(x) { print \"\xC3\xA4\" y; }
                            ^
",
    ),
    // The ends of scripts, on a line and behind the last one.
    (
        b"message a(x: int)\nactor m {\n  when",
        b"refused script 34 BadSyntax\n",
        b"home:3:7: BadSyntax: the script ends too early: a pattern is wanted here: KIND(variable, ..)
      when
          ^
",
    ),
    (
        b"message a(x: int)\nactor m\n",
        b"refused script 26 BadSyntax\n",
        b"home:3:1: BadSyntax: the script ends too early: `{` is wanted here: actor NAME { when .. }
    
    ^
",
    ),
];

// Rows with quotes, empty lines, and ends of each sort, behind a byte order mark.
const ROWS: &[u8] = b"\xEF\xBB\xBFm,a,1\r\n\r\n\"m\",say,\"one\n\"\"two\"\"\"\n\n\nm,a,x\rm,b";

// Rows of all forms.
const ROWS_TOLD: &[Told] = &[
    (
        ROWS,
        b"refused feed 2 row 1 BadInt\n",
        b"home:1: row 1: BadInt: a field of type int is not a whole number of 64 bits, written like 7 or -7 without blanks
    m,a,1
",
    ),
    (
        ROWS,
        b"refused feed 2 row 2 BadInt\n",
        b"home:3: row 2: BadInt: a field of type int is not a whole number of 64 bits, written like 7 or -7 without blanks
    \"m\",say,\"one \"\"two\"\"\"
",
    ),
    (
        ROWS,
        b"refused feed 2 row 3 BadInt\n",
        b"home:7: row 3: BadInt: a field of type int is not a whole number of 64 bits, written like 7 or -7 without blanks
    m,a,x
",
    ),
    (
        ROWS,
        b"refused feed 2 row 4 BadInt\n",
        b"home:7: row 4: BadInt: a field of type int is not a whole number of 64 bits, written like 7 or -7 without blanks
    m,b
",
    ),
    (
        ROWS,
        b"refused feed 2 row 5 BadInt\n",
        b"home:7: row 5: BadInt: a field of type int is not a whole number of 64 bits, written like 7 or -7 without blanks
    
",
    ),
];

// Lines of logs, and lines that refuse no part of a file.
const LINES_TOLD: &[Told] = &[
    (
        b"joinlog 2 arrivals 5 partials 6 feeds 1\r\nactor m\r\n",
        b"refused log line 1 LogFault\n",
        b"home:1: LogFault: the line ends in a carriage return, and a log has none
    joinlog 2 arrivals 5 partials 6 feeds 1 
",
    ),
    (
        b"joinlog 2 arrivals 5 partials 6 feeds 1\nactor m\n1 at 1 from feed 1 a(7)\nend running left - partials 1\n",
        b"refused log line 4 Differs\n",
        b"home:4: Differs: the actors of this script do something else with these arrivals
    end running left - partials 1
",
    ),
    (
        b"joinlog 2 arrivals 5 partials 6 feeds 1\nactor m\n",
        b"refused log line 3 LogFault\n",
        b"home:3: LogFault: the log ends too early
",
    ),
    (
        b"",
        b"refused log line 1 LogFault\n",
        b"home:1: LogFault: the log ends too early\n",
    ),
    (b"m,a,1\n", b"refused usage\n", b""),
    (b"m,a,1\n", b"refused file 2 too long\n", b""),
    (b"m,a,1\n", b"accepted 7\n", b""),
    (b"m,a,1\n", b"", b""),
];

// Files that are gone.
const UNSEEN: &[(&[u8], &[u8])] = &[
    (
        b"refused script 163 UnknownName\n",
        b"home: byte 163: UnknownName: no variable of this definition has the name that stands here\n",
    ),
    (
        b"refused script 9 BadToken\n",
        b"home: byte 9: BadToken: no word, number, text or sign begins here, or it is too long\n",
    ),
    (
        b"refused feed 2 row 7 WrongCount\n",
        b"home: row 7: WrongCount: the row has not as many fields as its message, or names no message\n",
    ),
    (
        b"refused log line 4 LogFault\n",
        b"home:4: LogFault: no log of this script goes on like this\n",
    ),
    (b"refused usage\n", b""),
];

fn told_scripts() -> &'static [Told] {
    SCRIPTS_TOLD
}

fn told_rows() -> &'static [Told] {
    ROWS_TOLD
}

fn told_lines() -> &'static [Told] {
    LINES_TOLD
}

fn gone_files() -> &'static [(&'static [u8], &'static [u8])] {
    UNSEEN
}

// Whether this is told.
fn is_note(note: Result<Bytes, NoMemory>, want: &[u8]) -> bool {
    match note {
        Ok(note) => note.bytes() == want,
        Err(NoMemory) => false,
    }
}

// Whether what is told begins so.
fn begins_note(note: Result<Bytes, NoMemory>, want: &[u8]) -> bool {
    match note {
        Ok(note) => note.bytes().starts_with(want),
        Err(NoMemory) => false,
    }
}

// Whether each text is told of whole.
fn are_whole(alloc: Global, cases: &[Told]) -> bool {
    for (text, line, want) in cases {
        if !is_note(refusal_note(alloc, "home", text, line), want) {
            return false;
        }
    }
    true
}

// Whether what is told of each mistake begins with its line.
fn are_told(alloc: Global, mistakes: &[Mistake]) -> bool {
    for (text, line, want) in mistakes {
        if !begins_note(refusal_note(alloc, "home", text, line), want) {
            return false;
        }
    }
    true
}

// The same of feeds of the script.
fn are_rows_told(alloc: Global, script: &[u8], mistakes: &[Mistake]) -> bool {
    for (text, line, want) in mistakes {
        if !begins_note(refusal_note_by(alloc, "home", text, script, line), want) {
            return false;
        }
    }
    true
}

// The words between spaces.
fn words_in(alloc: Global, text: &str) -> Result<WordList, NoMemory> {
    let mut words = WordList::new(alloc);
    for word in text.split(' ') {
        if !word.is_empty() {
            words.push(Word::from_text(alloc, word)?)?;
        }
    }
    Ok(words)
}

fn has_usage(note: &[u8]) -> bool {
    note.ends_with(USAGE)
}

fn is_line_told(alloc: Global, text: &str, want: &str) -> Result<bool, NoMemory> {
    let words = words_in(alloc, text)?;
    let note = words_note(alloc, &words)?;
    Ok(note.bytes().starts_with(want.as_bytes()) && has_usage(note.bytes()))
}

fn are_lines_told(alloc: Global, mistakes: &[Words]) -> bool {
    for (text, want) in mistakes {
        if is_line_told(alloc, text, want) != Ok(true) {
            return false;
        }
    }
    true
}

#[test]
fn mistakes_in_words_are_told(rt: HostRuntime) {
    assert!(rt; are_lines_told(rt.alloc(), words_in_fault()));
}

#[test]
fn mistakes_in_feeds_and_logs_are_told(rt: HostRuntime) {
    let all = are_rows_told(rt.alloc(), script_of_feeds(), feeds_in_fault())
        && are_told(rt.alloc(), logs_in_fault());
    assert!(rt; all);
}

#[test]
fn mistakes_in_scripts_are_told(rt: HostRuntime) {
    let alloc = rt.alloc();
    let all = are_told(alloc, scripts_in_fault())
        && are_told(alloc, more_in_fault())
        && are_told(alloc, others_in_fault())
        && are_told(alloc, signs_in_fault());
    assert!(rt; all);
}

#[test]
fn places_rows_and_lines_are_shown(rt: HostRuntime) {
    let alloc = rt.alloc();
    let all = are_whole(alloc, told_scripts())
        && are_whole(alloc, told_rows())
        && are_whole(alloc, told_lines());
    assert!(rt; all);
}

fn are_unseen(alloc: Global, cases: &[(&[u8], &[u8])]) -> bool {
    for (line, want) in cases {
        if !is_note(unseen_note(alloc, "home", line), want) {
            return false;
        }
    }
    true
}

#[test]
fn faults_of_a_file_that_is_gone_are_told(rt: HostRuntime) {
    assert!(rt; are_unseen(rt.alloc(), gone_files()));
}

// Appends these bytes, and so many letters behind them.
fn push_letters(text: &mut Bytes, front: &[u8], count: usize) -> Result<(), NoMemory> {
    text.push_all(front)?;
    for _ in 0..count {
        text.push_all(b"k")?;
    }
    Ok(())
}

// A row of 300 bytes.
fn long_row(alloc: Global) -> Result<Bytes, NoMemory> {
    let mut row = Bytes::new(alloc);
    push_letters(&mut row, b"m,say,", 294)?;
    Ok(row)
}

// What is told of it: it ends behind 200 bytes.
fn cut_row(alloc: Global) -> Result<Bytes, NoMemory> {
    let mut told = Bytes::new(alloc);
    push_letters(
        &mut told,
        b"home:1: row 1: TooLong: a field of type text has more than 120 bytes\n    m,say,",
        194,
    )?;
    told.push_all(b"\n")?;
    Ok(told)
}

fn is_cut(alloc: Global) -> Result<bool, NoMemory> {
    let row = long_row(alloc)?;
    let want = cut_row(alloc)?;
    let line = b"refused feed 1 row 1 TooLong\n";
    Ok(is_note(refusal_note(alloc, "home", row.bytes(), line), want.bytes()))
}

#[test]
fn a_long_row_is_cut(rt: HostRuntime) {
    assert!(rt; is_cut(rt.alloc()) == Ok(true));
}

fn are_files_told(alloc: Global) -> bool {
    is_note(
        read_note(alloc, "f", "Is a directory (os error 21)"),
        b"joinactors: f: Is a directory (os error 21)\n",
    ) && is_note(
        read_note(alloc, "", "No such file or directory (os error 2)"),
        b"joinactors: \"\": No such file or directory (os error 2)\n",
    ) && is_note(
        long_note(alloc, "f", 16_777_216),
        b"joinactors: f: more than 16777216 bytes\n",
    ) && is_note(
        write_note(alloc, "Broken pipe (os error 32)"),
        b"joinactors: the output could not be written: Broken pipe (os error 32)\n",
    )
}

// The texts that stand for themselves.
const FIXED: &[(&[u8], &[u8])] = &[
    (NO_MEMORY, b"joinactors: there was not enough memory\n"),
    (
        LIMITS,
        b"joinactors: an actor ended at a limit, and what came to it later is counted as late
  end jammed: at --partials, end spent: at --arrivals
",
    ),
    (
        USAGE,
        b"usage:
  run SCRIPT FEED.. [OPTION N]..    1 to 16 feeds
  ask SCRIPT FEED.. [OPTION N]..    as run, and then the answer for each row
  watch SCRIPT FEED.. [OPTION N]..  as run, and then the totals of each actor
  check SCRIPT
  lint SCRIPT
  replay SCRIPT LOG
  load N                            N from 1 to 20000
the options of run, ask and watch, each at most once:
  --workers N     1 to 64, usually 4
  --ring N        1 to 4096, usually 64
  --arrivals N    1 to 1000000, usually 50000
  --partials N    1 to 1000000, usually 65536
  --pool P        queue or steal, usually queue; for run alone
  --monitors N    1 to 8, usually 1; for watch alone
",
    ),
];

fn fixed_texts() -> &'static [(&'static [u8], &'static [u8])] {
    FIXED
}

fn are_same(cases: &[(&[u8], &[u8])]) -> bool {
    for (told, want) in cases {
        if *told != *want {
            return false;
        }
    }
    true
}

#[test]
fn other_faults_are_told(rt: HostRuntime) {
    assert!(rt; are_files_told(rt.alloc()) && are_same(fixed_texts()));
}
