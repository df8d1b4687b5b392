//! Which word of the command line is at fault, and why.
use crate::part::{Part, push_parts};
use crate::sentence::{PROGRAM, USAGE};
use join_base::{Bytes, NoMemory, Word, WordList, read_integer};
use std::alloc::Global;

// A command: its name, how many words it wants besides its options, what these are, and whether it has options.
type Command = (&'static [u8], usize, usize, &'static [u8], bool);

const COMMANDS: &[Command] = &[
    (
        b"run",
        2,
        17,
        b"a script and 1 to 16 feeds are wanted",
        true,
    ),
    (
        b"ask",
        2,
        17,
        b"a script and 1 to 16 feeds are wanted",
        true,
    ),
    (
        b"watch",
        2,
        17,
        b"a script and 1 to 16 feeds are wanted",
        true,
    ),
    (b"check", 1, 1, b"one script is wanted", false),
    (b"lint", 1, 1, b"one script is wanted", false),
    (b"replay", 2, 2, b"a script and a log are wanted", false),
    (b"load", 1, 1, b"a number from 1 to 20000 is wanted", false),
];

const MOST_ROWS: i64 = 20_000;

/// What the value of an option may be.
#[derive(Clone, Copy)]
enum Values {
    /// A number from 1 to this one.
    UpTo(i64),
    /// The name of a pool.
    Pools,
}

// The name of an option, and its values.
type Choice = (&'static [u8], Values);

// An option, and the one command that takes it where not all with options do.
type Rule = (Choice, Option<&'static [u8]>);

const OPTIONS: &[Rule] = &[
    ((b"workers", Values::UpTo(64)), None),
    ((b"ring", Values::UpTo(4_096)), None),
    ((b"arrivals", Values::UpTo(1_000_000)), None),
    ((b"partials", Values::UpTo(1_000_000)), None),
    ((b"pool", Values::Pools), Some(b"run")),
    ((b"monitors", Values::UpTo(8)), Some(b"watch")),
];

/// What is wrong with the words.
#[derive(Clone, Copy)]
enum Wrong<'a> {
    /// There are none.
    NoWords,
    /// They ask for help.
    Help,
    NoCommand(&'a [u8]),
    /// The command has no options.
    NoOptions(&'a [u8]),
    NoOption(&'a [u8]),
    /// An option begins with two dashes.
    OneDash(&'a [u8]),
    NoValue(Choice),
    BadValue(Choice, &'a [u8]),
    Twice(&'a [u8]),
    Count(usize),
    BadRows(&'a [u8]),
}

fn command_named(name: &[u8]) -> Option<Command> {
    COMMANDS.iter().find(|command| command.0 == name).copied()
}

// The option of a command.
fn option_named(command: Command, name: &[u8]) -> Option<Choice> {
    let (option, only) = OPTIONS.iter().find(|rule| rule.0.0 == name).copied()?;
    match only {
        Some(other) if other != command.0 => None,
        _ => Some(option),
    }
}

// What stands in front of the first `=`, and behind it, where there is one.
fn cut(text: &[u8]) -> (&[u8], Option<&[u8]>) {
    let count = text.iter().take_while(|b| **b != b'=').count();
    let (name, rest) = text.split_at(count.min(text.len()));
    match rest {
        [_, value @ ..] => (name, Some(value)),
        [] => (name, None),
    }
}

fn is_in_range(value: &[u8], most: i64) -> bool {
    match read_integer(value) {
        Some(number) => 1 <= number && number <= most,
        None => false,
    }
}

fn is_among(value: &[u8], values: Values) -> bool {
    match values {
        Values::UpTo(most) => is_in_range(value, most),
        Values::Pools => value == b"queue".as_slice() || value == b"steal".as_slice(),
    }
}

// What is wrong with an option that has this value, or the word behind it.
fn wrong_value<'a>(
    option: Choice,
    value: Option<&'a [u8]>,
    behind: Option<&'a [u8]>,
) -> Option<Wrong<'a>> {
    match value.or(behind) {
        None => Some(Wrong::NoValue(option)),
        Some(value) if is_among(value, option.1) => None,
        Some(value) => Some(Wrong::BadValue(option, value)),
    }
}

// What is wrong with a word that begins with a dash, in front of another one; and whether that one is its value.
fn wrong_option<'a>(
    command: Command,
    word: &'a [u8],
    behind: Option<&'a [u8]>,
) -> (Option<Wrong<'a>>, bool) {
    let Some(text) = word.strip_prefix(b"--".as_slice()) else {
        return (Some(Wrong::OneDash(word)), false);
    };
    if !command.4 {
        return (Some(Wrong::NoOptions(word)), false);
    }
    let (name, value) = cut(text);
    match option_named(command, name) {
        None => (Some(Wrong::NoOption(word)), false),
        Some(option) => (wrong_value(option, value, behind), value.is_none()),
    }
}

// Whether an earlier word gives the same option.
fn is_given_before(words: &[Word], word: &[u8]) -> bool {
    let (name, _) = cut(word);
    words
        .iter()
        .any(|other| cut(other.as_str().as_bytes()).0 == name)
}

fn word_at(words: &[Word], place: usize) -> Option<&[u8]> {
    Some(words.get(place)?.as_str().as_bytes())
}

fn is_option(word: &[u8]) -> bool {
    word != b"-".as_slice() && word.starts_with(b"-")
}

// The first of the words behind a command that is at fault, and how many stand for themselves in front of it.
fn wrong_word<'a>(command: Command, words: &'a [Word]) -> (Option<Wrong<'a>>, usize) {
    let mut files = 0usize;
    let mut is_value = false;
    for place in 0..words.len() {
        let word = words[place].as_str().as_bytes();
        if is_value {
            is_value = false;
        } else if word == b"--".as_slice() {
            return (None, files.saturating_add(words.len() - place - 1));
        } else if is_option(word) {
            let (wrong, takes_next) = wrong_option(command, word, word_at(words, place + 1));
            if wrong.is_some() {
                return (wrong, files);
            }
            let (front, _) = words.split_at(place);
            if is_given_before(front, word) {
                return (Some(Wrong::Twice(word)), files);
            }
            is_value = takes_next;
        } else {
            files = files.saturating_add(1);
        }
    }
    (None, files)
}

// What is wrong with the number of `load`.
fn wrong_rows<'a>(command: Command, words: &'a [Word]) -> Option<Wrong<'a>> {
    match words {
        [word] if command.0 == b"load".as_slice() => {
            let word = word.as_str().as_bytes();
            if is_in_range(word, MOST_ROWS) {
                None
            } else {
                Some(Wrong::BadRows(word))
            }
        }
        _ => None,
    }
}

fn wrong_of<'a>(command: Command, words: &'a [Word]) -> Option<Wrong<'a>> {
    let (wrong, files) = wrong_word(command, words);
    if wrong.is_some() {
        return wrong;
    }
    if files < command.1 || files > command.2 {
        return Some(Wrong::Count(files));
    }
    wrong_rows(command, words)
}

fn is_help(word: &[u8]) -> bool {
    let asked: [&[u8]; 3] = [b"help", b"--help", b"-h"];
    asked.contains(&word)
}

// Appends a word that is no option of a command, and what is told of it.
fn push_no_option<'a>(
    out: &mut Bytes,
    command: &'a [u8],
    word: &'a [u8],
    told: &'a [u8],
) -> Result<(), NoMemory> {
    push_parts(
        out,
        &[
            Part::Shown(word),
            Part::Text(b" is no option of "),
            Part::Text(command),
            Part::Text(told),
        ],
    )
}

// Appends which values an option may have, and what is told of it.
fn push_values<'a>(
    out: &mut Bytes,
    option: Choice,
    told: &'a [u8],
    value: Part<'a>,
) -> Result<(), NoMemory> {
    let (kinds, most) = match option.1 {
        Values::UpTo(most) => (
            Part::Text(b": a number from 1 to "),
            Part::Number(i128::from(most)),
        ),
        Values::Pools => (Part::Text(b": queue or steal"), Part::Text(b"")),
    };
    push_parts(
        out,
        &[
            Part::Text(b"--"),
            Part::Text(option.0),
            kinds,
            most,
            Part::Text(told),
            value,
        ],
    )
}

// Appends what a command wants, and what is told of it.
fn push_wanted<'a>(
    out: &mut Bytes,
    command: &'a [u8],
    wanted: &'a [u8],
    told: &[Part<'_>],
) -> Result<(), NoMemory> {
    let front = [Part::Text(command), Part::Text(b": "), Part::Text(wanted)];
    push_parts(out, &front)?;
    push_parts(out, told)
}

// Appends what a command wants, and how many words there are.
fn push_count(
    out: &mut Bytes,
    command: &[u8],
    wanted: &[u8],
    count: usize,
) -> Result<(), NoMemory> {
    if count == 1 {
        return push_wanted(
            out,
            command,
            wanted,
            &[Part::Text(b", and there is 1 word")],
        );
    }
    let told = [
        Part::Text(b", and there are "),
        Part::Number(count as i128),
        Part::Text(b" words"),
    ];
    push_wanted(out, command, wanted, &told)
}

// Appends that a command has no options.
fn push_no_options<'a>(out: &mut Bytes, command: &'a [u8], word: &'a [u8]) -> Result<(), NoMemory> {
    push_parts(
        out,
        &[
            Part::Text(command),
            Part::Text(b" has no options, and "),
            Part::Shown(word),
            Part::Text(b" begins like one"),
        ],
    )
}

// A word. One without a sign would not be seen.
fn word_part(word: &[u8]) -> Part<'_> {
    if word.is_empty() {
        Part::Text(b"\"\"")
    } else {
        Part::Shown(word)
    }
}

// Appends a word, and what is told of it.
fn push_word<'a>(out: &mut Bytes, word: &'a [u8], told: &'a [u8]) -> Result<(), NoMemory> {
    push_parts(out, &[word_part(word), Part::Text(told)])
}

// Appends what is wrong with the words of a command.
fn push_wrong(
    out: &mut Bytes,
    command: &[u8],
    wanted: &[u8],
    wrong: Wrong<'_>,
) -> Result<(), NoMemory> {
    match wrong {
        Wrong::NoWords => out.push_all(b"no command is given, or a word of it is not UTF-8"),
        Wrong::Help => out.push_all(b"these are the commands"),
        Wrong::NoCommand(word) => push_word(out, word, b" is no command"),
        Wrong::NoOptions(word) => push_no_options(out, command, word),
        Wrong::NoOption(word) => push_no_option(out, command, word, &[]),
        Wrong::OneDash(word) => {
            push_no_option(out, command, word, b", and behind -- a word is a file")
        }
        Wrong::NoValue(option) => {
            push_values(out, option, b" is wanted behind it", Part::Text(b""))
        }
        Wrong::BadValue(option, value) => {
            push_values(out, option, b" is wanted, and not ", word_part(value))
        }
        Wrong::Twice(word) => push_word(out, cut(word).0, b" is given twice"),
        Wrong::Count(count) => push_count(out, command, wanted, count),
        Wrong::BadRows(word) => {
            let told = [Part::Text(b", and not "), word_part(word)];
            push_wanted(out, command, wanted, &told)
        }
    }
}

// Appends which of the words is at fault, and why.
fn push_word_fault(out: &mut Bytes, words: &[Word]) -> Result<(), NoMemory> {
    let [name, behind @ ..] = words else {
        return push_wrong(out, &[], &[], Wrong::NoWords);
    };
    let name = name.as_str().as_bytes();
    if is_help(name) {
        return push_wrong(out, &[], &[], Wrong::Help);
    }
    let Some(command) = command_named(name) else {
        return push_wrong(out, &[], &[], Wrong::NoCommand(name));
    };
    match wrong_of(command, behind) {
        Some(wrong) => push_wrong(out, name, command.3, wrong),
        None => push_wrong(out, &[], &[], Wrong::Help),
    }
}

// Appends what is told of words that are no command.
fn push_words(out: &mut Bytes, words: &[Word]) -> Result<(), NoMemory> {
    out.push_all(PROGRAM)?;
    push_word_fault(out, words)?;
    out.push_all(b"\n")?;
    out.push_all(USAGE)
}

/// What is told of words that are no command: the word at fault and why, and then the commands.
pub fn words_note(alloc: Global, words: &WordList) -> Result<Bytes, NoMemory> {
    let mut out = Bytes::new(alloc);
    push_words(&mut out, words.as_slice())?;
    Ok(out)
}
