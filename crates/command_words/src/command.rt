//! The command that words are.
ghost use Rattle.std.specs.Prelude.{◌≡◌, ◌++◌, [], IfOk, IfSome, OnOk};
ghost use Rattle.std.specs.List.{cons_option};
ghost use Rattle.std.specs.Option.{option_map};
ghost use Rattle.command_words.specs.Command.{command_by, command_from, command_of, only_word, positional_word, positional_words, run_from, script_and_feeds, two_words};
ghost use Rattle.command_words.specs.Ranges.{IsInRange};
ghost use Rattle.command_words.specs.Views.{bytes_of, command_in, item_in, items_in, run_in, words_in};

use crate::item::{Item, items_of};
use crate::number::number_in;
use crate::options::{RunOptions, number_given, options_given};
use crate::refusal::Refusal;
use crate::table::{Setting, Verb, verb_named};
use join_base::{NoMemory, Word, WordList};
use std::alloc::Global;

/// A run of a script on 1 to 16 feeds.
#[derive(Drop)]
pub struct RunWords<'a> {
    pub script: &'a Word,
    pub feeds: Vec<&'a Word>,
    pub options: RunOptions,
}

/// A command, with the words that name its files and with its numbers.
#[derive(Drop)]
pub enum Request<'a> {
    Run(RunWords<'a>),
    Check { script: &'a Word },
    Replay { script: &'a Word, log: &'a Word },
    Load { rows: u32 },
    Watch { run: RunWords<'a>, monitors: u32 },
    Lint { script: &'a Word },
    Ask(RunWords<'a>),
}

// Appends the word of an item that stands for itself.
fn push_word<'a>(words: &mut Vec<&'a Word>, item: &Item<'a>) -> Result<(), NoMemory>
    ensures { OnOk result (words_in words.new.items ≡ words_in words.old.items
        ++ cons_option (positional_word (item_in item.now)) []) }
{
    match item {
        Item::Positional(word) => {
            words.push(*word)?;
            Ok(())
        }
        Item::Given { .. } => Ok(()),
    }
}

// The words that stand for themselves, in order.
fn positional_words<'a>(alloc: Global, items: &[Item<'a>]) -> Result<Vec<&'a Word>, NoMemory>
    ensures { IfOk result (λ words. words_in words.items ≡ positional_words (items_in items.now)) }
{
    let mut words = Vec::new(alloc);
    for item in items {
        push_word(&mut words, item)?;
    }
    Ok(words)
}

fn only_word<'a>(words: &[&'a Word]) -> Option<&'a Word>
    ensures { option_map bytes_of result ≡ only_word (words_in words.now) }
{
    match words {
        [word] => Some(*word),
        _ => None,
    }
}

fn two_words<'a>(words: &[&'a Word]) -> Option<(&'a Word, &'a Word)>
    ensures { option_map (λ pair. (pair.0.now, pair.1.now)) result ≡ two_words (words_in words.now) }
{
    match words {
        [first, second] => Some((*first, *second)),
        _ => None,
    }
}

// A script, and 1 to 16 feeds.
fn script_and_feeds<'a>(mut words: Vec<&'a Word>) -> Option<(&'a Word, Vec<&'a Word>)>
    ensures { option_map (λ files. (files.0.now, words_in files.1.items)) result
        ≡ script_and_feeds (words_in words.entry.items) }
{
    if words.len() < 2 || words.len() > 17 {
        return None;
    }
    let script = words.remove(0);
    Some((script, words))
}

fn run_from<'a>(words: Vec<&'a Word>, items: &[Item<'a>]) -> Option<RunWords<'a>>
    ensures { option_map run_in result ≡ run_from (words_in words.entry.items) (items_in items.now) }
{
    let (script, feeds) = script_and_feeds(words)?;
    let options = options_given(items)?;
    Some(RunWords {
        script,
        feeds,
        options,
    })
}

// The command of a name, by the words that stand for themselves and by all items.
fn command_from<'a>(command: Verb, words: Vec<&'a Word>, items: &[Item<'a>]) -> Option<Request<'a>>
    ensures { option_map command_in result ≡ command_from command (words_in words.entry.items) (items_in items.now) }
{
    match command {
        Verb::Run => Some(Request::Run(run_from(words, items)?)),
        Verb::Check => Some(Request::Check {
            script: only_word(words.as_slice())?,
        }),
        Verb::Replay => {
            let (script, log) = two_words(words.as_slice())?;
            Some(Request::Replay { script, log })
        }
        Verb::Load => {
            let word = only_word(words.as_slice())?;
            let rows = number_in(word.as_str().as_bytes(), 1, 20_000)?;
            Some(Request::Load { rows })
        }
        Verb::Watch => {
            let run = run_from(words, items)?;
            let monitors = number_given(Setting::Monitors, 1, 8, 1, items)?;
            Some(Request::Watch { run, monitors })
        }
        Verb::Lint => Some(Request::Lint {
            script: only_word(words.as_slice())?,
        }),
        Verb::Ask => Some(Request::Ask(run_from(words, items)?)),
    }
}

// The command of a name and the items behind it.
fn command_by<'a>(
    alloc: Global,
    command: Verb,
    items: &[Item<'a>],
) -> Result<Option<Request<'a>>, NoMemory>
    ensures { IfOk result (λ request. option_map command_in request ≡ command_by command (items_in items.now)) }
{
    let words = positional_words(alloc, items)?;
    Ok(command_from(command, words, items))
}

// What `command_of` gives.
fn request_of<'a>(
    alloc: Global,
    verbs: &[Verb],
    settings: &[Setting],
    words: &'a WordList,
) -> Result<Option<Request<'a>>, NoMemory>
    ensures command { IfOk result (λ request. option_map command_in request
        ≡ command_of verbs.now settings.now words.now) }
{
    let [name, words @ ..] = words.as_slice() else {
        return Ok(None);
    };
    let Some(command) = verb_named(verbs, name.as_str().as_bytes()) else {
        return Ok(None);
    };
    match items_of(alloc, settings, command, words) {
        Ok(items) => command_by(alloc, command, items.as_slice()),
        Err(Refusal::Usage) => Ok(None),
        Err(Refusal::NoMemory) => Err(NoMemory),
    }
}

/// The command that the words are, or none. The first word is its name, one of `verbs`. Behind it `--NAME VALUE` and
/// `--NAME=VALUE` give an option of the command its value, each at most once, in any order with the other words; behind
/// `--` each word stands for itself. Any other word that begins with `-` and is not `-` alone is refused, and so is a
/// number with a sign or out of its range.
///
/// `verbs` and `settings` are the commands and the options that the program takes, and this crate knows more of them:
/// words of any other are no command, and an option that the program does not take has its usual value.
pub fn command_of<'a>(
    alloc: Global,
    verbs: &[Verb],
    settings: &[Setting],
    words: &'a WordList,
) -> Result<Option<Request<'a>>, NoMemory>
    ensures command { IfOk result (λ request. option_map command_in request
        ≡ command_of verbs.now settings.now words.now) }
    ensures in_range { IfOk result (λ request. IfSome request (λ r. IsInRange (command_in r))) }
{
    request_of(alloc, verbs, settings, words)
}
