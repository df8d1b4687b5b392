//! The requests that the program takes.
ghost use Rattle.std.specs.Prelude.{◌≡◌, ◌≤◌, ◌∷◌, [], ◌++◌, IfOk, IfSome, OnOk};
ghost use Rattle.std.specs.Option.{option_map};
ghost use Rattle.std.specs.Str.{bytes_eq};
ghost use Rattle.command_words.specs.Number.{number_in};
ghost use Rattle.command_words.specs.Views.{words_in};
ghost use Rattle.look_command.specs.Request.{HasFewFeeds, audit_of, reactions_of, request_by, request_in, request_of, why_of};

use join_base::{NoMemory, Word, WordList, read_integer};
use std::alloc::Global;

/// The names of the files of an audit.
#[derive(Drop)]
pub struct AuditWords<'a> {
    pub script: &'a Word,
    pub log: &'a Word,
    /// 1 to 16 of them.
    pub feeds: Vec<&'a Word>,
}

/// The names of the files of a request for reactions, and of an actor.
#[derive(Drop)]
pub struct ReactionsWords<'a> {
    pub script: &'a Word,
    pub log: &'a Word,
    /// Where there is none, all actors are meant.
    pub actor: Option<&'a Word>,
}

/// The names of the files of a request for reasons, and of an actor, with the number of an arrival.
#[derive(Drop)]
pub struct WhyWords<'a> {
    pub script: &'a Word,
    pub log: &'a Word,
    pub actor: &'a Word,
    /// From 1 on. Where there is none, all messages that the actor has left are meant.
    pub number: Option<u32>,
}

/// A request, with the words that name its files.
#[derive(Drop)]
pub enum Request<'a> {
    Audit(AuditWords<'a>),
    Reactions(ReactionsWords<'a>),
    Why(WhyWords<'a>),
}

fn is_word(word: &Word, text: &[u8]) -> bool
    ensures { result ≡ bytes_eq word.now text.now }
{
    word.as_str().as_bytes() == text
}

fn push_name<'a>(names: &mut Vec<&'a Word>, word: &'a Word) -> Result<(), NoMemory>
    ensures { OnOk result (words_in names.new.items ≡ words_in names.old.items ++ word.now ∷ []) }
{
    names.push(word)?;
    Ok(())
}

// Each of the words.
fn names_of<'a>(alloc: Global, words: &'a [Word]) -> Result<Vec<&'a Word>, NoMemory>
    ensures { IfOk result (λ names. words_in names.items ≡ words.now) }
{
    let mut names = Vec::new(alloc);
    for word in words {
        push_name(&mut names, word)?;
    }
    Ok(names)
}

fn audit_of<'a>(alloc: Global, words: &'a [Word]) -> Result<Option<Request<'a>>, NoMemory>
    ensures { IfOk result (λ request. option_map request_in request ≡ audit_of words.now) }
{
    let [script, log, feeds @ ..] = words else {
        return Ok(None);
    };
    if feeds.len() < 1 || feeds.len() > 16 {
        return Ok(None);
    }
    let feeds = names_of(alloc, feeds)?;
    Ok(Some(Request::Audit(AuditWords { script, log, feeds })))
}

fn reactions_of<'a>(words: &'a [Word]) -> Option<Request<'a>>
    ensures { option_map request_in result ≡ reactions_of words.now }
{
    match words {
        [script, log] => Some(Request::Reactions(ReactionsWords {
            script,
            log,
            actor: None,
        })),
        [script, log, actor] => Some(Request::Reactions(ReactionsWords {
            script,
            log,
            actor: Some(actor),
        })),
        _ => None,
    }
}

// The number that one or more digits stand for, where it is from `least` to `most`.
fn number_in(word: &[u8], least: u32, most: u32) -> Option<u32>
    requires above_zero { 1 ≤ least }
    ensures { result ≡ number_in least most word.now }
{
    // A sign makes a number that is below one.
    let number = read_integer(word)?;
    if number >= i64::from(least) && number <= i64::from(most) {
        Some(number as u32)
    } else {
        None
    }
}

fn why_of<'a>(words: &'a [Word]) -> Option<Request<'a>>
    ensures { option_map request_in result ≡ why_of words.now }
{
    match words {
        [script, log, actor] => Some(Request::Why(WhyWords {
            script,
            log,
            actor,
            number: None,
        })),
        [script, log, actor, number] => {
            let number = number_in(number.as_str().as_bytes(), 1, u32::MAX)?;
            Some(Request::Why(WhyWords {
                script,
                log,
                actor,
                number: Some(number),
            }))
        }
        _ => None,
    }
}

fn request_by<'a>(
    alloc: Global,
    name: &Word,
    words: &'a [Word],
) -> Result<Option<Request<'a>>, NoMemory>
    ensures { IfOk result (λ request. option_map request_in request ≡ request_by name.now words.now) }
{
    if is_word(name, b"audit") {
        audit_of(alloc, words)
    } else if is_word(name, b"reactions") {
        Ok(reactions_of(words))
    } else if is_word(name, b"why") {
        Ok(why_of(words))
    } else {
        Ok(None)
    }
}

// What `request_of` gives.
fn parsed<'a>(alloc: Global, words: &'a WordList) -> Result<Option<Request<'a>>, NoMemory>
    ensures request { IfOk result (λ request. option_map request_in request ≡ request_of words.now) }
{
    let [name, words @ ..] = words.as_slice() else {
        return Ok(None);
    };
    request_by(alloc, name, words)
}

/// The request that the words are, or none: `audit SCRIPT LOG FEED..`, with 1 to 16 feeds; `reactions SCRIPT LOG`,
/// perhaps with the name of an actor; or `why SCRIPT LOG ACTOR`, perhaps with a number from 1 on. Each word behind the
/// name of the request stands for itself, also one that begins with `-`.
pub fn request_of<'a>(alloc: Global, words: &'a WordList) -> Result<Option<Request<'a>>, NoMemory>
    ensures request { IfOk result (λ request. option_map request_in request ≡ request_of words.now) }
    ensures few { IfOk result (λ request. IfSome request (λ r. HasFewFeeds (request_in r))) }
{
    parsed(alloc, words)
}
