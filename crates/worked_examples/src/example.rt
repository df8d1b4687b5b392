//! Words over files in memory, and what they come to.

use join_base::{Bytes, MemoryInputs, MemorySink, NoMemory, Word, WordList};
use join_command::{Counted, FreeGate, NoView, Status, join_main};
use std::alloc::Global;
use std::sync::Wait;
use std::thread::Threads;

/// Words and files, of which the first is the script, and what they come to.
#[derive(Clone, Copy)]
pub struct Example<'a> {
    pub name: &'a str,
    pub words: &'a [&'a str],
    pub files: &'a [(&'a str, &'a [u8])],
    pub status: Status,
    pub printed: &'a [u8],
}

/// A name, a script, a feed or a log, and what is printed.
pub type Row = (&'static str, &'static [u8], &'static [u8], &'static [u8]);

pub const CHECK: &[&str] = &["check", "script"];

/// The input is the feed.
pub const RUN: &[&str] = &["run", "script", "input"];

/// The input is the log.
pub const REPLAY: &[&str] = &["replay", "script", "input"];

/// Joins two kinds.
pub const PAIRS: &[u8] =
    b"message a(x: int) message b(x: int) actor m { when a(x) & b(y) { print \"hit \" x y; } }";

/// One message of each.
pub const PAIR: &[u8] = b"m,a,1\nm,b,2\n";

/// How the log of one actor begins.
pub const HEAD: &[u8] = b"joinlog 2 arrivals 50000 partials 65536 feeds 1\nactor m\n";

/// The log of the pair behind it.
pub const HIT: &[u8] = b"1 at 1 from feed 1 a(1)\n\
      2 at 2 from feed 1 b(2)\n\
      fire rule 1 take 1,2\n\
      print \"hit 12\"\n\
      end running left - partials 1\n";

/// Joins messages with the same value.
pub const EQUAL: &[u8] =
    b"message a(x: int) message b(x: int) actor m { when a(x) & b(y) if x == y { print \"hit \" x y; } }";

/// Two actors that answer each other.
pub const PING_PONG: &[u8] =
    b"message ping(n: int) actor p { when ping(n) { post q ping(n + 1); } } \
      actor q { when ping(n) { post p ping(n + 1); } }";

/// The log of two actors that answer each other until one has no place for a further arrival.
pub const ANSWERED: &[u8] = b"joinlog 2 arrivals 3 partials 65536 feeds 1\n\
      actor p\n\
      1 at 1 from feed 1 ping(0)\n\
      fire rule 1 take 1\n\
      post q ping(1)\n\
      2 at 3 from actor q ping(2)\n\
      fire rule 1 take 2\n\
      post q ping(3)\n\
      3 at 5 from actor q ping(4)\n\
      fire rule 1 take 3\n\
      post q ping(5)\n\
      late actor q 1\n\
      end spent left - partials 1\n\
      actor q\n\
      1 at 2 from actor p ping(1)\n\
      fire rule 1 take 1\n\
      post p ping(2)\n\
      2 at 4 from actor p ping(3)\n\
      fire rule 1 take 2\n\
      post p ping(4)\n\
      3 at 6 from actor p ping(5)\n\
      fire rule 1 take 3\n\
      post p ping(6)\n\
      end running left - partials 1\n";

/// Replies to each message.
pub const REPLIES: &[u8] = b"message q(x: int) actor m { when q(x) { reply 1 x + 1; } }";

// More than any example prints.
const ROOM: u64 = 16_777_216;

/// Appends the piece. It tells nothing of the bytes, so that a proof of safety has nothing of them to carry.
pub fn push(text: &mut Bytes, piece: &[u8]) -> Result<(), NoMemory> {
    text.push_all(piece)
}

/// The pieces, one behind the other.
pub fn joined(alloc: Global, pieces: &[&[u8]]) -> Result<Bytes, NoMemory> {
    let mut text = Bytes::new(alloc);
    for piece in pieces {
        push(&mut text, piece)?;
    }
    Ok(text)
}

fn words_of(alloc: Global, texts: &[&str]) -> Result<WordList, NoMemory> {
    let mut words = WordList::new(alloc);
    for text in texts {
        words.push(Word::from_text(alloc, text)?)?;
    }
    Ok(words)
}

fn inputs_of(alloc: Global, files: &[(&str, &[u8])]) -> Result<MemoryInputs, NoMemory> {
    let mut inputs = MemoryInputs::new(alloc);
    for (name, content) in files {
        inputs.put(alloc, name, joined(alloc, &[*content])?)?;
    }
    Ok(inputs)
}

// A sink that takes at most 4,096 bytes at once, so that logs go out in pieces.
fn sink_of(alloc: Global, room: u64) -> Result<MemorySink, NoMemory> {
    MemorySink::new(alloc, room, 4096)
}

// Carries out the words over files in memory, and gives the status and what was written.
fn answer_to<R: Threads + Wait + Sync>(
    rt: &R,
    alloc: Global,
    texts: &[&str],
    files: &[(&str, &[u8])],
) -> Result<(Status, MemorySink), NoMemory> {
    let words = words_of(alloc, texts)?;
    let mut inputs = inputs_of(alloc, files)?;
    let mut out = Counted::new(sink_of(alloc, ROOM)?);
    let status = join_main(
        rt,
        alloc,
        &words,
        &mut inputs,
        &mut out,
        &FreeGate,
        &mut NoView,
    );
    Ok((status, out.into_sink()))
}

// The lines of a log that are arrivals, which begin with a digit.
fn arrivals_in(log: &[u8]) -> u64 {
    let mut count = 0u64;
    let mut begins = true;
    for byte in log.iter() {
        if begins && byte.is_ascii_digit() {
            count = count.saturating_add(1);
        }
        begins = *byte == b'\n';
    }
    count
}

fn accepted_line(alloc: Global, arrivals: u64) -> Result<Bytes, NoMemory> {
    let digits = arrivals.to_string(alloc)?;
    joined(alloc, &[b"accepted ", digits.as_bytes(), b"\n"])
}

// Whether a replay of the script accepts the log with its arrivals.
fn is_accepted<R: Threads + Wait + Sync>(
    rt: &R,
    alloc: Global,
    script: &[u8],
    log: &[u8],
) -> Result<bool, NoMemory> {
    let files = [("script", script), ("input", log)];
    let (status, out) = answer_to(rt, alloc, REPLAY, &files)?;
    let accepted = accepted_line(alloc, arrivals_in(log))?;
    Ok(status == Status::Done && out.bytes() == accepted.bytes())
}

fn are_accepted<R: Threads + Wait + Sync>(
    rt: &R,
    alloc: Global,
    script: &[u8],
    logs: &[&[u8]],
) -> Result<bool, NoMemory> {
    for log in logs {
        if !is_accepted(rt, alloc, script, log)? {
            return Ok(false);
        }
    }
    Ok(true)
}

/// Whether the words print this with this status, where the first file is the script. A log that they print is also to
/// be accepted, with its arrivals.
pub fn comes_to<R: Threads + Wait + Sync>(
    rt: &R,
    alloc: Global,
    words: &[&str],
    files: &[(&str, &[u8])],
    status: Status,
    printed: &[u8],
) -> Result<bool, NoMemory> {
    let (found, out) = answer_to(rt, alloc, words, files)?;
    if found != status || out.bytes() != printed {
        return Ok(false);
    }
    let (Some(word), Some((_, script))) = (words.first(), files.first()) else {
        return Ok(true);
    };
    if *word != "run" || !matches!(status, Status::Done | Status::Limits) {
        return Ok(true);
    }
    is_accepted(rt, alloc, script, out.bytes())
}

/// Whether all of the words come to this.
pub fn each_comes_to<R: Threads + Wait + Sync>(
    rt: &R,
    alloc: Global,
    calls: &[&[&str]],
    files: &[(&str, &[u8])],
    status: Status,
    printed: &[u8],
) -> Result<bool, NoMemory> {
    for words in calls {
        if !comes_to(rt, alloc, words, files, status, printed)? {
            return Ok(false);
        }
    }
    Ok(true)
}

// How often a run is made whose log varies with the threads.
const RUNS: u64 = 5;

/// Whether each of several runs of the words prints one of the logs. All of these are to be accepted, with their
/// arrivals.
pub fn is_one_of<R: Threads + Wait + Sync>(
    rt: &R,
    alloc: Global,
    words: &[&str],
    files: &[(&str, &[u8])],
    logs: &[&[u8]],
) -> Result<bool, NoMemory> {
    for _ in 0..RUNS {
        let (status, out) = answer_to(rt, alloc, words, files)?;
        if status != Status::Done || !logs.iter().any(|log| *log == out.bytes()) {
            return Ok(false);
        }
    }
    let Some((_, script)) = files.first() else {
        return Ok(false);
    };
    are_accepted(rt, alloc, script, logs)
}

/// Whether each of several calls prints the same, without a file.
pub fn prints_alike<R: Threads + Wait + Sync>(
    rt: &R,
    alloc: Global,
    words: &[&str],
    printed: &[u8],
) -> Result<bool, NoMemory> {
    for _ in 0..RUNS {
        if !comes_to(rt, alloc, words, &[], Status::Done, printed)? {
            return Ok(false);
        }
    }
    Ok(true)
}
