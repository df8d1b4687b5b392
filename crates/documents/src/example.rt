//! One example.

use join_base::{Bytes, FetchFault, Inputs, MemorySink, NoMemory, Word, WordList};
use join_command::{Counted, FreeGate, NoView, Status, join_main};
use std::alloc::Global;
use std::rt::Files;
use std::sync::Wait;
use std::thread::Threads;
use system_files::FileInputs;

// More than any example prints.
pub const ROOM: u64 = 65_536;

pub fn words_of(alloc: Global, texts: &[&str]) -> Result<WordList, NoMemory> {
    let mut words = WordList::new(alloc);
    for text in texts {
        words.push(Word::from_text(alloc, text)?)?;
    }
    Ok(words)
}

/// The bytes of a file. `None` where it can't be read.
pub fn held_by<R: Files>(rt: &R, alloc: Global, name: &str) -> Result<Option<Bytes>, NoMemory> {
    match FileInputs::new(rt).fetch(alloc, name, ROOM) {
        Ok(bytes) => Ok(Some(bytes)),
        Err(FetchFault::NoMemory) => Err(NoMemory),
        Err(FetchFault::Failed | FetchFault::TooLong) => Ok(None),
    }
}

/// Whether the file holds these bytes.
pub fn is_held<R: Files>(
    rt: &R,
    alloc: Global,
    file: &str,
    bytes: &[u8],
) -> Result<bool, NoMemory> {
    match held_by(rt, alloc, file)? {
        Some(held) => Ok(bytes == held.bytes()),
        None => Ok(false),
    }
}

/// Carries out the words, and gives the status and what was written.
pub fn answer_to<R: Files + Threads + Wait + Sync>(
    rt: &R,
    alloc: Global,
    texts: &[&str],
) -> Result<(Status, MemorySink), NoMemory> {
    let words = words_of(alloc, texts)?;
    let mut out = Counted::new(MemorySink::new(alloc, ROOM, ROOM)?);
    let mut inputs = FileInputs::new(rt);
    let status = join_main(
        rt,
        alloc,
        &words,
        &mut inputs,
        &mut out,
        &FreeGate,
        &mut NoView,
    );
    Ok((status, out.into_sink()))
}

/// Whether the words print what the file holds.
pub fn is_printed<R: Files + Threads + Wait + Sync>(
    rt: &R,
    alloc: Global,
    texts: &[&str],
    file: &str,
) -> Result<bool, NoMemory> {
    let (_, out) = answer_to(rt, alloc, texts)?;
    is_held(rt, alloc, file, out.bytes())
}

/// Whether the words are carried out without a refusal.
pub fn is_done<R: Files + Threads + Wait + Sync>(
    rt: &R,
    alloc: Global,
    texts: &[&str],
) -> Result<bool, NoMemory> {
    let (status, _) = answer_to(rt, alloc, texts)?;
    Ok(status == Status::Done)
}
