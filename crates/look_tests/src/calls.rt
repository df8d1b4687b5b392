//! Calls of the top call over files and a sink in memory.
use crate::files::FILES;
use join_base::{Bytes, MemoryInputs, MemorySink, NoMemory, Word, WordList};
use join_command::{Counted, Status};
use look_command::look_main;
use std::alloc::Global;

/// Words, the status that they end with, and what is written.
pub type Case<'a> = (&'a [&'a str], Status, &'a [u8]);

/// The name of a file, and the parts of what it holds.
pub type File<'a> = (&'a str, &'a [&'a [u8]]);

fn bytes_of(alloc: Global, parts: &[&[u8]]) -> Result<Bytes, NoMemory> {
    let mut bytes = Bytes::new(alloc);
    for part in parts {
        bytes.push_all(part)?;
    }
    Ok(bytes)
}

fn inputs_of(alloc: Global, files: &[File<'_>]) -> Result<MemoryInputs, NoMemory> {
    let mut inputs = MemoryInputs::new(alloc);
    for (name, parts) in files {
        inputs.put(alloc, name, bytes_of(alloc, parts)?)?;
    }
    Ok(inputs)
}

fn words_of(alloc: Global, texts: &[&str]) -> Result<WordList, NoMemory> {
    let mut words = WordList::new(alloc);
    for text in texts {
        words.push(Word::from_text(alloc, text)?)?;
    }
    Ok(words)
}

// Whether the words end with the status, and the sink has the output and nothing else.
fn gives(alloc: Global, texts: &[&str], status: Status, output: &[u8]) -> Result<bool, NoMemory> {
    let words = words_of(alloc, texts)?;
    let mut inputs = inputs_of(alloc, FILES)?;
    let mut out = Counted::new(MemorySink::new(alloc, 100_000, 100_000)?);
    let found = look_main(alloc, &words, &mut inputs, &mut out);
    let sink = out.into_sink();
    Ok(found == status && sink.bytes() == output)
}

/// Whether each of the cases is as it should be.
pub fn all_give(alloc: Global, cases: &[Case<'static>]) -> Result<bool, NoMemory> {
    for (words, status, output) in cases {
        if !gives(alloc, words, *status, output)? {
            return Ok(false);
        }
    }
    Ok(true)
}
