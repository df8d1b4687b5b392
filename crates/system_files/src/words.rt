//! What a program was called with, and files that it reads a second time.
use crate::files::FileInputs;
use join_base::{Bytes, Inputs, NoMemory, Word, WordList};
use std::alloc::Global;
use std::io::ErrorKind;
use std::rt::{Env, Files};
use std::{env, fs};

// The words after the program's name.
fn words_of(alloc: Global, args: env::Args) -> Result<WordList, NoMemory> {
    let mut words = WordList::new(alloc);
    for arg in args.skip(1) {
        let word = Word::from_text(alloc, arg.as_str())?;
        words.push(word)?;
    }
    Ok(words)
}

/// The words of the command line, behind the program's name. Where one of them is not UTF-8 there are none, which is no
/// command.
pub fn command_line<R: Env + AllocGlobal>(rt: &R) -> Result<WordList, NoMemory> {
    match env::args(rt) {
        Ok(args) => words_of(rt.alloc(), args),
        Err(error) => {
            if error.kind() == ErrorKind::InvalidData {
                Ok(WordList::new(rt.alloc()))
            } else {
                Err(NoMemory)
            }
        }
    }
}

/// The bytes of a file that can be read twice, and has at most `max` of them. Else there are none.
pub fn read_again<R: Files + AllocGlobal>(rt: &R, name: &str, max: u64) -> Option<Bytes> {
    match fs::metadata(rt, name) {
        Ok(known) if known.is_file() => {
            let mut inputs = FileInputs::new(rt);
            inputs.fetch(rt.alloc(), name, max).ok()
        }
        _ => None,
    }
}
