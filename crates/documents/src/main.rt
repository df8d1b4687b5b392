//! Runs both programs on each example of the documents, and tells whether they print what the documents show, tell
//! people of a refusal what they show, and accept the logs.
//!
//! The examples are the data of this crate, and README.md and the documents under docs/ show them behind marks, where
//! `.ci/documents` compares them with the files. So no output behind a mark can grow old unseen. Nothing is proved here
//! but that it is safe, and ends where `join_main` does.
#![tactic(auto)]

mod example;
mod looked;
mod table;
mod told;

use crate::example::{is_done, is_printed};
use crate::looked::{LOOKED, is_shown};
use crate::table::{ACCEPTED, PRINTED};
use crate::told::{TOLD, is_told};
use join_base::NoMemory;
use std::io;

// Prints the name of an example, and what is wrong with it.
fn tell(rt: &HostRuntime, name: &str, found: Result<bool, NoMemory>) -> io::Result<()> {
    match found {
        Ok(true) => println!(rt; "{name}"),
        Ok(false) => println!(rt; "{name} is not what the program prints"),
        Err(NoMemory) => println!(rt; "{name}: there was no memory"),
    }
}

// Prints the name of a message, and what is wrong with it.
fn tell_told(rt: &HostRuntime, name: &str, found: Result<bool, NoMemory>) -> io::Result<()> {
    match found {
        Ok(true) => println!(rt; "{name}"),
        Ok(false) => println!(rt; "{name} is not what a person is told"),
        Err(NoMemory) => println!(rt; "{name}: there was no memory"),
    }
}

// Prints whether a replay accepts a log.
fn tell_accepted(rt: &HostRuntime, name: &str, found: Result<bool, NoMemory>) -> io::Result<()> {
    match found {
        Ok(true) => println!(rt; "{name} is accepted"),
        Ok(false) => println!(rt; "{name} is refused"),
        Err(NoMemory) => println!(rt; "{name}: there was no memory"),
    }
}

fn main(rt: HostRuntime) -> io::Result<()> {
    for (file, texts) in PRINTED.iter() {
        tell(&rt, file, is_printed(&rt, rt.alloc(), texts, file))?;
    }
    for (file, texts) in LOOKED.iter() {
        tell(&rt, file, is_shown(&rt, rt.alloc(), texts, file))?;
    }
    for (note, script) in TOLD.iter() {
        tell_told(&rt, note, is_told(&rt, rt.alloc(), script, note))?;
    }
    for (script, log) in ACCEPTED.iter() {
        tell_accepted(&rt, log, is_done(&rt, rt.alloc(), &["replay", script, log]))?;
    }
    Ok(())
}
