//! What is told of the examples: how many a table has, and which of them come to something else.
//!
//! Each function goes over a table that it is given, and answers whether all in it come to what they should. A proof of
//! a function that hands on one table has that table alone before it, and a proof of `main` has none.

use crate::example::{Example, Row, comes_to};
use join_base::NoMemory;
use join_command::Status;
use std::alloc::Global;
use std::sync::Wait;
use std::thread::Threads;

/// Whether an example came to what it should. Else its name is printed.
pub fn told<R: Print>(rt: &R, name: &str, found: Result<bool, NoMemory>) -> bool {
    let what = match found {
        Ok(true) => return true,
        Ok(false) => "comes to something else",
        Err(NoMemory) => "finds no memory",
    };
    let _ = println!(rt; "{name} {what}");
    false
}

/// Prints how many examples a table has, and answers whether all of them came to what they should, and it was printed.
pub fn counted<R: Print>(rt: &R, heading: &str, count: usize, all: bool) -> bool {
    println!(rt; "{heading}: {count}").is_ok() && all
}

/// Each example has words and files of its own.
pub fn tell_examples<R: Print + Threads + Wait + Sync>(
    rt: &R,
    alloc: Global,
    heading: &str,
    examples: &[Example<'static>],
) -> bool {
    let mut all = true;
    for example in examples {
        let found = comes_to(
            rt,
            alloc,
            example.words,
            example.files,
            example.status,
            example.printed,
        );
        all &= told(rt, example.name, found);
    }
    counted(rt, heading, examples.len(), all)
}

/// The words run or replay each script on its input.
pub fn tell_rows<R: Print + Threads + Wait + Sync>(
    rt: &R,
    alloc: Global,
    heading: &str,
    words: &[&str],
    status: Status,
    rows: &[Row],
) -> bool {
    let mut all = true;
    for (name, script, input, printed) in rows {
        let files = [("script", *script), ("input", *input)];
        let found = comes_to(rt, alloc, words, &files, status, printed);
        all &= told(rt, name, found);
    }
    counted(rt, heading, rows.len(), all)
}
