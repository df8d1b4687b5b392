//! Real files and real output: the inputs and the sink of a program, and the words that it was called with.
//!
//! `FileInputs` reads the files of the file system by their paths, and `OutSink` writes to a writer of the system;
//! `read_up_to` reads a file that is open. `command_line` gives the words, and `read_again` a file once more. Their
//! contracts tell nothing of bytes: that they are those of the file, and that they reach the writer, is only tested. A
//! count of faults rises at each fetch or write that failed, and at no other.
#![tactic(auto)]

mod files;
mod words;

pub use files::{FRONT, FileInputs, MAX_TRIES, OutSink, read_up_to};
pub use words::{command_line, read_again};
