//! Tests of what is read, and of what people are told of it: feeds, the words of a command line, logs, and the messages
//! on mistakes in each of them and in scripts, where the lines of a file begin, patterns that are tied only through
//! another, the reactions of a log, and why messages wait.
//!
//! What whole calls print is tested by the program `worked_examples`, and logs that are changed in each byte and each
//! line by `check_logs`: here stand what no clause says and those do not show.
#![tactic(auto)]

#[cfg(test)]
mod differing;
#[cfg(test)]
mod feeds;
#[cfg(test)]
#[cfg(test)]
mod lines;
#[cfg(test)]
mod logs;
#[cfg(test)]
mod messages;
#[cfg(test)]
mod other_mistakes;
#[cfg(test)]
mod reactions;
#[cfg(test)]
mod remarks;
#[cfg(test)]
mod script_mistakes;
#[cfg(test)]
mod ties;
#[cfg(test)]
mod waiting;
#[cfg(test)]
mod words;
