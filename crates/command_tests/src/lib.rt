//! Tests of the top call and of the edge of the program. They stand apart, since a crate with tests is proved twice.
//!
//! The examples of whole calls stand in the program `worked_examples`. Here are the tests that need inputs or a sink
//! that fail, a gate, or files of the machine.
#![tactic(auto)]

#[cfg(test)]
mod calls;
#[cfg(test)]
mod files;
#[cfg(test)]
mod limits;
#[cfg(test)]
mod outside;
#[cfg(test)]
mod threads;
