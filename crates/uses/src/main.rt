//! Four small callers of the libraries, each in a file of its own, with the contract that its user would want. They run
//! here on a script of a tank. docs/LIBRARY.md shows them.
//!
//! - `script`: the plan of a script, or where its fault stands, with a message for people.
//! - `one_actor`: which rules the messages of a program fire at one actor.
//! - `posted`: the run of a pool to which a program posts, on its own thread.
//! - `own_log`: how often the actors fired by a log that was checked.
//!
//! `telling` prints what they answer. Of it nothing is proved but that it is safe and ends.
#![tactic(auto)]

mod one_actor;
mod own_log;
mod posted;
mod script;
mod telling;

use std::io;

fn main(rt: HostRuntime) -> io::Result<()> {
    telling::tell_fault(&rt, rt.alloc())?;
    telling::tell_tank(&rt, rt.alloc())
}
