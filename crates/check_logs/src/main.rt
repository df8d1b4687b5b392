//! Replays logs that are changed in each small way, and tells whether the answers are the ones worked out by hand.
//!
//! Each byte of a log is replaced by every other byte, the log is cut behind each byte, each line is dropped, doubled
//! and exchanged with the next, some are replaced by others, and some whole logs stand for themselves. What each is to
//! come to stands in the tables, from the form of the lines and from what the actors do, and not from any answer. So
//! does the log of the expected run of each log, and of some that are changed in a line. Nothing is proved here but
//! that it is safe and ends.
#![tactic(auto)]

mod answer;
mod answers;
mod bytes;
mod changes;
mod expected;
mod lines;
mod pairs;
mod replies;
mod table;
mod tally;
mod whole;

use crate::answer::plan_of;
use crate::changes::count_changes;
use crate::expected::expected_logs;
use crate::table::Log;
use crate::tally::Tally;
use crate::whole::whole_logs;
use join_base::NoMemory;
use std::alloc::Global;
use std::io;

// The answers to all changes of a log.
fn all_changes(alloc: Global, log: &Log) -> Result<Tally, NoMemory> {
    let mut tally = Tally::new();
    match plan_of(alloc, log.script.as_bytes())? {
        Some(plan) => count_changes(alloc, &plan, log, &mut tally)?,
        None => tally.miss(),
    }
    Ok(tally)
}

// The expected runs of all logs.
fn all_expected(alloc: Global) -> Result<Tally, NoMemory> {
    let mut tally = Tally::new();
    expected_logs(alloc, pairs::logs(), &mut tally)?;
    expected_logs(alloc, answers::logs(), &mut tally)?;
    expected_logs(alloc, replies::logs(), &mut tally)?;
    Ok(tally)
}

// Prints how many logs got the answer that is wanted, and the first other one.
fn tell_tally(rt: &HostRuntime, name: &str, tally: Tally) -> io::Result<()> {
    println!(rt;
        "{name}: {} logs, {} other answers",
        tally.logs, tally.misses
    )?;
    match tally.first {
        Some(miss) => println!(rt; "  first at line {}: {}", miss.line, miss.change),
        None => Ok(()),
    }
}

fn tell(rt: &HostRuntime, name: &str, found: Result<Tally, NoMemory>) -> io::Result<()> {
    match found {
        Ok(tally) => tell_tally(rt, name, tally),
        Err(NoMemory) => println!(rt; "{name}: there was no memory"),
    }
}

fn tell_logs(rt: &HostRuntime, logs: &[Log]) -> io::Result<()> {
    for log in logs {
        tell(rt, log.name, all_changes(rt.alloc(), log))?;
    }
    Ok(())
}

fn main(rt: HostRuntime) -> io::Result<()> {
    tell_logs(&rt, pairs::logs())?;
    tell_logs(&rt, answers::logs())?;
    tell_logs(&rt, replies::logs())?;
    tell(&rt, "whole logs", whole_logs(rt.alloc()))?;
    tell(&rt, "expected runs", all_expected(rt.alloc()))
}
