//! A line of the log of an expected run.
ghost use Rattle.std.specs.Prelude.{◌≡◌, ◌<◌, IfOk};
ghost use Rattle.script_types.specs.Typed.{IsTyped};
ghost use Rattle.log_lines.specs.Gives.{GivesRest};
ghost use Rattle.expected_line.specs.Line.{IsExpectedLine, IsExpectedText};

use arrival_log::print_log;
use join_base::{Bytes, NoMemory, Steps};
use log_reader::{LogFault, line_at, read_log};
use log_replay::replay;
use script_types::Plan;
use std::alloc::Global;
use std::marker::Brand;
use std::sync::ledger::{Blank, Ledger};

fn counted_text<L: Ledger>(
    alloc: Global,
    plan: &Plan,
    bytes: &[u8],
    blank: Blank,
) -> Result<Option<Bytes>, NoMemory>
    requires typed { IsTyped plan.now }
    requires name { blank.name ≡ L.name }
    requires blank_parts { blank.parts ≡ L.parts }
    requires some { 0 < L.parts }
    ensures text { IfOk result (IsExpectedText plan.now bytes.now) }
{
    let run = match read_log(alloc, plan, bytes) {
        Ok(run) => run,
        Err(LogFault::Bad { .. }) => return Ok(None),
        Err(LogFault::NoMemory) => return Err(NoMemory),
    };
    let mut steps = Steps::<L>::new(blank);
    let expected = replay(alloc, plan, &run, &mut steps)?;
    let mut text = Bytes::new(alloc);
    print_log(alloc, plan, &expected, &mut text)?;
    Ok(Some(text))
}

/// The log of the expected run of the run whose log the bytes are. `None` where the bytes are the log of no run.
pub fn expected_text(alloc: Global, plan: &Plan, bytes: &[u8]) -> Result<Option<Bytes>, NoMemory>
    requires typed { IsTyped plan.now }
    ensures text { IfOk result (IsExpectedText plan.now bytes.now) }
{
    counted_text::<Brand>(alloc, plan, bytes, Blank::new(1))
}

fn copy_of(alloc: Global, line: Option<&[u8]>) -> Result<Option<Bytes>, NoMemory>
    ensures { IfOk result (GivesRest line.entry) }
{
    match line {
        Some(line) => {
            let mut copy = Bytes::new(alloc);
            copy.push_all(line)?;
            Ok(Some(copy))
        }
        None => Ok(None),
    }
}

/// The line at a place, from 0 on, of the log of the expected run of the run whose log the bytes are, without the LF
/// that ends it. `None` where that log has no such line, and where the bytes are the log of no run.
#[tactic(auto, using(crate::proofs::LineLemmas::found_line))]
pub fn expected_line(
    alloc: Global,
    plan: &Plan,
    bytes: &[u8],
    place: u64,
) -> Result<Option<Bytes>, NoMemory>
    requires typed { IsTyped plan.now }
    ensures line { IfOk result (IsExpectedLine plan.now bytes.now place) }
{
    match expected_text(alloc, plan, bytes)? {
        Some(text) => copy_of(alloc, line_at(text.bytes(), place)),
        None => Ok(None),
    }
}
