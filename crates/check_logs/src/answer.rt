//! What a replay answers.
ghost use Rattle.std.specs.Prelude.{◌≡◌, ◌<◌, IfOk, IfSome};
ghost use Rattle.script_types.specs.Typed.{IsTyped};

use join_base::{NoMemory, Steps};
use log_replay::{LogRefusal, check_log};
use script_check::read_plan;
use script_grammar::ScriptFault;
use script_types::Plan;
use std::alloc::Global;
use std::marker::Brand;
use std::sync::ledger::{Blank, Ledger};

/// The answer to a log.
#[derive(Clone, Copy, PartialEq, Eq, Debug)]
pub enum Answer {
    /// It is accepted, with so many arrivals.
    Accepted(u64),
    /// It is no log, by this line.
    Bad(u64),
    /// It is a log that differs from its expected one, first in this line.
    Differs(u64),
}

/// The plan of a script, or none where it is refused.
pub fn plan_of(alloc: Global, script: &[u8]) -> Result<Option<Plan>, NoMemory>
    ensures typed { IfOk result (λ plan. IfSome plan IsTyped) }
{
    match read_plan(alloc, script) {
        Ok(plan) => Ok(Some(plan)),
        Err(ScriptFault::Bad { .. }) => Ok(None),
        Err(ScriptFault::NoMemory) => Err(NoMemory),
    }
}

fn counted_answer<L: Ledger>(
    alloc: Global,
    plan: &Plan,
    log: &[u8],
    blank: Blank,
) -> Result<Answer, NoMemory>
    requires typed { IsTyped plan.now }
    requires name { blank.name ≡ L.name }
    requires blank_parts { blank.parts ≡ L.parts }
    requires some { 0 < L.parts }
{
    let mut steps = Steps::<L>::new(blank);
    match check_log(alloc, plan, log, &mut steps) {
        Ok(arrivals) => Ok(Answer::Accepted(arrivals)),
        Err(LogRefusal::Bad { line }) => Ok(Answer::Bad(line)),
        Err(LogRefusal::Differs { line }) => Ok(Answer::Differs(line)),
        Err(LogRefusal::NoMemory) => Err(NoMemory),
    }
}

/// What a replay answers to the bytes of a log.
pub fn answer_to(alloc: Global, plan: &Plan, log: &[u8]) -> Result<Answer, NoMemory>
    requires typed { IsTyped plan.now }
{
    counted_answer::<Brand>(alloc, plan, log, Blank::new(1))
}
