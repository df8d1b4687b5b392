//! A script: its plan, or where its fault stands, with a message for people.
ghost use Rattle.std.specs.Prelude.{IfErr, IfOk};
ghost use Rattle.script_types.specs.Typed.{IsTyped};
ghost use Rattle.script_check.specs.Script.{GivesPlan};
ghost use Rattle.uses.specs.Script.{IsFaultOf, TellsFault};

use fault_places::{Place, place_of, refusal_note};
use join_base::{Bytes, NoMemory};
use join_command::{Refusal, refused_output};
use script_check::read_plan;
use script_reader::{ScriptCause, ScriptFault};
use script_types::Plan;
use std::alloc::Global;

/// Why there is no plan.
#[derive(Drop)]
pub enum NoPlan {
    /// Where the script has its fault, and what a person is told of it.
    Fault { place: Place, note: Bytes },
    /// There was no memory. Nothing is said of the script.
    NoMemory,
}

// What a person is told of the script in the file of this name, which has this fault.
fn note_of(
    alloc: Global,
    name: &str,
    script: &[u8],
    place: u64,
    cause: ScriptCause,
) -> Result<Bytes, NoMemory> {
    let (_, line) = refused_output(alloc, Refusal::Script { place, cause })?;
    refusal_note(alloc, name, script, line.bytes())
}

fn no_plan(alloc: Global, name: &str, script: &[u8], fault: ScriptFault) -> NoPlan
    requires { IsFaultOf script.now fault }
    ensures { TellsFault script.now result }
{
    // A script with a fault has no plan.
    script_check::one_script();
    match fault {
        ScriptFault::Bad { place, cause } => match note_of(alloc, name, script, place, cause) {
            Ok(note) => NoPlan::Fault {
                place: place_of(script, place as usize),
                note,
            },
            Err(NoMemory) => NoPlan::NoMemory,
        },
        ScriptFault::NoMemory => NoPlan::NoMemory,
    }
}

/// The plan of the script in the file of this name. Otherwise the line and the character of its fault, and what a
/// person is told of it.
pub fn plan_of(alloc: Global, name: &str, script: &[u8]) -> Result<Plan, NoPlan>
    ensures plan { IfOk result (GivesPlan script.now) }
    ensures typed { IfOk result IsTyped }
    ensures fault { IfErr result (TellsFault script.now) }
{
    match read_plan(alloc, script) {
        Ok(plan) => Ok(plan),
        Err(fault) => Err(no_plan(alloc, name, script, fault)),
    }
}
