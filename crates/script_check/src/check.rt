//! Reading a script once more: for the first fault of its names and types, and for its plan.
ghost use Rattle.std.specs.Prelude.{IfOk, OnOk};
ghost use Rattle.script_reader.specs.Spells.{SpellsOutline};
ghost use Rattle.script_types.specs.Typed.{IsTyped};
ghost use Rattle.script_check.specs.Checked.{ChecksOutline, HasVisited, IsFaultless};
ghost use Rattle.script_check.specs.Script.{GivesPlan, IsFirstFault};
ghost use Rattle.script_check.specs.Types.{NoBoth, OneFault, OnePlan};

use join_base::NoMemory;
use script_faults::{Fault, first_fault_at};
use script_grammar::{Outline, ScriptFault};
use script_plan::{PlanVisitor, plan_at, visit_plan};
use script_reader::{read_outline, tokens_of};
use script_types::Plan;
use std::alloc::Global;

// The first fault of the names and types of a script with this outline. The bytes spell a script, so here and in the
// functions below no reading refuses them. A refusal can't come, and is answered as want of memory, which alone can.
fn fault_of(alloc: Global, bytes: &[u8], outline: &Outline) -> Result<Option<Fault>, NoMemory>
    requires outline { SpellsOutline bytes.now outline.now }
    ensures { IfOk result (λ found. IsFirstFault bytes.now found) }
{
    let mut tokens = tokens_of(alloc, bytes)?;
    match first_fault_at(alloc, outline, &mut tokens) {
        Ok(found) => Ok(found),
        Err(_) => Err(NoMemory),
    }
}

/// The outline of a script without a fault. Otherwise its fault.
pub fn checked_outline(alloc: Global, bytes: &[u8]) -> Result<Outline, ScriptFault>
    ensures { ChecksOutline bytes.now result }
{
    let outline = read_outline(alloc, bytes)?;
    let found = fault_of(alloc, bytes, &outline)?;
    match found {
        Some(fault) => Err(ScriptFault::Bad {
            place: fault.place,
            cause: fault.cause,
        }),
        None => Ok(outline),
    }
}

/// The plan of a script with this outline and without a fault.
pub(crate) fn plan_of(alloc: Global, bytes: &[u8], outline: &Outline) -> Result<Plan, NoMemory>
    requires { IsFaultless bytes.now outline.now }
    ensures plan { IfOk result (λ plan. GivesPlan bytes.now plan) }
    ensures typed { IfOk result IsTyped }
{
    let mut tokens = tokens_of(alloc, bytes)?;
    match plan_at(alloc, outline, &mut tokens) {
        Ok(plan) => Ok(plan),
        Err(_) => Err(NoMemory),
    }
}

/// Hands the plan of a script with this outline and without a fault to a visitor, definition by definition.
pub fn visit_script<V: PlanVisitor>(
    alloc: Global,
    bytes: &[u8],
    outline: &Outline,
    visitor: &mut V,
) -> Result<(), NoMemory>
    requires { IsFaultless bytes.now outline.now }
    ensures { OnOk result (HasVisited V.with_actor V.with_rule V.with_end (V.taken visitor.old) (V.taken visitor.new)
        bytes.now outline.now) }
{
    let mut tokens = tokens_of(alloc, bytes)?;
    match visit_plan(alloc, outline, visitor, &mut tokens) {
        Ok(()) => Ok(()),
        Err(_) => Err(NoMemory),
    }
}

/// A tree has one plan or one fault, and never both.
pub fn one_answer()
    ensures plan { OnePlan }
    ensures both { NoBoth }
    ensures fault { OneFault }
{}
