//! From the bytes of a script to its plan, to the text of the plan, and to what lint finds of it.
ghost use Rattle.std.specs.Prelude.{IfOk};
ghost use Rattle.script_types.specs.Typed.{IsTyped};
ghost use Rattle.plan_text.specs.PlanText.{plan_text};
ghost use Rattle.script_lint.specs.LintText.{lint_text};
ghost use Rattle.script_check.specs.Script.{NoPlanAndFault, OneScriptFault, OneScriptPlan, ReadsPlan, ReadsText};

use crate::check::{checked_outline, one_answer, plan_of};
use crate::linted::lint_script;
use crate::printed::print_script;
use join_base::Bytes;
use script_grammar::ScriptFault;
use script_types::Plan;
use std::alloc::Global;

/// The plan of a script, which is well typed: each name is replaced by the number of its declaration. Otherwise its
/// fault: the one of bytes that spell no tree, or that of the tree that they spell, at the least place, and of several at
/// that place the first in the order of `ScriptCause`. `NoMemory` says nothing of the script.
pub fn read_plan(alloc: Global, bytes: &[u8]) -> Result<Plan, ScriptFault>
    ensures plan { ReadsPlan bytes.now result }
    ensures typed { IfOk result IsTyped }
{
    let outline = checked_outline(alloc, bytes)?;
    Ok(plan_of(alloc, bytes, &outline)?)
}

/// The text of the plan of a script, as `print_plan` writes it. Otherwise its fault, as `read_plan` gives it. Of the plan
/// no more than one definition is held at a time.
pub fn read_plan_text(alloc: Global, bytes: &[u8]) -> Result<Bytes, ScriptFault>
    ensures { ReadsText plan_text bytes.now result }
{
    let outline = checked_outline(alloc, bytes)?;
    Ok(print_script(alloc, bytes, &outline)?)
}

/// The findings of the plan of a script as text: a line for each, and their number. Otherwise its fault, as `read_plan`
/// gives it. Of the plan no more than one actor's definitions are held at a time.
pub fn read_lint_text(alloc: Global, bytes: &[u8]) -> Result<Bytes, ScriptFault>
    ensures { ReadsText lint_text bytes.now result }
{
    let outline = checked_outline(alloc, bytes)?;
    Ok(lint_script(alloc, bytes, &outline)?)
}

/// A script has one plan or one fault, and never both.
pub fn one_script()
    ensures plan { OneScriptPlan }
    ensures both { NoPlanAndFault }
    ensures fault { OneScriptFault }
{
    script_reader::one_answer();
    one_answer();
}
