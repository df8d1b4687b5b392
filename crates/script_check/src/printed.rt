//! The text of a script's plan, of which no more than one definition is made at a time.
ghost use Rattle.std.specs.Prelude.{IfOk};
ghost use Rattle.plan_text.specs.PlanText.{plan_text};
ghost use Rattle.script_check.specs.declared.printed.Printer.{Printer};
ghost use Rattle.script_check.specs.Checked.{IsFaultless};
ghost use Rattle.script_check.specs.Script.{GivesText};
ghost use Rattle.script_check.specs.Visitors.{actor_begun, actor_ended, rule_printed};

use crate::check::visit_script;
use join_base::{Bytes, Name, NoMemory};
use plan_text::{write_actor_begin, write_actor_end, write_kinds, write_rule};
use script_grammar::Outline;
use script_plan::{PlanVisitor, plan_heads};
use script_types::{Plan, Rule};
use std::alloc::Global;

// Appends the text of the actors that it takes. The heads are their plan without a definition: a definition's text asks
// for its names alone.
#[derive(Drop)]
struct Printer<'a> {
    heads: &'a Plan,
    text: Bytes,
}

impl<'a> PlanVisitor for Printer<'a> {
    ghost Taken = { Printer };

    ghost taken = { λ s. s };

    ghost with_actor = { actor_begun };

    ghost with_rule = { rule_printed };

    ghost with_end = { actor_ended };

    fn begin_actor(&mut self, _alloc: Global, name: &Name) -> Result<(), NoMemory> {
        write_actor_begin(&mut self.text, name)?;
        Ok(())
    }

    fn take_rule(&mut self, _alloc: Global, rule: Rule) -> Result<(), NoMemory> {
        write_rule(&mut self.text, self.heads, &rule)?;
        Ok(())
    }

    fn end_actor(&mut self, _alloc: Global, _name: Name) -> Result<(), NoMemory> {
        write_actor_end(&mut self.text)?;
        Ok(())
    }
}

/// The text of the plan of a script with this outline and without a fault.
pub(crate) fn print_script(
    alloc: Global,
    bytes: &[u8],
    outline: &Outline,
) -> Result<Bytes, NoMemory>
    requires { IsFaultless bytes.now outline.now }
    ensures { IfOk result (λ text. GivesText plan_text bytes.now text) }
{
    let heads = plan_heads(alloc, outline)?;
    let mut text = Bytes::new(alloc);
    write_kinds(&mut text, heads.kinds.as_slice())?;
    let mut printer = Printer {
        heads: &heads,
        text,
    };
    visit_script(alloc, bytes, outline, &mut printer)?;
    Ok(printer.text)
}
