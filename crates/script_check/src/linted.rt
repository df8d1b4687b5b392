//! What lint finds of a script's plan, of which no more than one actor's definitions are there at a time.
ghost use Rattle.std.specs.Prelude.{IfOk};
ghost use Rattle.script_lint.specs.LintText.{lint_text};
ghost use Rattle.script_check.specs.declared.linted.ActorLinter.{ActorLinter};
ghost use Rattle.script_check.specs.Checked.{IsFaultless};
ghost use Rattle.script_check.specs.Script.{GivesText};
ghost use Rattle.script_check.specs.Visitors.{actor_looked_at, actor_met, rule_kept};

use crate::check::visit_script;
use join_base::{Bytes, Items, Name, NoMemory};
use script_grammar::Outline;
use script_lint::{Linter, write_report};
use script_plan::{PlanVisitor, plan_heads};
use script_types::Rule;
use std::alloc::Global;

// Keeps the definitions of one actor, looks at them at its end, and lets go of them.
#[derive(Drop)]
struct ActorLinter {
    rules: Items<Rule>,
    linter: Linter,
}

impl PlanVisitor for ActorLinter {
    ghost Taken = { ActorLinter };

    ghost taken = { λ s. s };

    ghost with_actor = { actor_met };

    ghost with_rule = { rule_kept };

    ghost with_end = { actor_looked_at };

    fn begin_actor(&mut self, _alloc: Global, _name: &Name) -> Result<(), NoMemory> {
        Ok(())
    }

    fn take_rule(&mut self, _alloc: Global, rule: Rule) -> Result<(), NoMemory> {
        self.rules.push(rule)?;
        Ok(())
    }

    fn end_actor(&mut self, alloc: Global, _name: Name) -> Result<(), NoMemory> {
        self.linter.look_at(self.rules.as_slice())?;
        self.rules = Items::new(alloc);
        Ok(())
    }
}

/// The findings of the plan of a script with this outline and without a fault, as text.
pub(crate) fn lint_script(alloc: Global, bytes: &[u8], outline: &Outline) -> Result<Bytes, NoMemory>
    requires { IsFaultless bytes.now outline.now }
    ensures { IfOk result (λ text. GivesText lint_text bytes.now text) }
{
    let heads = plan_heads(alloc, outline)?;
    let mut actors = ActorLinter {
        rules: Items::new(alloc),
        linter: Linter::new(alloc),
    };
    visit_script(alloc, bytes, outline, &mut actors)?;
    let found = actors.linter.report(heads.kinds.as_slice())?;
    let mut text = Bytes::new(alloc);
    write_report(&mut text, &heads, found.as_slice())?;
    Ok(text)
}
