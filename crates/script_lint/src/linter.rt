//! The findings of a plan, actor by actor.
ghost use Rattle.std.specs.Prelude.{◌≡◌, IfOk, OnOk};
ghost use Rattle.script_lint.specs.Findings.{findings};
ghost use Rattle.script_lint.specs.Looked.{looked_all, looked_at, none_looked, reported};

use crate::finding::Finding;
use crate::report::{push_idle, push_rules};
use join_base::{Items, NoMemory};
use script_types::{ActorPlan, Kind, Plan, Rule};
use std::alloc::Global;
use std::marker::Model;

/// Looks at the definitions of one actor after the other. It keeps their findings and the numbers of the kinds that
/// those without a finding take, and none of the definitions.
#[derive(Drop)]
pub struct Linter {
    number: u32,
    found: Items<Finding>,
    taken: Items<u32>,
}

impl Model for Linter {
    ghost use Rattle.script_lint.specs.Looked.{Looked};

    ghost Value = { Looked };

    ghost view = { λ l. record { number = l.number; found = l.found; taken = l.taken } };
}

impl Linter {
    /// Nothing was looked at.
    pub fn new(alloc: Global) -> Linter
        ensures none { result ≡ none_looked }
    {
        Linter {
            number: 0,
            found: Items::new(alloc),
            taken: Items::new(alloc),
        }
    }

    /// Looks at the definitions of the next actor. It answers `NoMemory` also where there are more of them, or of
    /// actors, than 32 bits count. Behind that some of their findings may be missing.
    pub fn look_at(&mut self, rules: &[Rule]) -> Result<(), NoMemory>
        ensures { OnOk result (self.new ≡ looked_at self.old rules.now) }
    {
        let number = self.number;
        if number == u32::MAX || rules.len() >= u32::MAX as usize {
            return Err(NoMemory);
        }
        push_rules(&mut self.found, &mut self.taken, number, rules)?;
        self.number = number + 1;
        Ok(())
    }

    /// The findings of the actors' definitions, and then those of the idle ones of these kinds.
    pub fn report(self, kinds: &[Kind]) -> Result<Items<Finding>, NoMemory>
        ensures { IfOk result (λ r. r ≡ reported self kinds.now) }
    {
        let Linter {
            number: _,
            mut found,
            taken,
        } = self;
        if kinds.len() > u32::MAX as usize {
            return Err(NoMemory);
        }
        push_idle(&mut found, taken.as_slice(), kinds)?;
        Ok(found)
    }
}

fn look_at_all(linter: &mut Linter, actors: &[ActorPlan]) -> Result<(), NoMemory>
    ensures { OnOk result (linter.new ≡ looked_all linter.old actors.now) }
{
    for actor in actors {
        linter.look_at(actor.rules.as_slice())?;
    }
    Ok(())
}

/// The findings of a plan: of the definitions in order of actors and rules, at most one of each, and then the idle
/// kinds in order. `NoMemory` where there is no memory for them, or where 32 bits don't count a plan's parts.
#[tactic(auto, using(crate::proofs::LinterLemmas::findings_reported))]
pub fn lint(alloc: Global, plan: &Plan) -> Result<Items<Finding>, NoMemory>
    ensures report { IfOk result (λ r. r ≡ findings plan.now) }
{
    let mut linter = Linter::new(alloc);
    look_at_all(&mut linter, plan.actors.as_slice())?;
    let found = linter.report(plan.kinds.as_slice())?;
    Ok(found)
}
