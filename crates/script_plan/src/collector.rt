//! The visitor that collects a whole plan.
ghost use Rattle.std.specs.Prelude.{◌≡◌, []};
ghost use Rattle.script_plan.specs.declared.collector.Collector.{Collector};
ghost use Rattle.script_plan.specs.Collected.{begun_collected, end_collected, rule_collected};

use crate::visitor::PlanVisitor;
use join_base::{Items, Name, NoMemory};
use script_types::{ActorPlan, Rule};
use std::alloc::Global;
use std::mem;

/// The plans of the actors so far, and the definitions of the one that is read.
#[derive(Drop)]
pub(crate) struct Collector {
    pub(crate) actors: Items<ActorPlan>,
    rules: Items<Rule>,
}

impl Collector {
    pub(crate) fn new(alloc: Global) -> Collector
        ensures actors { result.actors ≡ [] }
        ensures rules { result.rules ≡ [] }
    {
        Collector {
            actors: Items::new(alloc),
            rules: Items::new(alloc),
        }
    }
}

impl PlanVisitor for Collector {
    ghost Taken = { Collector };

    ghost taken = { λ s. s };

    ghost with_actor = { begun_collected };

    ghost with_rule = { rule_collected };

    ghost with_end = { end_collected };

    fn begin_actor(&mut self, _alloc: Global, _name: &Name) -> Result<(), NoMemory> {
        Ok(())
    }

    fn take_rule(&mut self, _alloc: Global, rule: Rule) -> Result<(), NoMemory> {
        self.rules.push(rule)?;
        Ok(())
    }

    fn end_actor(&mut self, alloc: Global, name: Name) -> Result<(), NoMemory> {
        let rules = mem::replace(&mut self.rules, Items::new(alloc));
        self.actors.push(ActorPlan { name, rules })?;
        Ok(())
    }
}
