//! What takes the plans of a script's definitions while they are read.
ghost use Rattle.std.specs.Prelude.{◌≡◌, ℕ, List, OnOk};
ghost use Rattle.script_types.specs.declared.plan.Rule.{Rule};

use join_base::{Name, NoMemory};
use script_types::Rule;
use std::alloc::Global;

/// Takes the plans of a script's definitions, actor by actor, in the order of the text.
pub trait PlanVisitor {
    // What was taken so far, and with what is taken next.
    ghost Taken: { Type 0 };

    ghost taken: { Self → Taken };

    ghost with_actor: { Taken → List ℕ → Taken };

    ghost with_rule: { Taken → Rule → Taken };

    ghost with_end: { Taken → List ℕ → Taken };

    /// An actor of this name begins.
    fn begin_actor(&mut self, alloc: Global, name: &Name) -> Result<(), NoMemory>
        ensures { OnOk result (taken self.new ≡ with_actor (taken self.old) name.now) };

    /// One definition more of it.
    fn take_rule(&mut self, alloc: Global, rule: Rule) -> Result<(), NoMemory>
        ensures { OnOk result (taken self.new ≡ with_rule (taken self.old) rule) };

    /// The actor's definitions are at their end.
    fn end_actor(&mut self, alloc: Global, name: Name) -> Result<(), NoMemory>
        ensures { OnOk result (taken self.new ≡ with_end (taken self.old) name) };
}
