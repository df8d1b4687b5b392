//! What the names of a script stand for in its plan: numbers and places.
ghost use Rattle.std.specs.Prelude.{◌≡◌, ◌≤◌, length, IfOk};
ghost use Rattle.script_names.specs.Scope.{actor_rows, sort_of, variables_of};
ghost use Rattle.script_plan.specs.PlanOf.{kind_number, place_of, target_number};
ghost use Rattle.script_plan.specs.Planned.{outline_tree};
ghost use Rattle.script_plan.specs.Small.{IsSmallRule};

use guard_eval::Place;
use join_base::{NoMemory, Sort};
use script_grammar::{Outline, RuleDecl};
use script_names::{Messages, NameTable, Slot, actor_names, variables_of};
use std::alloc::Global;
use std::marker::Model;

/// The outline of a script, with its messages and its actors found by their names.
#[derive(Drop)]
pub(crate) struct Script<'a> {
    pub(crate) outline: &'a Outline,
    messages: Messages<'a>,
    actors: NameTable<'a, u64>,
    ghost messages_named: { messages.decls.now ≡ outline.now.messages },
    ghost actors_named: { actors ≡ actor_rows (outline_tree outline.now).actors },
    ghost few_messages: { length outline.now.messages ≤ 64 },
    ghost few_actors: { length outline.now.actors ≤ 32 },
}

impl<'a> Script<'a> {
    pub(crate) fn new(alloc: Global, outline: &'a Outline) -> Result<Script<'a>, NoMemory>
        requires messages { length outline.now.messages ≤ 64 }
        requires actors { length outline.now.actors ≤ 32 }
        ensures { IfOk result (λ s. s.outline.now ≡ outline.now) }
    {
        Ok(Script {
            outline,
            messages: Messages::new(alloc, outline.messages.as_slice())?,
            actors: actor_names(alloc, outline.actors.as_slice())?,
        })
    }

    /// The number of the message of a name, and 0 where there is none.
    pub(crate) fn kind_number(&self, name: &[u8]) -> u32
        ensures { result ≡ kind_number (outline_tree self.now.outline.now) name.now }
    {
        match self.messages.names().number_of(name) {
            Some(number) => number as u32,
            None => 0,
        }
    }

    /// The number of the actor of a name, and 0 where there is none.
    pub(crate) fn target_number(&self, name: &[u8]) -> u32
        ensures { result ≡ target_number (outline_tree self.now.outline.now) name.now }
    {
        match self.actors.number_of(name) {
            Some(number) => number as u32,
            None => 0,
        }
    }
}

/// The variables of a definition, of at most 8 patterns with at most 8 fields each.
#[derive(Drop)]
pub(crate) struct Variables<'a> {
    slots: NameTable<'a, Slot>,
}

impl<'a> Model for Variables<'a> {
    ghost use Rattle.std.specs.Prelude.{List};
    ghost use Rattle.std.specs.List.{AllByRecursion};
    ghost use Rattle.script_names.specs.Scope.{Variable};
    ghost use Rattle.script_plan.specs.Small.{IsWithin};

    ghost Value = { List Variable };

    ghost view = { λ v. v.slots };

    ghost invariant = { λ v. AllByRecursion IsWithin v.slots };
}

impl<'a> Variables<'a> {
    pub(crate) fn new(
        alloc: Global,
        script: &Script<'a>,
        rule: &'a RuleDecl,
    ) -> Result<Variables<'a>, NoMemory>
        requires { IsSmallRule rule.now }
        ensures { IfOk result (λ v. v ≡ variables_of script.now.outline.now.messages rule.now) }
    {
        let slots = variables_of(alloc, &script.messages, rule)?;
        Ok(Variables { slots })
    }

    /// The type of the variable of a name.
    pub(crate) fn sort_of(&self, name: &[u8]) -> Sort
        ensures { result ≡ sort_of self.now name.now }
    {
        match self.slots.item_of(name) {
            Some(slot) => slot.sort,
            None => Sort::Int,
        }
    }

    /// The pattern and the field of the variable of a name, and 0 and 0 where there is none.
    pub(crate) fn place_of(&self, name: &[u8]) -> Place
        ensures { result ≡ place_of self.now name.now }
    {
        match self.slots.item_of(name) {
            Some(slot) => Place {
                pattern: slot.pattern as u32,
                field: slot.field as u32,
            },
            None => Place {
                pattern: 0,
                field: 0,
            },
        }
    }
}
