//! The names of a plan, from the outline of a script.
ghost use Rattle.std.specs.Prelude.{◌≡◌, IfOk, map, true};
ghost use Rattle.join_base.specs.Text.{is_name};
ghost use Rattle.script_types.specs.Names.{AreNames, HasNames, actor_names};
ghost use Rattle.script_plan.specs.Visited.{head_of, heads_of};

use crate::plan::kinds_of;
use join_base::{Items, NoMemory};
use script_grammar::{Outline, Spelt};
use script_types::{ActorPlan, Plan};
use std::alloc::Global;

fn head_of(alloc: Global, spelt: &Spelt) -> Result<ActorPlan, NoMemory>
    ensures head { IfOk result (λ actor. actor ≡ head_of spelt.now) }
    ensures name { IfOk result (λ actor. is_name actor.name ≡ true) }
{
    Ok(ActorPlan {
        name: spelt.name.to_name(alloc)?,
        rules: Items::new(alloc),
    })
}

fn actor_heads(alloc: Global, names: &[Spelt]) -> Result<Items<ActorPlan>, NoMemory>
    ensures heads { IfOk result (λ actors. actors ≡ map head_of names.now) }
    ensures names { IfOk result (λ actors. AreNames (actor_names actors)) }
{
    let mut actors = Items::new(alloc);
    for spelt in names {
        let actor = head_of(alloc, spelt)?;
        actors.push(actor)?;
    }
    Ok(actors)
}

/// The kinds and the names of the actors of a script with this outline, as its plan has them, with no definition.
pub fn plan_heads(alloc: Global, outline: &Outline) -> Result<Plan, NoMemory>
    ensures heads { IfOk result (λ plan. plan ≡ heads_of outline.now) }
    ensures names { IfOk result HasNames }
{
    let kinds = kinds_of(alloc, outline.messages.as_slice())?;
    let actors = actor_heads(alloc, outline.actors.as_slice())?;
    Ok(Plan { kinds, actors })
}
