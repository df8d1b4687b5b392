//! What a new system keeps.
ghost use Rattle.std.specs.Prelude.{◌≡◌, ◌<◌, ◌≤◌, ◌^◌, length, map, OnOk, IfOk, replicate};
ghost use Rattle.std.specs.List.{AllByRecursion};
ghost use Rattle.script_types.specs.Typed.{IsTyped};
ghost use Rattle.fair_semantics.specs.Fair.{setting_of};
ghost use Rattle.fair_semantics.specs.Fits.{RuleFits};
ghost use Rattle.fair_semantics.specs.Linked.{numbers_from};
ghost use Rattle.actor_turn.specs.Held.{AreLimits, new_actor};
ghost use Rattle.actor_system.specs.Opening.{RulesInRange, new_actors, rows_of};

use actor_turn::Actor;
use fair_semantics::Limits;
use join_base::NoMemory;
use script_types::Plan;
use std::alloc::Global;

/// The actors of the plan before their first arrivals.
pub fn actors_of(
    alloc: Global,
    plan: &Plan,
    limits: Limits,
    feeds: u32,
) -> Result<Vec<Actor>, NoMemory>
    requires typed { IsTyped plan.now }
    requires few { length plan.now.actors < 2 ^ 32 }
    requires limits { AreLimits limits }
    ensures opening { IfOk result (λ actors. actors.items ≡ new_actors plan.now limits feeds (length plan.now.actors)) }
    ensures rules { OnOk result (RulesInRange plan.now limits (length plan.now.actors)) }
{
    let mut actors = Vec::new(alloc);
    for index in 0..plan.actors.len() {
        actors.push(Actor::new(alloc, plan, index as u32, limits, feeds)?)?;
    }
    Ok(actors)
}

/// So many rows of zeros.
pub fn zeros(alloc: Global, rows: usize, width: usize) -> Result<Vec<Vec<usize>>, NoMemory>
    ensures rows { IfOk result (λ places. map (λ row. row.items) places.items ≡ rows_of rows width) }
{
    let mut places = Vec::new(alloc);
    for _ in 0..rows {
        places.push(vec![in alloc; 0; width]?)?;
    }
    Ok(places)
}
