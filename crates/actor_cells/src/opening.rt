//! Opening cells.
ghost use Rattle.std.specs.Prelude.{◌≡◌, ℕ, ◌<◌, length, map, IfOk, OnOk};
ghost use Rattle.std.specs.List.{AllByRecursion};
ghost use Rattle.script_types.specs.Typed.{IsTyped};
ghost use Rattle.fair_semantics.specs.Fair.{setting_of};
ghost use Rattle.fair_semantics.specs.Fits.{RuleFits};
ghost use Rattle.actor_turn.specs.Held.{AreLimits};
ghost use Rattle.actor_cells.specs.Lawful.{held_in};
ghost use Rattle.actor_cells.specs.Targets.{new_actors};

use crate::actor_set::ActorSet;
use crate::cell::Cell;
use actor_turn::Actor;
use cell_links::{ActorLinks, Inward};
use fair_semantics::Limits;
use join_base::{NoMemory, Source};
use script_types::Plan;
use std::alloc::Global;

// The place of the link from this actor, or one behind the links where there is none.
fn own_place(links: &[Inward], actor: u32) -> usize {
    for place in 0..links.len() {
        if links[place].source == Source::Actor(actor) {
            return place;
        }
    }
    links.len()
}

/// The cells of the actors of a plan before their first arrivals, with these links.
pub fn opening_cells(
    alloc: Global,
    plan: &Plan,
    limits: Limits,
    feeds: u32,
    links: Vec<ActorLinks>,
) -> Result<Vec<Cell>, NoMemory>
    requires typed { IsTyped plan.now }
    requires limits { AreLimits limits }
    requires count { length links.items ≡ length plan.now.actors }
    ensures actors { IfOk result (λ cells. map held_in cells.items ≡ new_actors plan.now limits feeds
        (length plan.now.actors)) }
    ensures inward { IfOk result (λ cells. map (λ c. c.inward.items) cells.items ≡ map (λ l. l.inward.items)
        links.items) }
    ensures outward { IfOk result (λ cells. map (λ c. c.outward.items) cells.items ≡ map (λ l. l.outward.items)
        links.items) }
    ensures texts { OnOk result ((index : ℕ) → index < length plan.now.actors
        → AllByRecursion RuleFits (setting_of plan.now index limits).rules) }
{
    let mut cells = Vec::new(alloc);
    let mut index = 0u32;
    for own in links {
        let actor = Actor::new(alloc, plan, index, limits, feeds)?;
        let ActorLinks { inward, outward } = own;
        let place = own_place(inward.as_slice(), index);
        cells.push(Cell {
            actor: Box::new(alloc, actor)?,
            inward,
            outward,
            own: place,
            moved: ActorSet::new(),
            held: ActorSet::new(),
        })?;
        index += 1;
    }
    Ok(cells)
}
