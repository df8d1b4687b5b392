ghost use Rattle.std.specs.Prelude.{◌≡◌, ℕ, ◌<◌, All, IfOk, OnOk, length, map};
ghost use Rattle.script_types.specs.Typed.{IsTyped};
ghost use Rattle.run_fit_law.specs.FitsLaw.{RulesFit};
ghost use Rattle.actor_turn.specs.Held.{AreLimits};
ghost use Rattle.cell_links.specs.Ends.{link_count, poster_tag};
ghost use Rattle.actor_cells.specs.AllLawful.{AreLawful};
ghost use Rattle.actor_cells.specs.Lawful.{cell_tag};
ghost use Rattle.actor_cells.specs.Prepared.{AreWired, cells_of};
ghost use Rattle.actor_cells.specs.Tags.{AreTagsOf};

use crate::by_cells;
use actor_cells::{Cells, Turned};
use cell_links::FeedLinks;
use fair_semantics::{Limits, Run};
use join_base::{Fields, Items, Message, Name, NoMemory, Steps};
use pool_settling::settle;
use script_types::{ActorPlan, Kind, Plan};
use std::alloc::Global;
use std::marker::Brand;
use std::sync::ledger::{Blank, Ledger};
use std::test::Fail;

// One kind without fields, and one actor without rules.
#[tactic(auto, using(crate::proofs::PlanLemmas::plan_typed))]
fn plan(alloc: Global) -> Result<Plan, Fail>
    ensures typed { IfOk result IsTyped }
    ensures actors { IfOk result (λ p. length p.actors ≡ 1) }
{
    let kind = Kind {
        name: Name::from_bytes(alloc, b"a")?,
        fields: Items::new(alloc),
    };
    let mut kinds = Items::new(alloc);
    kinds.push(kind)?;
    let actor = ActorPlan {
        name: Name::from_bytes(alloc, b"m")?,
        rules: Items::new(alloc),
    };
    let mut actors = Items::new(alloc);
    actors.push(actor)?;
    Ok(Plan { kinds, actors })
}

// The cell of that actor, and the poster of a feed.
fn prepared(alloc: Global, plan: &Plan, limits: Limits) -> Result<(Cells, Vec<FeedLinks>), Fail>
    requires typed { IsTyped plan.now }
    requires one { length plan.now.actors ≡ 1 }
    requires limits { AreLimits limits }
    ensures cells { IfOk result (λ made. length (cells_of made.0) ≡ 1) }
    ensures tags { IfOk result (λ made. AreTagsOf plan.now limits 1 (map cell_tag (cells_of made.0))) }
    ensures lawful { IfOk result (λ made. AreLawful (cells_of made.0)) }
    ensures wired { IfOk result (λ made. AreWired (map cell_tag (cells_of made.0)) (map poster_tag made.1.items)) }
    ensures posters { IfOk result (λ made. length made.1.items ≡ 1) }
    ensures links { IfOk result (λ made. All (λ p. link_count p ≡ 1) made.1.items) }
    ensures rules { OnOk result ((actor : ℕ) → actor < length plan.now.actors → RulesFit plan.now limits actor) }
{
    let made = by_cells::prepared(alloc, plan, limits, 4096)?;
    Ok(made)
}

// Posts so many messages to the actor, as far as there is room, and counts them.
fn post(alloc: Global, poster: &mut FeedLinks, count: u32) -> u32
    requires { link_count poster.old ≡ 1 }
    ensures { poster_tag poster.new ≡ poster_tag poster.old }
{
    let mut posted = 0u32;
    for _ in 0..count {
        let message = Message {
            kind: 0,
            fields: Fields::new(alloc),
        };
        if poster.push(0, message).is_ok() {
            posted = posted.saturating_add(1);
        }
    }
    posted
}

// Whether a serve ended so.
fn has_turned(served: Result<Turned, NoMemory>, wanted: Turned) -> bool {
    match served {
        Ok(turned) => turned == wanted,
        Err(_) => false,
    }
}

// Serves the cell. The answer is whether it was served so.
fn is_served<L: Ledger>(
    alloc: Global,
    cells: &mut Cells,
    wanted: Turned,
    steps: &mut Steps<L>,
) -> bool
    requires one { length (cells_of cells.old) ≡ 1 }
    requires lawful { AreLawful (cells_of cells.old) }
    ensures lawful { AreLawful (cells_of cells.new) }
    ensures tags { map cell_tag (cells_of cells.new) ≡ map cell_tag (cells_of cells.old) }
    ensures one { length (cells_of cells.new) ≡ 1 }
{
    let served = cells.serve(alloc, 0, steps);
    has_turned(served, wanted)
}

// Whether two serves take as many messages as one call takes, and a third one what is left.
fn are_served<L: Ledger>(alloc: Global, cells: &mut Cells, steps: &mut Steps<L>) -> bool
    requires one { length (cells_of cells.old) ≡ 1 }
    requires lawful { AreLawful (cells_of cells.old) }
    ensures lawful { AreLawful (cells_of cells.new) }
    ensures tags { map cell_tag (cells_of cells.new) ≡ map cell_tag (cells_of cells.old) }
{
    let first = is_served(alloc, cells, Turned::More, steps);
    let second = is_served(alloc, cells, Turned::More, steps);
    let third = is_served(alloc, cells, Turned::Dry, steps);
    first && second && third
}

// Whether the first actor has so many arrivals.
fn has_arrivals(run: &Run, count: usize) -> bool {
    match run.actors.as_slice().get(0) {
        Some(own) => own.entries.len() == count,
        None => false,
    }
}

// Whether 600 posts take three serves, and the run that is settled then has 600 arrivals.
fn are_settled<L: Ledger>(alloc: Global, plan: &Plan, blank: Blank) -> Result<bool, Fail>
    requires name { blank.name ≡ L.name }
    requires parts { blank.parts ≡ L.parts }
    requires some { 0 < L.parts }
    requires typed { IsTyped plan.now }
    requires one { length plan.now.actors ≡ 1 }
{
    let limits = Limits {
        arrivals: 1000000,
        partials: 1,
    };
    let (mut cells, mut posters) = prepared(alloc, plan, limits)?;
    let posted = post(alloc, &mut posters[0], 600) == 600;
    let mut steps = Steps::<L>::new(blank);
    let served = are_served(alloc, &mut cells, &mut steps);
    let run = settle(alloc, plan, limits, cells.into_cells(), posters, &mut steps)?;
    let arrived = has_arrivals(&run, 600);
    Ok(posted & served & arrived)
}

fn six_hundred_posts(alloc: Global) -> Result<bool, Fail> {
    let plan = plan(alloc)?;
    are_settled::<Brand>(alloc, &plan, Blank::new(1))
}

#[test]
fn six_hundred_posts_take_three_serves_and_are_settled(rt: HostRuntime) -> Result<(), Fail> {
    assert!(rt; six_hundred_posts(rt.alloc())?);
    Ok(())
}
