//! An actor of a script, and its feed.
ghost use Rattle.std.specs.Prelude.{◌≡◌, IfOk, OnOk};
ghost use Rattle.join_base.specs.Late.{HasCount};
ghost use Rattle.join_base.specs.declared.message.Source.TheVariants as source;
ghost use Rattle.script_types.specs.Typed.{IsTyped};
ghost use Rattle.fair_semantics.specs.Fair.{after_all};
ghost use Rattle.actor_turn.specs.Held.{AreLimits};
ghost use Rattle.actor_tests.specs.Feeding.{from_feed};

use actor_turn::Actor;
use fair_semantics::{Limits, Outcome};
use join_base::{Posts, Source, Steps};
use script_types::Plan;
use std::alloc::Global;
use std::sync::ledger::Ledger;
use std::test::Fail;

// Limits, each from 1 to 1,000,000.
pub fn limits_of(arrivals: u32, partials: u64) -> Limits
    ensures { AreLimits result }
{
    Limits {
        arrivals: arrivals.max(1).min(1_000_000),
        partials: partials.max(1).min(1_000_000),
    }
}

// The first actor of the plan, which has one feed.
pub fn first_actor(alloc: Global, plan: &Plan, limits: Limits) -> Result<Actor, Fail>
    requires typed { IsTyped plan.now }
    requires limits { AreLimits limits }
    ensures { IfOk result (λ a. HasCount a.state.late (source.Feed 1)) }
{
    let actor = Actor::new(alloc, plan, 0, limits, 1)?;
    Ok(actor)
}

// Brings the actor the messages of its feed. It then is as the fair semantics of these messages leaves it. The answer
// is how each came out.
pub fn outcomes<L: Ledger>(
    alloc: Global,
    actor: &mut Actor,
    posts: &Posts,
    steps: &mut Steps<L>,
) -> Result<Vec<Outcome>, Fail>
    requires { HasCount actor.old.state.late (source.Feed 1) }
    ensures late { OnOk result (HasCount actor.new.state.late (source.Feed 1)) }
    ensures setting { OnOk result (actor.new.setting ≡ actor.old.setting) }
    ensures fair { OnOk result (actor.new.state ≡ after_all actor.old.setting actor.old.state (from_feed posts.now)) }
{
    let mut outcomes = Vec::new(alloc);
    for (_, message) in posts.as_slice() {
        let outcome = actor.arrive(alloc, Source::Feed(1), message, 0, steps)?;
        outcomes.push(outcome)?;
    }
    Ok(outcomes)
}
