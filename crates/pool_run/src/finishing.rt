//! From a whole pool to the run.
ghost use Rattle.std.specs.Prelude.{◌≡◌, ◌<◌, ℕ, length, IfOk};
ghost use Rattle.script_types.specs.Typed.{IsTyped};
ghost use Rattle.run_fit_law.specs.FitsLaw.{RulesFit};
ghost use Rattle.fair_semantics.specs.Fits.{IsFrom1To};
ghost use Rattle.actor_turn.specs.Held.{AreLimits};
ghost use Rattle.actor_pool.specs.Helpers.{seat_of};
ghost use Rattle.actor_pool.specs.Whole.{IsWhole};
ghost use Rattle.pool_run.specs.Finishing.{FinishesFew, GoesOnFromSeen, IsLinkedToSent, IsScheduledOverSent};

use actor_pool::{Helper, Pool, Poster};
use fair_semantics::{Limits, Run};
use join_base::{NoMemory, Steps};
use pool_settling::settle;
use script_types::Plan;
use std::alloc::Global;
use std::marker::Brand;
use std::sync::ledger::{Blank, Ledger};

// The same, with the steps counted.
fn finish_in<L: Ledger>(
    alloc: Global,
    plan: &Plan,
    limits: Limits,
    pool: Pool,
    posters: Vec<Poster>,
    helper: Helper,
    blank: Blank,
) -> Result<Run, NoMemory>
    requires typed { IsTyped plan.now }
    requires rules { (actor : ℕ) → actor < length plan.now.actors → RulesFit plan.now limits actor }
    requires limits { AreLimits limits }
    requires feeds { IsFrom1To 16 (length posters.items) }
    requires whole { IsWhole plan.now limits pool posters.items helper }
    requires name { blank.name ≡ L.name }
    requires blank_parts { blank.parts ≡ L.parts }
    requires some { 0 < L.parts }
    ensures linked { IfOk result (IsLinkedToSent plan.now limits posters.items) }
    ensures scheduled { IfOk result (IsScheduledOverSent plan.now limits posters.items) }
    ensures version { IfOk result (λ run. run.version ≡ 2) }
    ensures seen { IfOk result (GoesOnFromSeen plan.now posters.items (seat_of helper)) }
    ensures few { IfOk result (FinishesFew (seat_of helper) posters.items) }
{
    let mut steps = Steps::<L>::new(blank);
    let (cells, ends) = pool.close(alloc, posters, helper)?;
    settle(alloc, plan, limits, cells, ends, &mut steps)
}

/// Closes a pool that has all its parts, brings what still waits to the actors, and gives the run that they show. The
/// run is linked to the feeds whose posts to each actor are what the posters sent, and it is that of one schedule of
/// single steps. The arrivals of each actor go on from what the helper had seen of it, with the stamps that they
/// carried.
///
/// There are lawful cells, one with each tag that the helper knows, in order, that go on from what it had seen. Beyond
/// what these were given, the actors are given at most what waits in links and in outboxes, and 17 messages for each
/// arrival that they may still record.
///
/// It does not wait. `NoMemory` comes where there was none, for an arrival or for the lists that it needs.
pub fn finish(
    alloc: Global,
    plan: &Plan,
    limits: Limits,
    pool: Pool,
    posters: Vec<Poster>,
    helper: Helper,
) -> Result<Run, NoMemory>
    requires typed { IsTyped plan.now }
    requires rules { (actor : ℕ) → actor < length plan.now.actors → RulesFit plan.now limits actor }
    requires limits { AreLimits limits }
    requires feeds { IsFrom1To 16 (length posters.items) }
    requires whole { IsWhole plan.now limits pool posters.items helper }
    ensures linked { IfOk result (IsLinkedToSent plan.now limits posters.items) }
    ensures scheduled { IfOk result (IsScheduledOverSent plan.now limits posters.items) }
    ensures version { IfOk result (λ run. run.version ≡ 2) }
    ensures seen { IfOk result (GoesOnFromSeen plan.now posters.items (seat_of helper)) }
    ensures few { IfOk result (FinishesFew (seat_of helper) posters.items) }
{
    finish_in::<Brand>(alloc, plan, limits, pool, posters, helper, Blank::new(1))
}
