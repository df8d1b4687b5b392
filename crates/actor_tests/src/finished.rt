//! A pool of two actors that get a turn each, and that then is finished.
ghost use Rattle.std.specs.Prelude.{◌≡◌, ◌<◌, All, length, map};
ghost use Rattle.script_types.specs.Typed.{IsTyped};
ghost use Rattle.actor_turn.specs.Held.{AreLimits};
ghost use Rattle.actor_pool.specs.Helpers.{IsHelperOf, actor_count, seat_of};
ghost use Rattle.actor_pool.specs.Posters.{IsPosterOf, feed_tag};

use crate::cases::{Case, ping_pong};
use crate::fed::limits_of;
use crate::whole_runs::same_run;
use actor_pool::{Helper, Pool, Poster, turn};
use fair_semantics::{Limits, Run};
use join_base::{Message, NoMemory, Steps};
use log_reader::read_log;
use pool_run::finish;
use script_check::read_plan;
use script_types::Plan;
use sensor_feed::read_feed;
use std::alloc::Global;
use std::marker::Brand;
use std::sync::ledger::{Blank, Ledger};
use std::test::Fail;

// Posts a message to the first actor. The answer is whether there was room.
fn is_posted(pool: &Pool, posters: &mut Vec<Poster>, message: Message) -> bool
    requires some { 0 < length posters.old.items }
    requires own { All (IsPosterOf pool.now) posters.old.items }
    requires exists { 0 < actor_count pool.now }
    ensures count { length posters.new.items ≡ length posters.old.items }
    ensures own { All (IsPosterOf pool.now) posters.new.items }
    ensures tags { map feed_tag posters.new.items ≡ map feed_tag posters.old.items }
{
    posters[0].post(pool, 0, message).is_ok()
}

// Gives an actor a turn. The answer is whether there was memory.
fn has_turn<L: Ledger>(
    alloc: Global,
    pool: &Pool,
    helper: &mut Helper,
    actor: u32,
    steps: &mut Steps<L>,
) -> bool
    requires own { IsHelperOf pool.now helper.old }
    requires exists { actor < actor_count pool.now }
    ensures own { IsHelperOf pool.now helper.new }
    ensures role { (seat_of helper.new).role ≡ (seat_of helper.old).role }
    ensures tags { (seat_of helper.new).tags ≡ (seat_of helper.old).tags }
{
    let turned = turn(alloc, pool, helper, actor, steps);
    turned.is_ok()
}

// Gives each of two actors a turn.
fn have_turns<L: Ledger>(
    alloc: Global,
    pool: &Pool,
    helper: &mut Helper,
    steps: &mut Steps<L>,
) -> bool
    requires own { IsHelperOf pool.now helper.old }
    requires two { actor_count pool.now ≡ 2 }
    ensures own { IsHelperOf pool.now helper.new }
    ensures role { (seat_of helper.new).role ≡ (seat_of helper.old).role }
    ensures tags { (seat_of helper.new).tags ≡ (seat_of helper.old).tags }
{
    let first = has_turn(alloc, pool, helper, 0, steps);
    let second = has_turn(alloc, pool, helper, 1, steps);
    first && second
}

// The run of a pool of two actors, the first of which is sent the message, and whether it was sent and both had turns.
fn finished_run<L: Ledger>(
    alloc: Global,
    plan: &Plan,
    limits: Limits,
    message: Message,
    blank: Blank,
) -> Result<(bool, Run), NoMemory>
    requires name { blank.name ≡ L.name }
    requires parts { blank.parts ≡ L.parts }
    requires some { 0 < L.parts }
    requires typed { IsTyped plan.now }
    requires limits { AreLimits limits }
    requires two { length plan.now.actors ≡ 2 }
{
    let (pool, mut posters, mut helper) = Pool::new(alloc, plan, limits, 1, 1)?;
    let mut steps = Steps::<L>::new(blank);
    let posted = is_posted(&pool, &mut posters, message);
    let served = have_turns(alloc, &pool, &mut helper, &mut steps);
    let run = finish(alloc, plan, limits, pool, posters, helper)?;
    Ok((posted && served, run))
}

// Whether the pool comes to the run of the log. Its actors answer each other, and one of them ends at its limit.
fn is_finished(
    alloc: Global,
    plan: &Plan,
    limits: Limits,
    message: Message,
    log: &[u8],
) -> Result<bool, Fail>
    requires typed { IsTyped plan.now }
    requires limits { AreLimits limits }
{
    if plan.actors.len() != 2 {
        return Ok(false);
    }
    let expected = read_log(alloc, plan, log)?;
    let (served, run) = finished_run::<Brand>(alloc, plan, limits, message, Blank::new(1))?;
    Ok(served && same_run(&expected, &run))
}

// The message of the only row of a feed.
fn message_of(alloc: Global, plan: &Plan, row: &[u8]) -> Result<Option<Message>, Fail>
    requires typed { IsTyped plan.now }
{
    let feed = read_feed(alloc, plan, row)?;
    let mut rest = feed.reader();
    match rest.next(alloc)? {
        Some((_, message)) => Ok(Some(message)),
        None => Ok(None),
    }
}

fn comes_to_the_log(alloc: Global, case: Case<'_>) -> Result<bool, Fail> {
    let plan = read_plan(alloc, case.script)?;
    let limits = limits_of(case.most.0, case.most.1);
    match message_of(alloc, &plan, case.rows)? {
        Some(message) => is_finished(alloc, &plan, limits, message, case.log),
        None => Ok(false),
    }
}

#[test]
fn a_turn_for_each_actor_and_then_the_end(rt: HostRuntime) -> Result<(), Fail> {
    assert!(rt; comes_to_the_log(rt.alloc(), ping_pong())?);
    Ok(())
}
