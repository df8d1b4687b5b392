//! A pool without a worker: the thread that posts a feed takes the turns, and the rest is done at the end.
ghost use Rattle.std.specs.Prelude.{◌≡◌, ◌<◌, All, length, map};
ghost use Rattle.std.specs.List.{AllByRecursion};
ghost use Rattle.script_types.specs.Typed.{IsTyped};
ghost use Rattle.fair_semantics.specs.Fits.{PostFits};
ghost use Rattle.actor_turn.specs.Held.{AreLimits};
ghost use Rattle.actor_pool.specs.Helpers.{IsHelperOf, actor_count, seat_of};
ghost use Rattle.actor_pool.specs.Posters.{IsPosterOf, feed_tag};

use crate::cases::{Case, thousand, thousand_texts};
use crate::fed::limits_of;
use crate::whole_runs::same_run;
use actor_pool::{Helper, Pool, Poster, feed};
use fair_semantics::{Limits, Run};
use feed_store::Feed;
use join_base::NoMemory;
use log_reader::read_log;
use pool_run::finish;
use script_check::read_plan;
use script_types::Plan;
use sensor_feed::read_feed;
use std::alloc::Global;
use std::sync::Wait;
use std::test::Fail;

// Posts a feed. The answer is whether there was memory.
fn is_posted<R: Wait>(
    rt: &R,
    alloc: Global,
    pool: &Pool,
    posters: &mut Vec<Poster>,
    helper: &mut Helper,
    posts: Feed,
) -> bool
    requires some { 0 < length posters.old.items }
    requires own { All (IsPosterOf pool.now) posters.old.items }
    requires helper { IsHelperOf pool.now helper.old }
    requires exist { All (λ post. post.0 < actor_count pool.now) posts }
    ensures count { length posters.new.items ≡ length posters.old.items }
    ensures own { All (IsPosterOf pool.now) posters.new.items }
    ensures links { map feed_tag posters.new.items ≡ map feed_tag posters.old.items }
    ensures helper { IsHelperOf pool.now helper.new }
    ensures role { (seat_of helper.new).role ≡ (seat_of helper.old).role }
    ensures tags { (seat_of helper.new).tags ≡ (seat_of helper.old).tags }
{
    feed(rt, alloc, pool, &mut posters[0], helper, posts).is_ok()
}

// The run of a feed over links with room for one message, and whether all of it was posted.
fn fed_run<R: Wait>(
    rt: &R,
    alloc: Global,
    plan: &Plan,
    limits: Limits,
    posts: Feed,
) -> Result<(bool, Run), NoMemory>
    requires typed { IsTyped plan.now }
    requires limits { AreLimits limits }
    requires fits { AllByRecursion (PostFits plan.now) posts }
{
    let (pool, mut posters, mut helper) = Pool::new(alloc, plan, limits, 1, 1)?;
    let posted = is_posted(rt, alloc, &pool, &mut posters, &mut helper, posts);
    let run = finish(alloc, plan, limits, pool, posters, helper)?;
    Ok((posted, run))
}

// Whether the feed comes to the run of the log.
fn comes_to_the_log<R: Wait>(rt: &R, alloc: Global, case: Case<'_>) -> Result<bool, Fail> {
    let plan = read_plan(alloc, case.script)?;
    let posts = read_feed(alloc, &plan, case.rows)?;
    let expected = read_log(alloc, &plan, case.log)?;
    let limits = limits_of(case.most.0, case.most.1);
    let (posted, run) = fed_run(rt, alloc, &plan, limits, posts)?;
    Ok(posted && same_run(&expected, &run))
}

#[test]
fn a_thousand_rows_come_to_their_log_without_a_worker(rt: HostRuntime) -> Result<(), Fail> {
    let texts = thousand_texts(rt.alloc())?;
    assert!(rt; comes_to_the_log(&rt, rt.alloc(), thousand(&texts))?);
    Ok(())
}
