//! The run of a feed by the system of one thread.
ghost use Rattle.std.specs.Prelude.{◌≡◌, ◌<◌, IfOk, length};
ghost use Rattle.std.specs.List.{AllByRecursion};
ghost use Rattle.script_types.specs.Typed.{IsTyped};
ghost use Rattle.fair_semantics.specs.Fits.{IsFrom1To, PostFits};
ghost use Rattle.actor_turn.specs.Held.{AreLimits};

use actor_system::System;
use fair_semantics::{Limits, Run};
use feed_store::{Feeds, unpacked_all};
use join_base::{FeedList, NoMemory, Steps};
use script_types::Plan;
use sensor_feed::read_feed;
use std::alloc::Global;
use std::marker::Brand;
use std::sync::ledger::{Blank, Ledger};
use std::test::Fail;

// The feed of these rows, which is the only one.
pub fn feeds_of(alloc: Global, plan: &Plan, rows: &[u8]) -> Result<Feeds, Fail>
    requires typed { IsTyped plan.now }
    ensures one { IfOk result (λ feeds. length feeds ≡ 1) }
    ensures count { IfOk result (λ feeds. IsFrom1To 16 (length feeds)) }
    ensures fits { IfOk result (AllByRecursion (AllByRecursion (PostFits plan.now))) }
{
    let posts = read_feed(alloc, plan, rows)?;
    let mut feeds = Feeds::new(alloc);
    feeds.push(posts)?;
    Ok(feeds)
}

// The same feed as a list of its posts.
pub fn feed_of(alloc: Global, plan: &Plan, rows: &[u8]) -> Result<FeedList, Fail>
    requires typed { IsTyped plan.now }
    ensures one { IfOk result (λ feeds. length feeds ≡ 1) }
    ensures fits { IfOk result (AllByRecursion (AllByRecursion (PostFits plan.now))) }
{
    let feeds = feeds_of(alloc, plan, rows)?;
    let lists = unpacked_all(alloc, &feeds)?;
    Ok(lists)
}

// The run that the system comes to.
fn run_of<L: Ledger>(
    alloc: Global,
    system: System<'_>,
    steps: &mut Steps<L>,
) -> Result<Run, NoMemory> {
    let mut system = system;
    system.run_to_end(alloc, steps)?;
    Ok(system.finish())
}

fn by_system<L: Ledger>(
    alloc: Global,
    plan: &Plan,
    limits: Limits,
    feeds: FeedList,
    blank: Blank,
) -> Result<Run, NoMemory>
    requires name { blank.name ≡ L.name }
    requires parts { blank.parts ≡ L.parts }
    requires some { 0 < L.parts }
    requires typed { IsTyped plan.now }
    requires limits { AreLimits limits }
    requires one { length feeds ≡ 1 }
    requires fits { AllByRecursion (AllByRecursion (PostFits plan.now)) feeds }
{
    let mut steps = Steps::<L>::new(blank);
    let system = System::new(alloc, plan, limits, feeds)?;
    run_of(alloc, system, &mut steps)
}

// The run of a feed by the system.
pub fn run_on_one_thread(
    alloc: Global,
    plan: &Plan,
    limits: Limits,
    feeds: FeedList,
) -> Result<Run, NoMemory>
    requires typed { IsTyped plan.now }
    requires limits { AreLimits limits }
    requires one { length feeds ≡ 1 }
    requires fits { AllByRecursion (AllByRecursion (PostFits plan.now)) feeds }
{
    by_system::<Brand>(alloc, plan, limits, feeds, Blank::new(1))
}
