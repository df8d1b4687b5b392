//! A pool of actors on one thread: the program posts when it likes, and gives an actor a turn when its link is full.
ghost use Rattle.std.specs.Prelude.{◌≡◌, ◌<◌, ◌∷◌, [], All, IfOk, OnOk, length};
ghost use Rattle.std.specs.List.{AllByRecursion};
ghost use Rattle.script_types.specs.Typed.{IsTyped};
ghost use Rattle.fair_semantics.specs.Fits.{IsFrom1To, PostFits};
ghost use Rattle.fair_semantics.specs.Linked.{IsLinked};
ghost use Rattle.run_order_law.specs.Order.{IsScheduled};
ghost use Rattle.actor_turn.specs.Held.{AreLimits};
ghost use Rattle.post_ring.specs.Links.{stamped};
ghost use Rattle.cell_links.specs.Ends.{SendsMore};
ghost use Rattle.actor_pool.specs.Helpers.{IsHelperOf, actor_count, seat_of};
ghost use Rattle.actor_pool.specs.Posters.{IsPosterOf, SendsAll, feed_links, feed_tag};

use actor_pool::{Helper, Pool, Poster, TurnFault, turn};
use fair_semantics::{Limits, Run};
use join_base::{Message, NoMemory, Steps};
use pool_run::finish;
use script_types::Plan;
use std::alloc::Global;
use std::marker::Brand;
use std::sync::ledger::{Blank, Ledger};

/// Why there is no run.
#[derive(Clone, Copy, PartialEq, Eq, Debug)]
pub enum NoRun {
    /// A link had no room, and none after a turn of its actor.
    Full,
    NoMemory,
}

impl From<NoMemory> for NoRun {
    ghost use Rattle.std.specs.Prelude.{◌≡◌};
    ghost use Rattle.uses.specs.declared.posted.NoRun.TheVariants.{NoMemory};

    ghost from_gives = { λ _ e. e ≡ NoMemory };

    fn from(_: NoMemory) -> NoRun {
        NoRun::NoMemory
    }
}

// Posts a message to an actor whose link has room.
fn post_once(pool: &Pool, poster: &mut Poster, actor: u32, message: Message) -> Result<(), NoRun>
    requires poster { IsPosterOf pool.now poster.old }
    requires exists { actor < actor_count pool.now }
    ensures poster { IsPosterOf pool.now poster.new }
    ensures tag { feed_tag poster.new ≡ feed_tag poster.old }
    ensures sent { OnOk result (SendsMore (feed_links poster.old) actor (stamped message 0) (feed_links poster.new)) }
{
    match poster.post(pool, actor, message) {
        Ok(()) => Ok(()),
        Err(_) => Err(NoRun::Full),
    }
}

// Gives an actor a turn, in which it takes what waits on its links, and then posts a message to it.
fn post_behind_turn<L: Ledger>(
    alloc: Global,
    pool: &Pool,
    poster: &mut Poster,
    helper: &mut Helper,
    actor: u32,
    message: Message,
    steps: &mut Steps<L>,
) -> Result<(), NoRun>
    requires poster { IsPosterOf pool.now poster.old }
    requires helper { IsHelperOf pool.now helper.old }
    requires exists { actor < actor_count pool.now }
    ensures poster { IsPosterOf pool.now poster.new }
    ensures tag { feed_tag poster.new ≡ feed_tag poster.old }
    ensures sent { OnOk result (SendsMore (feed_links poster.old) actor (stamped message 0) (feed_links poster.new)) }
    ensures helper { IsHelperOf pool.now helper.new }
    ensures role { (seat_of helper.new).role ≡ (seat_of helper.old).role }
    ensures tags { (seat_of helper.new).tags ≡ (seat_of helper.old).tags }
{
    match turn(alloc, pool, helper, actor, steps) {
        Ok(_) => post_once(pool, poster, actor, message),
        Err(TurnFault::Busy { .. }) => Err(NoRun::Full),
        Err(TurnFault::NoMemory) => Err(NoRun::NoMemory),
    }
}

// Posts a message, at the second try where the link of its actor is full.
fn post_one<L: Ledger>(
    alloc: Global,
    pool: &Pool,
    poster: &mut Poster,
    helper: &mut Helper,
    actor: u32,
    message: Message,
    steps: &mut Steps<L>,
) -> Result<(), NoRun>
    requires poster { IsPosterOf pool.now poster.old }
    requires helper { IsHelperOf pool.now helper.old }
    requires exists { actor < actor_count pool.now }
    ensures poster { IsPosterOf pool.now poster.new }
    ensures tag { feed_tag poster.new ≡ feed_tag poster.old }
    ensures sent { OnOk result (SendsMore (feed_links poster.old) actor (stamped message 0) (feed_links poster.new)) }
    ensures helper { IsHelperOf pool.now helper.new }
    ensures role { (seat_of helper.new).role ≡ (seat_of helper.old).role }
    ensures tags { (seat_of helper.new).tags ≡ (seat_of helper.old).tags }
{
    match poster.post(pool, actor, message) {
        Ok(()) => Ok(()),
        Err(full) => {
            post_behind_turn(alloc, pool, poster, helper, actor, full.message, steps)?;
            Ok(())
        }
    }
}

// Posts copies of all messages, in order.
fn post_all<L: Ledger>(
    alloc: Global,
    pool: &Pool,
    poster: &mut Poster,
    helper: &mut Helper,
    posts: &[(u32, Message)],
    steps: &mut Steps<L>,
) -> Result<(), NoRun>
    requires poster { IsPosterOf pool.now poster.old }
    requires helper { IsHelperOf pool.now helper.old }
    requires exist { All (λ post. post.0 < actor_count pool.now) posts.now }
    ensures poster { OnOk result (IsPosterOf pool.now poster.new) }
    ensures tag { OnOk result (feed_tag poster.new ≡ feed_tag poster.old) }
    ensures sent { OnOk result (SendsAll (feed_links poster.old) posts.now (feed_links poster.new)) }
    ensures helper { OnOk result (IsHelperOf pool.now helper.new) }
    ensures role { OnOk result ((seat_of helper.new).role ≡ (seat_of helper.old).role) }
    ensures tags { OnOk result ((seat_of helper.new).tags ≡ (seat_of helper.old).tags) }
{
    for (actor, message) in posts {
        let own = message.copy(alloc)?;
        post_one(alloc, pool, poster, helper, *actor, own, steps)?;
    }
    Ok(())
}

fn counted_run<L: Ledger>(
    alloc: Global,
    plan: &Plan,
    limits: Limits,
    ring: u32,
    posts: &[(u32, Message)],
    blank: Blank,
) -> Result<Run, NoRun>
    requires name { blank.name ≡ L.name }
    requires parts { blank.parts ≡ L.parts }
    requires some { 0 < L.parts }
    requires typed { IsTyped plan.now }
    requires limits { AreLimits limits }
    requires ring { IsFrom1To 4096 ring }
    requires posts { AllByRecursion (PostFits plan.now) posts.now }
    ensures linked { IfOk result (IsLinked plan.now limits (posts.now ∷ [])) }
    ensures scheduled { IfOk result (IsScheduled plan.now limits (posts.now ∷ [])) }
{
    let mut steps = Steps::<L>::new(blank);
    let (pool, mut posters, mut helper) = Pool::new(alloc, plan, limits, 1, ring)?;
    let poster = &mut posters[0];
    post_all(alloc, &pool, poster, &mut helper, posts, &mut steps)?;
    let run = finish(alloc, plan, limits, pool, posters, helper)?;
    Ok(run)
}

/// The run of a plan on these posts, each for an actor of the plan, as the messages of its one feed. Links have room
/// for `ring` messages, 1 to 4096. It does not wait.
pub fn run_posted(
    alloc: Global,
    plan: &Plan,
    limits: Limits,
    ring: u32,
    posts: &[(u32, Message)],
) -> Result<Run, NoRun>
    requires typed { IsTyped plan.now }
    requires limits { AreLimits limits }
    requires ring { IsFrom1To 4096 ring }
    requires posts { AllByRecursion (PostFits plan.now) posts.now }
    ensures linked { IfOk result (IsLinked plan.now limits (posts.now ∷ [])) }
    ensures scheduled { IfOk result (IsScheduled plan.now limits (posts.now ∷ [])) }
{
    counted_run::<Brand>(alloc, plan, limits, ring, posts, Blank::new(1))
}
