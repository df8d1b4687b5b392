//! A feed: its posts, one after the other.
ghost use Rattle.std.specs.Prelude.{◌≡◌, ◌+◌, ◌<◌, ◌≤◌, OnOk, OnErr, All, length, reverse};
ghost use Rattle.post_ring.specs.Links.{stamped};
ghost use Rattle.cell_links.specs.Ends.{SendsMore, SendsSame};
ghost use Rattle.actor_pool.specs.Beside.{FitsSeen};
ghost use Rattle.actor_pool.specs.Helpers.{IsHelperOf, HelperGoesOn, seat_of, actor_count};
ghost use Rattle.actor_pool.specs.Posters.{IsPosterOf, SendsAll, SendsSome, feed_tag, feed_links};

use crate::announcing::{announce, announce_due};
use crate::beside::Beside;
use crate::failing::{has_failed, tell_failure};
use crate::helper::Helper;
use crate::nobody::Nobody;
use crate::pool::Pool;
use crate::poster::Poster;
use crate::source::PoolQueue;
use crate::turning::{TurnFault, turn_beside};
use feed_store::{Feed, Packed};
use join_base::{Message, NoMemory, Steps};
use std::alloc::Global;
use std::marker::Brand;
use std::sync::Wait;
use std::sync::atomic::Ordering;
use std::sync::ledger::{Blank, Ledger};
use std::thread;

// Takes a turn at an actor whose link was full, or yields where another seat is at it. `NoMemory` too where another
// thread found none, since the link may stay full then.
fn help<R: Wait, B: Beside<R>, L: Ledger>(
    rt: &R,
    alloc: Global,
    pool: &Pool,
    helper: &mut Helper,
    actor: u32,
    beside: &mut B,
    steps: &mut Steps<L>,
) -> Result<(), NoMemory>
    requires own { IsHelperOf pool.now helper.old }
    requires exists { actor < actor_count pool.now }
    requires fits { FitsSeen B.fits (seat_of helper.old) beside.old }
    ensures goes_on { HelperGoesOn pool.now helper.old helper.new }
    ensures fits { FitsSeen B.fits (seat_of helper.new) beside.new }
{
    let failed = has_failed(pool);
    if failed {
        return Err(NoMemory);
    }
    match turn_beside(rt, alloc, pool, helper, actor, beside, steps) {
        Ok(_) => {
            announce_due(rt, pool, helper, &mut PoolQueue);
            Ok(())
        }
        Err(TurnFault::Busy { word: _ }) => {
            thread::yield_now();
            Ok(())
        }
        Err(TurnFault::NoMemory) => {
            tell_failure(pool);
            Err(NoMemory)
        }
    }
}

// Posts a message, however often its link is full, and announces the actor.
#[inline(always)]
fn post_one<R: Wait, B: Beside<R>, L: Ledger>(
    rt: &R,
    alloc: Global,
    pool: &Pool,
    poster: &mut Poster,
    helper: &mut Helper,
    beside: &mut B,
    actor: u32,
    mut message: Message,
    steps: &mut Steps<L>,
) -> Result<(), NoMemory>
    requires poster { IsPosterOf pool.now poster.old }
    requires helper { IsHelperOf pool.now helper.old }
    requires exists { actor < actor_count pool.now }
    requires fits { FitsSeen B.fits (seat_of helper.old) beside.old }
    ensures poster { IsPosterOf pool.now poster.new }
    ensures tag { feed_tag poster.new ≡ feed_tag poster.old }
    ensures goes_on { HelperGoesOn pool.now helper.old helper.new }
    ensures sent { OnOk result (SendsMore (feed_links poster.old) actor (stamped message 0) (feed_links poster.new)) }
    ensures tries { OnOk result ((seat_of helper.old).tries + 1 ≤ (seat_of helper.new).tries) }
    ensures none { OnErr result (SendsSame (feed_links poster.old) (feed_links poster.new)) }
    ensures fits { FitsSeen B.fits (seat_of helper.new) beside.new }
{
    for _ in rt.forever() {
        match poster.post(pool, actor, message) {
            Ok(()) => {
                announce(rt, pool, helper, actor);
                return Ok(());
            }
            Err(full) => {
                message = full.message;
                help(rt, alloc, pool, helper, actor, beside, steps)?;
            }
        }
    }
    unreachable!()
}

// Posts what waits, the last one first.
fn post_waiting<R: Wait, B: Beside<R>, L: Ledger>(
    rt: &R,
    alloc: Global,
    pool: &Pool,
    poster: &mut Poster,
    helper: &mut Helper,
    beside: &mut B,
    mut waiting: Vec<(u32, Message)>,
    steps: &mut Steps<L>,
) -> Result<(), NoMemory>
    requires poster { IsPosterOf pool.now poster.old }
    requires helper { IsHelperOf pool.now helper.old }
    requires exist { All (λ post. post.0 < actor_count pool.now) waiting.items }
    requires fits { FitsSeen B.fits (seat_of helper.old) beside.old }
    ensures poster { IsPosterOf pool.now poster.new }
    ensures tag { feed_tag poster.new ≡ feed_tag poster.old }
    ensures goes_on { HelperGoesOn pool.now helper.old helper.new }
    ensures sent { OnOk result (SendsAll (feed_links poster.old) (reverse waiting.items) (feed_links poster.new)) }
    ensures some { OnErr result (SendsSome (feed_links poster.old) (reverse waiting.items) (feed_links poster.new)) }
    ensures tries { OnOk result ((seat_of helper.old).tries + length waiting.items ≤ (seat_of helper.new).tries) }
    ensures fits { FitsSeen B.fits (seat_of helper.new) beside.new }
{
    while let Some((actor, message)) = waiting.pop() {
        post_one(
            rt, alloc, pool, poster, helper, beside, actor, message, steps,
        )?;
    }
    Ok(())
}

// Posts packed posts in order.
fn post_packed<R: Wait, B: Beside<R>, L: Ledger>(
    rt: &R,
    alloc: Global,
    pool: &Pool,
    poster: &mut Poster,
    helper: &mut Helper,
    beside: &mut B,
    packed: &Packed,
    steps: &mut Steps<L>,
) -> Result<(), NoMemory>
    requires poster { IsPosterOf pool.now poster.old }
    requires helper { IsHelperOf pool.now helper.old }
    requires exist { All (λ post. post.0 < actor_count pool.now) packed.now }
    requires fits { FitsSeen B.fits (seat_of helper.old) beside.old }
    ensures poster { IsPosterOf pool.now poster.new }
    ensures tag { feed_tag poster.new ≡ feed_tag poster.old }
    ensures goes_on { HelperGoesOn pool.now helper.old helper.new }
    ensures sent { OnOk result (SendsAll (feed_links poster.old) packed.now (feed_links poster.new)) }
    ensures some { OnErr result (SendsSome (feed_links poster.old) packed.now (feed_links poster.new)) }
    ensures tries { OnOk result ((seat_of helper.old).tries + length packed.now ≤ (seat_of helper.new).tries) }
    ensures fits { FitsSeen B.fits (seat_of helper.new) beside.new }
{
    let mut rest = packed.reader();
    'posts: while let Some((actor, message)) = rest.next(alloc)? {
        post_one(
            rt, alloc, pool, poster, helper, beside, actor, message, steps,
        )?;
    }
    Ok(())
}

// Posts all posts of a feed in order.
fn post_all<R: Wait, B: Beside<R>, L: Ledger>(
    rt: &R,
    alloc: Global,
    pool: &Pool,
    poster: &mut Poster,
    helper: &mut Helper,
    beside: &mut B,
    posts: Feed,
    blank: Blank,
) -> Result<(), NoMemory>
    requires poster { IsPosterOf pool.now poster.old }
    requires helper { IsHelperOf pool.now helper.old }
    requires exist { All (λ post. post.0 < actor_count pool.now) posts }
    requires fits { FitsSeen B.fits (seat_of helper.old) beside.old }
    requires name { blank.name ≡ L.name }
    requires blank_parts { blank.parts ≡ L.parts }
    requires some { 0 < L.parts }
    ensures poster { IsPosterOf pool.now poster.new }
    ensures tag { feed_tag poster.new ≡ feed_tag poster.old }
    ensures goes_on { HelperGoesOn pool.now helper.old helper.new }
    ensures sent { OnOk result (SendsAll (feed_links poster.old) posts (feed_links poster.new)) }
    ensures some { OnErr result (SendsSome (feed_links poster.old) posts (feed_links poster.new)) }
    ensures tries { OnOk result ((seat_of helper.old).tries + length posts ≤ (seat_of helper.new).tries) }
    ensures fits { FitsSeen B.fits (seat_of helper.new) beside.new }
{
    let mut steps = Steps::<L>::new(blank);
    let (mut whole, packed) = posts.into_parts();
    whole.reverse();
    post_waiting(rt, alloc, pool, poster, helper, beside, whole, &mut steps)?;
    post_packed(rt, alloc, pool, poster, helper, beside, &packed, &mut steps)
}

/// Posts all posts of a feed, as `feed` does. Each actor that it takes a turn at is shown to what stands beside.
///
/// What is kept of each actor fits what the helper has seen of it, before and after, whatever the answer.
pub fn feed_beside<R: Wait, B: Beside<R>>(
    rt: &R,
    alloc: Global,
    pool: &Pool,
    poster: &mut Poster,
    helper: &mut Helper,
    beside: &mut B,
    posts: Feed,
) -> Result<(), NoMemory>
    requires poster { IsPosterOf pool.now poster.old }
    requires helper { IsHelperOf pool.now helper.old }
    requires exist { All (λ post. post.0 < actor_count pool.now) posts }
    requires fits { FitsSeen B.fits (seat_of helper.old) beside.old }
    ensures poster { IsPosterOf pool.now poster.new }
    ensures tag { feed_tag poster.new ≡ feed_tag poster.old }
    ensures goes_on { HelperGoesOn pool.now helper.old helper.new }
    ensures sent { OnOk result (SendsAll (feed_links poster.old) posts (feed_links poster.new)) }
    ensures some { OnErr result (SendsSome (feed_links poster.old) posts (feed_links poster.new)) }
    ensures tries { OnOk result ((seat_of helper.old).tries + length posts ≤ (seat_of helper.new).tries) }
    ensures fits { FitsSeen B.fits (seat_of helper.new) beside.new }
{
    let blank = Blank::new(1);
    let fed = post_all::<R, B, Brand>(rt, alloc, pool, poster, helper, beside, posts, blank);
    if fed.is_err() {
        tell_failure(pool);
    }
    pool.ended.fetch_add(1, Ordering::SeqCst);
    fed
}

/// Posts all posts of a feed in order, each with the stamp 0, and announces its actor each time. Where a link is full
/// it takes a turn at that actor, or yields where another seat is at it, and posts again. From then on the feed has
/// ended, whatever the answer.
///
/// At `NoMemory` the posts of a beginning of the list were sent. It comes where there was none for the next post, or
/// where a turn of this call or another thread of the pool found none while a link was full. It may wait.
pub fn feed<R: Wait>(
    rt: &R,
    alloc: Global,
    pool: &Pool,
    poster: &mut Poster,
    helper: &mut Helper,
    posts: Feed,
) -> Result<(), NoMemory>
    requires poster { IsPosterOf pool.now poster.old }
    requires helper { IsHelperOf pool.now helper.old }
    requires exist { All (λ post. post.0 < actor_count pool.now) posts }
    ensures poster { IsPosterOf pool.now poster.new }
    ensures tag { feed_tag poster.new ≡ feed_tag poster.old }
    ensures goes_on { HelperGoesOn pool.now helper.old helper.new }
    ensures sent { OnOk result (SendsAll (feed_links poster.old) posts (feed_links poster.new)) }
    ensures some { OnErr result (SendsSome (feed_links poster.old) posts (feed_links poster.new)) }
    ensures tries { OnOk result ((seat_of helper.old).tries + length posts ≤ (seat_of helper.new).tries) }
{
    feed_beside(rt, alloc, pool, poster, helper, &mut Nobody, posts)
}
