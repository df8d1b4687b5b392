//! Handing out what threads need, and taking helpers back.
ghost use Rattle.std.specs.Prelude.{◌≡◌, ◌+◌, ◌<◌, ◌≤◌, ℕ, All, IfOk, OnOk, length, map};
ghost use Rattle.std.specs.List.{AllByRecursion};
ghost use Rattle.actor_pool.specs.Beside.{FitsOpening};
ghost use Rattle.actor_pool.specs.Helpers.{IsHelperOf, IsFirstHelper, actor_count, seat_of};
ghost use Rattle.actor_pool.specs.Posters.{IsPosterOf};
ghost use Rattle.pool_run.specs.Parts.{FitsLater, HasTags, IsJoinable, IsPart, IsWorker, part_helper, part_poster, part_posts, worker_helper};
ghost use Rattle.pool_run.specs.Running.{IsReady};

use crate::parts::{FeedPart, HelperBack, WorkPart};
use actor_pool::{Beside, Helper, Pool, Poster, TicketSource};
use feed_store::Feeds;
use join_base::NoMemory;
use std::alloc::Global;

/// A part for each feed, in order: its poster, a helper, its posts, and what stands beside.
pub(crate) fn feed_parts<R, B: Beside<R> + Drop>(
    alloc: Global,
    pool: &Pool,
    helper: &mut Helper,
    mut posters: Vec<Poster>,
    feeds: Feeds,
    mut besides: Vec<B>,
) -> Result<Vec<FeedPart<B>>, NoMemory>
    requires own { IsHelperOf pool.now helper.old }
    requires first { IsFirstHelper pool.now 0 helper.old }
    requires posters { All (IsPosterOf pool.now) posters.items }
    requires count { length feeds ≡ length posters.items }
    requires besides { length besides.items ≡ length posters.items }
    requires opening { All (FitsOpening B.fits) besides.items }
    requires exist { All (All (λ post. post.0 < actor_count pool.now)) feeds }
    ensures own { IsHelperOf pool.now helper.new }
    ensures first { IfOk result (λ parts. IsFirstHelper pool.now (length parts.items) helper.new) }
    ensures tags { (seat_of helper.new).tags ≡ (seat_of helper.old).tags }
    ensures parts { IfOk result (λ parts. All (IsPart pool.now B.fits) parts.items) }
    ensures known { IfOk result (λ parts. All (λ part. HasTags (seat_of helper.old).tags (part_helper part))
        parts.items) }
    ensures posters { IfOk result (λ parts. map part_poster parts.items ≡ posters.items) }
    ensures posts { IfOk result (λ parts. map part_posts parts.items ≡ feeds) }
{
    let mut lists = feeds.into_vec();
    posters.reverse();
    lists.reverse();
    let mut parts = Vec::new(alloc);
    while let Some(poster) = posters.pop() {
        let posts = lists.pop().unwrap();
        let beside = besides.pop().unwrap();
        let other = helper.split(pool)?;
        parts.push(FeedPart {
            poster,
            helper: other,
            posts,
            beside,
        })?;
    }
    Ok(parts)
}

/// A part for each worker: a helper, its source of tickets, and what stands beside.
pub(crate) fn work_parts<R, S: TicketSource + Drop, B: Beside<R> + Drop>(
    alloc: Global,
    pool: &Pool,
    helper: &mut Helper,
    mut workers: Vec<(S, B)>,
) -> Result<Vec<WorkPart<S, B>>, NoMemory>
    requires own { IsHelperOf pool.now helper.old }
    requires first { (out : ℕ) × IsFirstHelper pool.now out helper.old }
    requires ready { All (IsReady S.belongs B.fits (actor_count pool.now)) workers.items }
    ensures own { IsHelperOf pool.now helper.new }
    ensures first { IfOk result (λ parts. (out : ℕ) → IsFirstHelper pool.now out helper.old
        → IsFirstHelper pool.now (out + length parts.items) helper.new) }
    ensures tags { (seat_of helper.new).tags ≡ (seat_of helper.old).tags }
    ensures count { IfOk result (λ parts. length parts.items ≡ length workers.items) }
    ensures parts { IfOk result (λ parts. All (IsWorker pool.now S.belongs B.fits) parts.items) }
    ensures known { IfOk result (λ parts. All (λ part. HasTags (seat_of helper.old).tags (worker_helper part))
        parts.items) }
{
    let mut parts = Vec::new(alloc);
    while let Some((source, beside)) = workers.pop() {
        let other = helper.split(pool)?;
        parts.push(WorkPart {
            helper: other,
            source,
            beside,
        })?;
    }
    Ok(parts)
}

/// Joins the helpers to the first one, which had no other out, and gives what stood beside them. It fits what the first
/// one has seen then.
pub(crate) fn join_helpers<R, B: Beside<R> + Drop>(
    alloc: Global,
    pool: &Pool,
    helper: &mut Helper,
    mut helpers: Vec<HelperBack<B>>,
) -> Result<Vec<B>, NoMemory>
    requires own { IsHelperOf pool.now helper.old }
    requires first { IsFirstHelper pool.now (length helpers.items) helper.old }
    requires joinable { All (IsJoinable pool.now B.fits (seat_of helper.old).tags) helpers.items }
    ensures own { OnOk result (IsHelperOf pool.now helper.new) }
    ensures first { OnOk result (IsFirstHelper pool.now 0 helper.new) }
    ensures tags { OnOk result ((seat_of helper.new).tags ≡ (seat_of helper.old).tags) }
    ensures count { IfOk result (λ besides. length besides.items ≡ length helpers.items) }
    ensures later { IfOk result (λ besides. All (FitsLater B.fits (seat_of helper.new)) besides.items) }
{
    let mut besides = Vec::new(alloc);
    while let Some(back) = helpers.pop() {
        let HelperBack {
            helper: other,
            beside,
        } = back;
        helper.join(pool, other);
        besides.push(beside)?;
    }
    Ok(besides)
}
