//! A worker: turns by tickets.
ghost use Rattle.std.specs.Prelude.{◌≡◌, ◌+◌, ◌<◌, ◌≤◌, false, OnOk, IfOk};
ghost use Rattle.actor_pool.specs.Beside.{FitsSeen};
ghost use Rattle.actor_pool.specs.Helpers.{IsHelperOf, HelperGoesOn, seat_of, pass_of, actor_count};
ghost use Rattle.actor_pool.specs.Working.{Works, WorksFrom, FindsNone};

use crate::announcing::announce_due;
use crate::beside::Beside;
use crate::failing::{has_failed, tell_failure};
use crate::gate::Gate;
use crate::helper::Helper;
use crate::nobody::Nobody;
use crate::pool::Pool;
use crate::source::{PoolQueue, TicketSource};
use crate::turning::{TurnFault, turn_beside};
use join_base::{NoMemory, Steps};
use std::alloc::Global;
use std::marker::Brand;
use std::sync::Wait;
use std::sync::atomic::Ordering;
use std::sync::ledger::{Blank, Ledger};
use std::thread;

impl Pool {
    /// How many actors the pool has.
    pub fn actors(&self) -> u32
        ensures { result ≡ actor_count self.now }
    {
        self.actors
    }
}

/// Whether all feeds have ended. No clause rests on the answer.
pub fn feeds_ended(pool: &Pool) -> bool {
    pool.ended.load(Ordering::SeqCst) >= u64::from(pool.feeds)
}

// Takes a turn at an actor whose ticket was taken, and announces what is due then.
fn work_at<R: Wait, G: Gate, S: TicketSource, B: Beside<R>, L: Ledger>(
    rt: &R,
    alloc: Global,
    pool: &Pool,
    helper: &mut Helper,
    source: &mut S,
    beside: &mut B,
    gate: &G,
    worker: u32,
    actor: u32,
    steps: &mut Steps<L>,
) -> Result<(), NoMemory>
    requires own { IsHelperOf pool.now helper.old }
    requires belongs { S.belongs source.old (actor_count pool.now) }
    requires fits { FitsSeen B.fits (seat_of helper.old) beside.old }
    requires exists { actor < actor_count pool.now }
    ensures belongs { S.belongs source.new (actor_count pool.now) }
    ensures goes_on { HelperGoesOn pool.now helper.old helper.new }
    ensures taken { (pass_of helper.new).taken ≡ (pass_of helper.old).taken }
    ensures took { S.took source.new (actor_count pool.now) ≡ S.took source.old (actor_count pool.now) }
    ensures claimed { (seat_of helper.old).claims + 1 ≤ (seat_of helper.new).claims }
    ensures nones { S.nones source.old (pass_of helper.old) ≤ S.nones source.new (pass_of helper.new) }
    ensures fits { FitsSeen B.fits (seat_of helper.new) beside.new }
{
    pool.turns.unmark(&mut helper.seat, actor);
    gate.enter(worker, actor);
    match turn_beside(rt, alloc, pool, helper, actor, beside, steps) {
        Ok(_) => {
            announce_due(rt, pool, helper, source);
            Ok(())
        }
        Err(TurnFault::Busy { word: _ }) => Ok(()),
        Err(TurnFault::NoMemory) => {
            tell_failure(pool);
            Err(NoMemory)
        }
    }
}

// Takes a ticket and works at its actor. False where there was no ticket. `NoMemory` too where another thread found
// none.
fn work_once<R: Wait, G: Gate, S: TicketSource, B: Beside<R>, L: Ledger>(
    rt: &R,
    alloc: Global,
    pool: &Pool,
    helper: &mut Helper,
    source: &mut S,
    beside: &mut B,
    gate: &G,
    worker: u32,
    steps: &mut Steps<L>,
) -> Result<bool, NoMemory>
    requires own { IsHelperOf pool.now helper.old }
    requires belongs { S.belongs source.old (actor_count pool.now) }
    requires fits { FitsSeen B.fits (seat_of helper.old) beside.old }
    ensures belongs { S.belongs source.new (actor_count pool.now) }
    ensures works { WorksFrom pool.now (S.took source.old (actor_count pool.now))
        (S.took source.new (actor_count pool.now)) helper.old helper.new }
    ensures none { IfOk result (λ found. found ≡ false → FindsNone helper.old helper.new) }
    ensures found_none { IfOk result (λ found. found ≡ false → S.nones source.old (pass_of helper.old) + 1 ≤ S.nones
        source.new (pass_of helper.new)) }
    ensures nones { OnOk result (S.nones source.old (pass_of helper.old) ≤ S.nones source.new (pass_of helper.new)) }
    ensures fits { FitsSeen B.fits (seat_of helper.new) beside.new }
{
    let failed = has_failed(pool);
    if failed {
        return Err(NoMemory);
    }
    let Some(actor) = source.find(rt, pool, helper) else {
        return Ok(false);
    };
    if actor >= pool.actors {
        return Ok(true);
    }
    work_at(
        rt, alloc, pool, helper, source, beside, gate, worker, actor, steps,
    )?;
    Ok(true)
}

// Works until the feeds have ended and no ticket is found after that.
fn work_on<R: Wait, G: Gate, S: TicketSource, B: Beside<R>, L: Ledger>(
    rt: &R,
    alloc: Global,
    pool: &Pool,
    helper: &mut Helper,
    source: &mut S,
    beside: &mut B,
    gate: &G,
    worker: u32,
    blank: Blank,
) -> Result<(), NoMemory>
    requires own { IsHelperOf pool.now helper.old }
    requires belongs { S.belongs source.old (actor_count pool.now) }
    requires fits { FitsSeen B.fits (seat_of helper.old) beside.old }
    requires name { blank.name ≡ L.name }
    requires blank_parts { blank.parts ≡ L.parts }
    requires some { 0 < L.parts }
    ensures belongs { S.belongs source.new (actor_count pool.now) }
    ensures works { WorksFrom pool.now (S.took source.old (actor_count pool.now))
        (S.took source.new (actor_count pool.now)) helper.old helper.new }
    ensures none { OnOk result (FindsNone helper.old helper.new) }
    ensures found_none { OnOk result (S.nones source.old (pass_of helper.old) + 1 ≤ S.nones source.new
        (pass_of helper.new)) }
    ensures fits { FitsSeen B.fits (seat_of helper.new) beside.new }
{
    let mut steps = Steps::<L>::new(blank);
    for _ in rt.forever() {
        let ended = feeds_ended(pool);
        let found = work_once(
            rt, alloc, pool, helper, source, beside, gate, worker, &mut steps,
        )?;
        if !found {
            if ended {
                return Ok(());
            }
            thread::yield_now();
        }
    }
    unreachable!()
}

/// Takes tickets of a source, and at each of them a turn at its actor, until all feeds have ended and no ticket is
/// found after that. It calls `enter` of the gate before each turn. Each actor that it takes a turn at is shown to what
/// stands beside. After a turn it announces, by the source, the actors that the turn sent to, and the same actor where
/// it may have more to do. The worker's number is counted from 1.
///
/// What is kept of each actor fits what the helper has seen of it, before and after, whatever the answer. `NoMemory`
/// comes where a turn of this worker or another thread of the pool found no memory; each turn was given back then. It
/// may wait.
pub fn work_from_beside<R: Wait, G: Gate, S: TicketSource, B: Beside<R>>(
    rt: &R,
    alloc: Global,
    pool: &Pool,
    helper: &mut Helper,
    source: &mut S,
    beside: &mut B,
    gate: &G,
    worker: u32,
) -> Result<(), NoMemory>
    requires own { IsHelperOf pool.now helper.old }
    requires belongs { S.belongs source.old (actor_count pool.now) }
    requires fits { FitsSeen B.fits (seat_of helper.old) beside.old }
    ensures belongs { S.belongs source.new (actor_count pool.now) }
    ensures works { WorksFrom pool.now (S.took source.old (actor_count pool.now))
        (S.took source.new (actor_count pool.now)) helper.old helper.new }
    ensures none { OnOk result (FindsNone helper.old helper.new) }
    ensures found_none { OnOk result (S.nones source.old (pass_of helper.old) + 1 ≤ S.nones source.new
        (pass_of helper.new)) }
    ensures fits { FitsSeen B.fits (seat_of helper.new) beside.new }
{
    let blank = Blank::new(1);
    work_on::<R, G, S, B, Brand>(rt, alloc, pool, helper, source, beside, gate, worker, blank)
}

/// Works from a source of tickets, as `work_from_beside` does, with nobody beside the pool.
pub fn work_from<R: Wait, G: Gate, S: TicketSource>(
    rt: &R,
    alloc: Global,
    pool: &Pool,
    helper: &mut Helper,
    source: &mut S,
    gate: &G,
    worker: u32,
) -> Result<(), NoMemory>
    requires own { IsHelperOf pool.now helper.old }
    requires belongs { S.belongs source.old (actor_count pool.now) }
    ensures belongs { S.belongs source.new (actor_count pool.now) }
    ensures works { WorksFrom pool.now (S.took source.old (actor_count pool.now))
        (S.took source.new (actor_count pool.now)) helper.old helper.new }
    ensures none { OnOk result (FindsNone helper.old helper.new) }
    ensures found_none { OnOk result (S.nones source.old (pass_of helper.old) + 1 ≤ S.nones source.new
        (pass_of helper.new)) }
{
    work_from_beside(rt, alloc, pool, helper, source, &mut Nobody, gate, worker)
}

/// Works from the pool's queue of tickets, as `work` does. Each actor that it takes a turn at is shown to what stands
/// beside.
///
/// What is kept of each actor fits what the helper has seen of it, before and after, whatever the answer.
pub fn work_beside<R: Wait, G: Gate, B: Beside<R>>(
    rt: &R,
    alloc: Global,
    pool: &Pool,
    helper: &mut Helper,
    beside: &mut B,
    gate: &G,
    worker: u32,
) -> Result<(), NoMemory>
    requires own { IsHelperOf pool.now helper.old }
    requires fits { FitsSeen B.fits (seat_of helper.old) beside.old }
    ensures works { Works pool.now helper.old helper.new }
    ensures none { OnOk result (FindsNone helper.old helper.new) }
    ensures fits { FitsSeen B.fits (seat_of helper.new) beside.new }
{
    work_from_beside(
        rt,
        alloc,
        pool,
        helper,
        &mut PoolQueue,
        beside,
        gate,
        worker,
    )
}

/// Takes tickets, and at each of them a turn at its actor, until all feeds have ended and no ticket is found after
/// that. It calls `enter` of the gate before each turn. After a turn it announces the actors that the turn sent to, and
/// the same actor where it may have more to do. The worker's number is counted from 1.
///
/// `NoMemory` comes where a turn of this worker or another thread of the pool found no memory; each turn was given back
/// then. It may wait.
pub fn work<R: Wait, G: Gate>(
    rt: &R,
    alloc: Global,
    pool: &Pool,
    helper: &mut Helper,
    gate: &G,
    worker: u32,
) -> Result<(), NoMemory>
    requires own { IsHelperOf pool.now helper.old }
    ensures works { Works pool.now helper.old helper.new }
    ensures none { OnOk result (FindsNone helper.old helper.new) }
{
    work_beside(rt, alloc, pool, helper, &mut Nobody, gate, worker)
}
