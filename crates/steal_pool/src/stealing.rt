//! Workers that steal.
ghost use Rattle.std.specs.Prelude.{◌≡◌, OnOk, not};
ghost use Rattle.steal_pool.specs.Passes.{own_view, views_of, made_for, queue_first};
ghost use Rattle.steal_pool.specs.Stealing.{taken_below, FindsEmpty, WorksStealing};
ghost use Rattle.actor_pool.specs.Helpers.{IsHelperOf, actor_count};
ghost use Rattle.actor_pool.specs.Working.{FindsNone};

use crate::pass::StealPass;
use actor_pool::{
    Gate, Helper, Pool, TicketSource, mark_only, take_ticket, unmark_only, work_from,
};
use join_base::NoMemory;
use std::alloc::Global;
use std::sync::Wait;

impl StealPass {
    // Whether it is the turn of the pool's queue to be looked into first. The next time it is that of the deques, and
    // the other way round.
    fn takes_turn(&mut self) -> bool
        ensures turn { result ≡ queue_first self.old }
        ensures turned { queue_first self.new ≡ not (queue_first self.old) }
        ensures made { made_for self.new ≡ made_for self.old }
        ensures views { views_of self.new ≡ views_of self.old }
    {
        let queue_first = self.queue_first;
        self.queue_first = !queue_first;
        queue_first
    }
}

impl TicketSource for StealPass {
    ghost belongs = { λ pass count. made_for pass ≡ count };

    ghost took = { λ pass count. taken_below count pass };

    ghost nones = { λ pass _. (own_view pass).nones };

    fn find<R: Wait>(&mut self, rt: &R, pool: &Pool, helper: &mut Helper) -> Option<u32> {
        if self.takes_turn() {
            if let Some(ticket) = take_ticket(rt, pool, helper) {
                return Some(ticket);
            }
            return self.take(rt);
        }
        if let Some(ticket) = self.take(rt) {
            return Some(ticket);
        }
        take_ticket(rt, pool, helper)
    }

    fn announce<R: Wait>(&mut self, _rt: &R, pool: &Pool, helper: &mut Helper, actor: u32) {
        if !mark_only(pool, helper, actor) {
            return;
        }
        match self.put(actor) {
            Ok(()) => {}
            Err(NoMemory) => unmark_only(pool, helper, actor),
        }
    }
}

/// Takes tickets of its deques and of the pool's queue, where the feeds put theirs. By turns it looks into the deques
/// first and into the queue first. An actor that stays ready comes back into the own deque each time, and may wait for
/// one whose ticket is in the queue. At each ticket it takes a turn at the actor, until all feeds have ended and no
/// ticket is found after that. It passes over a number that is no actor's. Who is to be announced after a turn is
/// marked, and its ticket is put into the own deque. Where there is no memory for that, the mark is taken back.
///
/// At `Ok` it has found each deque and the pool's queue empty. It made at least as many claims as it took tickets of
/// actors. `NoMemory` comes where a turn of this worker or another thread of the pool found no memory; each turn was
/// given back then. It may wait.
pub fn work_stealing<R: Wait, G: Gate>(
    rt: &R,
    alloc: Global,
    pool: &Pool,
    helper: &mut Helper,
    pass: &mut StealPass,
    gate: &G,
    worker: u32,
) -> Result<(), NoMemory>
    requires own { IsHelperOf pool.now helper.old }
    requires made { made_for pass.old ≡ actor_count pool.now }
    ensures made { made_for pass.new ≡ actor_count pool.now }
    ensures works { WorksStealing pool.now pass.old pass.new helper.old helper.new }
    ensures none { OnOk result (FindsNone helper.old helper.new) }
    ensures empty { OnOk result (FindsEmpty pass.old pass.new) }
{
    work_from(rt, alloc, pool, helper, pass, gate, worker)
}
