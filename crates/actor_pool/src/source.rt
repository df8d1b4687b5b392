//! Where a worker takes tickets from, and where it puts those of actors that are ready.
ghost use Rattle.std.specs.Prelude.{◌≡◌, ◌+◌, ◌<◌, ◌≤◌, ℕ, IfNone};
ghost use Rattle.std.specs.Option.{option_to_list};
ghost use Rattle.ready_queue.specs.declared.view.PassView.{PassView};
ghost use Rattle.actor_pool.specs.Helpers.{IsHelperOf, HelperGoesOn, pass_of, actor_count};
ghost use Rattle.actor_pool.specs.Working.{FindsNone, TakesTickets};

use crate::announcing::announce;
use crate::helper::Helper;
use crate::pool::Pool;
use crate::taking::take_ticket;
use std::sync::Wait;

/// What a worker has tickets of its own in. It takes them there, or else from the pool's queue, where the feeds put
/// theirs.
pub trait TicketSource {
    // It is of use with a pool of so many actors.
    ghost belongs: { Self → ℕ → Type 0 };

    // How many of the tickets that it took elsewhere than from the pool's queue are below a number.
    ghost took: { Self → ℕ → ℕ };

    // How often it found no ticket, where the pass of its helper has this view.
    ghost nones: { Self → PassView → ℕ };

    /// Finds a ticket and takes it. None only where there was none, and none in the pool's queue.
    fn find<R: Wait>(&mut self, rt: &R, pool: &Pool, helper: &mut Helper) -> Option<u32>
        requires own { IsHelperOf pool.now helper.old }
        requires belongs { belongs self.old (actor_count pool.now) }
        ensures belongs { belongs self.new (actor_count pool.now) }
        ensures taken { TakesTickets pool.now (option_to_list result) (took self.old (actor_count pool.now))
            (took self.new (actor_count pool.now)) helper.old helper.new }
        ensures none { IfNone result (FindsNone helper.old helper.new) }
        ensures found_none { IfNone result (nones self.old (pass_of helper.old) + 1 ≤ nones self.new
            (pass_of helper.new)) }
        ensures nones { nones self.old (pass_of helper.old) ≤ nones self.new (pass_of helper.new) };

    /// Announces that an actor is ready: marks it and, where it was not marked, puts its ticket. Where that can't be
    /// put the mark is taken back.
    fn announce<R: Wait>(&mut self, rt: &R, pool: &Pool, helper: &mut Helper, actor: u32)
        requires own { IsHelperOf pool.now helper.old }
        requires belongs { belongs self.old (actor_count pool.now) }
        requires exists { actor < actor_count pool.now }
        ensures belongs { belongs self.new (actor_count pool.now) }
        ensures goes_on { HelperGoesOn pool.now helper.old helper.new }
        ensures taken { (pass_of helper.new).taken ≡ (pass_of helper.old).taken }
        ensures took { took self.new (actor_count pool.now) ≡ took self.old (actor_count pool.now) }
        ensures nones { nones self.old (pass_of helper.old) ≤ nones self.new (pass_of helper.new) };
}

/// The pool's queue of tickets, and nothing else.
#[derive(Drop)]
pub struct PoolQueue;

impl TicketSource for PoolQueue {
    ghost belongs = { λ _ _. Unit {0} };

    ghost took = { λ _ _. 0 };

    ghost nones = { λ _ pass. pass.nones };

    fn find<R: Wait>(&mut self, rt: &R, pool: &Pool, helper: &mut Helper) -> Option<u32> {
        take_ticket(rt, pool, helper)
    }

    fn announce<R: Wait>(&mut self, rt: &R, pool: &Pool, helper: &mut Helper, actor: u32) {
        announce(rt, pool, helper, actor);
    }
}
