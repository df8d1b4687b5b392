//! Taking a ticket of the pool's queue.
ghost use Rattle.std.specs.Prelude.{◌≡◌, ◌<◌, IfNone, IfSome};
ghost use Rattle.ready_queue.specs.View.{with_taken, with_none};
ghost use Rattle.ready_queue.specs.Rule.{TicketRule};
ghost use Rattle.ready_queue.specs.Moments.{WasAt, WasFirst};
ghost use Rattle.actor_pool.specs.Helpers.{IsHelperOf, HelperGoesOn, seat_of, pass_of};

use crate::helper::Helper;
use crate::pool::Pool;
use std::sync::Wait;

/// Takes the ticket at the front of the pool's queue: at a moment of this call it was the first of those that waited.
/// None comes only where the queue was empty at a moment of this call.
pub fn take_ticket<R: Wait>(rt: &R, pool: &Pool, helper: &mut Helper) -> Option<u32>
    requires own { IsHelperOf pool.now helper.old }
    ensures goes_on { HelperGoesOn pool.now helper.old helper.new }
    ensures seat { seat_of helper.new ≡ seat_of helper.old }
    ensures taken { IfSome result (λ actor. pass_of helper.new ≡ with_taken actor (pass_of helper.old)) }
    ensures front { IfSome result (λ actor. WasFirst TicketRule actor (pass_of helper.old)) }
    ensures small { IfSome result (λ actor. actor < 32) }
    ensures refused { IfNone result (pass_of helper.new ≡ with_none (pass_of helper.old)) }
    ensures empty { IfNone result (WasAt TicketRule 0 (pass_of helper.old)) }
{
    pool.tickets.take(rt, &mut helper.pass)
}
