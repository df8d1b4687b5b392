//! Announcing actors that are ready.
ghost use Rattle.std.specs.Prelude.{◌≡◌, ◌<◌, ◌≤◌};
ghost use Rattle.actor_pool.specs.Helpers.{IsHelperOf, HelperGoesOn, seat_of, pass_of, actor_count};
ghost use Rattle.actor_pool.specs.Announcing.{Announces};

use crate::helper::Helper;
use crate::pool::Pool;
use crate::source::TicketSource;
use std::sync::Wait;

/// Announces that an actor is ready: marks it and, where it was not marked, puts its ticket. Where the queue is full
/// the mark is taken back. It takes no memory and may wait.
pub fn announce<R: Wait>(rt: &R, pool: &Pool, helper: &mut Helper, actor: u32)
    requires own { IsHelperOf pool.now helper.old }
    requires exists { actor < actor_count pool.now }
    ensures goes_on { HelperGoesOn pool.now helper.old helper.new }
    ensures announced { Announces actor (seat_of helper.old) (pass_of helper.old) (seat_of helper.new)
        (pass_of helper.new) }
{
    if !pool.turns.mark(&mut helper.seat, actor) {
        return;
    }
    if pool.tickets.put(rt, &mut helper.pass, actor).is_err() {
        pool.turns.unmark(&mut helper.seat, actor);
    }
}

/// Whether the latest turn of the helper left something to do for the actor. What an actor posted to itself was brought
/// in its turn, unless that had to end before. No clause rests on the answer.
pub fn due(helper: &Helper, actor: u32) -> bool {
    let noted = &helper.noted;
    if noted.actor == actor {
        return noted.again;
    }
    noted.moved.contains(actor) || noted.roomy.contains(actor)
}

// Flags and announces the actor where the latest turn of the helper left something to do for it.
fn announce_if_due<R: Wait, S: TicketSource>(
    rt: &R,
    pool: &Pool,
    helper: &mut Helper,
    source: &mut S,
    actor: u32,
)
    requires own { IsHelperOf pool.now helper.old }
    requires belongs { S.belongs source.old (actor_count pool.now) }
    requires exists { actor < actor_count pool.now }
    ensures belongs { S.belongs source.new (actor_count pool.now) }
    ensures goes_on { HelperGoesOn pool.now helper.old helper.new }
    ensures taken { (pass_of helper.new).taken ≡ (pass_of helper.old).taken }
    ensures took { S.took source.new (actor_count pool.now) ≡ S.took source.old (actor_count pool.now) }
    ensures nones { S.nones source.old (pass_of helper.old) ≤ S.nones source.new (pass_of helper.new) }
{
    if !due(helper, actor) {
        return;
    }
    pool.turns.flag(&mut helper.seat, actor);
    source.announce(rt, pool, helper, actor);
}

/// Flags and announces each actor for which the latest turn of the helper left something to do. The flag is for a seat
/// that is at the actor: it finds it as it gives its turn back.
pub(crate) fn announce_due<R: Wait, S: TicketSource>(
    rt: &R,
    pool: &Pool,
    helper: &mut Helper,
    source: &mut S,
)
    requires own { IsHelperOf pool.now helper.old }
    requires belongs { S.belongs source.old (actor_count pool.now) }
    ensures belongs { S.belongs source.new (actor_count pool.now) }
    ensures goes_on { HelperGoesOn pool.now helper.old helper.new }
    ensures taken { (pass_of helper.new).taken ≡ (pass_of helper.old).taken }
    ensures took { S.took source.new (actor_count pool.now) ≡ S.took source.old (actor_count pool.now) }
    ensures nones { S.nones source.old (pass_of helper.old) ≤ S.nones source.new (pass_of helper.new) }
{
    for actor in 0..pool.actors {
        announce_if_due(rt, pool, helper, source, actor);
    }
}
