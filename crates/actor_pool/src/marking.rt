//! The mark of an actor that has a ticket.
ghost use Rattle.std.specs.Prelude.{◌≡◌, ℕ, ◌+◌, ◌<◌, MatchBool, slice_index};
ghost use Rattle.turn_lock.specs.View.{marked, unmarked};
ghost use Rattle.turn_lock.specs.Rule.{IsQueued, IsUnqueued};
ghost use Rattle.turn_lock.specs.Steps.{SetsMark, FindsMark};
ghost use Rattle.actor_pool.specs.Helpers.{IsHelperOf, HelperGoesOn, seat_of, pass_of, actor_count};

use crate::helper::Helper;
use crate::pool::Pool;

/// Marks an actor, and answers whether the mark was missing there until now. It puts no ticket, takes no memory and
/// does not wait.
pub fn mark_only(pool: &Pool, helper: &mut Helper, actor: u32) -> bool
    requires own { IsHelperOf pool.now helper.old }
    requires exists { actor < actor_count pool.now }
    ensures goes_on { HelperGoesOn pool.now helper.old helper.new }
    ensures pass { pass_of helper.new ≡ pass_of helper.old }
    ensures marked { (word : ℕ) × MatchBool result (IsUnqueued word) (IsQueued word) × (seat_of helper.new
        ≡ marked actor word (seat_of helper.old)) }
    ensures set { MatchBool result (SetsMark actor (seat_of helper.old) (seat_of helper.new))
        (FindsMark actor (seat_of helper.old) (seat_of helper.new)) }
{
    pool.turns.mark(&mut helper.seat, actor)
}

/// Takes the mark of an actor away, if it is there. It takes no memory and does not wait.
pub fn unmark_only(pool: &Pool, helper: &mut Helper, actor: u32)
    requires own { IsHelperOf pool.now helper.old }
    requires exists { actor < actor_count pool.now }
    ensures goes_on { HelperGoesOn pool.now helper.old helper.new }
    ensures pass { pass_of helper.new ≡ pass_of helper.old }
    ensures unmarked { (word : ℕ) × (seat_of helper.new ≡ unmarked actor word (seat_of helper.old)) }
    ensures counted { slice_index (seat_of helper.new).unmarks actor
        ≡ slice_index (seat_of helper.old).unmarks actor + 1 }
{
    pool.turns.unmark(&mut helper.seat, actor);
}
