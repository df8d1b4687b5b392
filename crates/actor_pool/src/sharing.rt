//! Helpers for other threads.
ghost use Rattle.std.specs.Prelude.{◌≡◌, ℕ, ◌+◌, IfOk, OnOk, if◌then◌else◌, is_ok};
ghost use Rattle.turn_lock.specs.View.{IsOther, HasSeenAll, with_one_more, new_view, joined as joined_seats};
ghost use Rattle.ready_queue.specs.View.{new_view as new_pass, shared as shared_pass, joined as joined_passes};
ghost use Rattle.actor_pool.specs.Helpers.{IsHelperOf, IsFirstHelper, seat_of, pass_of};

use crate::helper::{Helper, Noted};
use crate::pool::Pool;
use actor_cells::ActorSet;
use join_base::NoMemory;

impl Noted {
    // Nothing is to be announced.
    pub(crate) fn none() -> Noted {
        Noted {
            actor: 0,
            moved: ActorSet::new(),
            again: false,
            held: false,
            brought: false,
            roomy: ActorSet::new(),
        }
    }
}

impl Helper {
    /// Makes a helper for another thread. It has seen what the first helper has seen, and has done nothing. The first
    /// helper counts one more out.
    ///
    /// At `NoMemory` the first helper is as it was, but that its pass is no more a sole one. It does not wait.
    pub fn split(&mut self, pool: &Pool) -> Result<Helper, NoMemory>
        requires own { IsHelperOf pool.now self.old }
        requires first { (out : ℕ) × IsFirstHelper pool.now out self.old }
        ensures own { IsHelperOf pool.now self.new }
        ensures pass { pass_of self.new ≡ shared_pass (pass_of self.old) }
        ensures kept { seat_of self.new ≡ (if is_ok result then with_one_more (seat_of self.old) else
            seat_of self.old) }
        ensures given { IfOk result (λ other. IsHelperOf pool.now other × (seat_of other ≡ new_view (seat_of self.old))
            × (pass_of other ≡ new_pass)) }
        ensures out { OnOk result ((out : ℕ) → IsFirstHelper pool.now out self.old
            → IsFirstHelper pool.now (out + 1) self.new) }
    {
        let pass = pool.tickets.split_pass(&mut self.pass)?;
        let seat = pool.turns.split_seat(&mut self.seat)?;
        Ok(Helper {
            seat,
            pass,
            noted: Noted::none(),
        })
    }

    /// Ends a helper that `split` made. Of each actor, what either of the two has seen begins what the first helper has
    /// seen from then on. What the two passes did is added up, and the first helper counts one fewer out.
    ///
    /// It takes no memory and does not wait.
    pub fn join(&mut self, pool: &Pool, other: Helper)
        requires own { IsHelperOf pool.now self.old × IsHelperOf pool.now other }
        requires first { (out : ℕ) × IsFirstHelper pool.now out self.old }
        requires other { IsOther (seat_of other) }
        ensures own { IsHelperOf pool.now self.new }
        ensures seat { seat_of self.new ≡ joined_seats (seat_of self.old) (seat_of other) }
        ensures pass { pass_of self.new ≡ joined_passes (pass_of self.old) (pass_of other) }
        ensures seen { HasSeenAll (seat_of self.old) (seat_of self.new) × HasSeenAll (seat_of other)
            (seat_of self.new) }
        ensures out { (out : ℕ) → IsFirstHelper pool.now (out + 1) self.old → IsFirstHelper pool.now out self.new }
    {
        let Helper { seat, pass, .. } = other;
        pool.tickets.join_pass(&mut self.pass, pass);
        pool.turns.join_seat(&mut self.seat, seat);
    }
}
