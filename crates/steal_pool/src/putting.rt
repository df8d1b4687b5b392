//! Putting a ticket.
ghost use Rattle.std.specs.Prelude.{◌≡◌, ◌<◌, ◌∷◌, [], OnOk, OnErr};
ghost use Rattle.steal_pool.specs.View.{with_put};
ghost use Rattle.steal_pool.specs.Moments.{MayPut};
ghost use Rattle.steal_pool.specs.Passes.{own_view, own_number, other_views, made_for, IsSamePass};

use crate::pass::StealPass;
use crate::plays::Put;
use crate::view::DequeView;
use crossbeam_deque::protocol::Protocol;
use join_base::NoMemory;

impl<P: Protocol<u32, DequeView>> StealPass<P> {
    /// Puts a ticket at the back of the own deque. At `NoMemory` nothing was put. It does not wait.
    ///
    /// The caller shows that the rule is kept (`MayPut`). Of `InOrder`, `may_put_own` of `proofs/RuleLemmas` shows it.
    pub fn put(&mut self, actor: u32) -> Result<(), NoMemory>
        requires exists { actor < made_for self.old }
        requires kept { MayPut P.holds actor (own_number self.old) (own_view self.old) }
        ensures own { IsSamePass self.old self.new }
        ensures put { OnOk result (own_view self.new ≡ with_put (actor ∷ []) (own_view self.old)) }
        ensures others { other_views self.new ≡ other_views self.old }
        ensures same { OnErr result (own_view self.new ≡ own_view self.old) }
    {
        match self.own.push_as::<Put>(actor) {
            Ok(()) => Ok(()),
            Err(_) => Err(NoMemory),
        }
    }
}
