//! Taking a ticket.
ghost use Rattle.std.specs.Prelude.{◌≡◌, ◌∷◌, [], All, IfNone, IfSome};
ghost use Rattle.steal_pool.specs.View.{with_taken, with_none};
ghost use Rattle.steal_pool.specs.Moments.{MayTake, WasAt, WasEmpty};
ghost use Rattle.steal_pool.specs.Passes.{thief_deque, thief_number, thief_view, deques_in, numbers_in, views_in};
ghost use Rattle.steal_pool.specs.Passes.{views_of, own_view, other_views, IsSamePass};
ghost use Rattle.steal_pool.specs.Taking.{MaySteal, MayTakeAny, TakesOne};

use crate::pass::StealPass;
use crate::plays::{CountNone, Take};
use crate::thief::Thief;
use crate::view::DequeView;
use crossbeam_deque::Steal;
use crossbeam_deque::protocol::Protocol;
use std::sync::Wait;

impl<P: Protocol<u32, DequeView>> Thief<P> {
    // Steals the ticket in front. A steal that lost to another taker is tried again.
    fn steal<R: Wait>(&mut self, rt: &R) -> Option<u32>
        requires kept { MaySteal P.holds self.old }
        ensures deque { thief_deque self.new ≡ thief_deque self.old }
        ensures number { thief_number self.new ≡ thief_number self.old }
        ensures taken { IfSome result (λ ticket. thief_view self.new ≡ with_taken (ticket ∷ []) (thief_view self.old)) }
        ensures front { IfSome result (λ ticket. WasAt P.holds (thief_view self.old) (ticket ∷ [])) }
        ensures none { IfNone result (thief_view self.new ≡ thief_view self.old) }
        ensures empty { IfNone result (WasEmpty P.holds (thief_view self.old)) }
    {
        for _ in rt.forever() {
            match self.stealer.steal_as::<Take<P>>(&mut self.pass) {
                Steal::Success(ticket) => return Some(ticket),
                Steal::Empty => return None,
                Steal::Retry => {}
            }
        }
        unreachable!()
    }
}

// Steals the first ticket that it finds in one of the deques, in their order.
fn steal_first<P: Protocol<u32, DequeView>, R: Wait>(
    rt: &R,
    thieves: &mut [Thief<P>],
) -> Option<u32>
    requires kept { All (MaySteal P.holds) thieves.old }
    ensures deques { deques_in thieves.new ≡ deques_in thieves.old }
    ensures numbers { numbers_in thieves.new ≡ numbers_in thieves.old }
    ensures taken { IfSome result (λ ticket. TakesOne P.holds ticket (views_in thieves.old) (views_in thieves.new)) }
    ensures none { IfNone result (views_in thieves.new ≡ views_in thieves.old) }
    ensures empty { IfNone result (All (WasEmpty P.holds) (views_in thieves.old)) }
{
    for thief in thieves.iter_mut() {
        if let Some(ticket) = thief.steal(rt) {
            return Some(ticket);
        }
    }
    None
}

impl<P: Protocol<u32, DequeView>> StealPass<P> {
    /// Takes the ticket in front of the own deque, or else steals that of another one, in turn from the next number
    /// upwards. At a moment of this call the ticket was the one in front there, and at earlier ones the deques before
    /// that in turn were empty. None comes only where each deque was empty at a moment of this call; it is counted. A
    /// steal that lost to another taker is tried again. It takes no memory and may wait.
    ///
    /// The caller shows that the rule is kept (`MayTakeAny`). Of `InOrder`, `may_take_any` of `proofs/RuleLemmas` shows
    /// it.
    pub fn take<R: Wait>(&mut self, rt: &R) -> Option<u32>
        requires kept { MayTakeAny P.holds self.old }
        ensures own { IsSamePass self.old self.new }
        ensures taken { IfSome result (λ ticket. TakesOne P.holds ticket (views_of self.old) (views_of self.new)) }
        ensures none { IfNone result (views_of self.new ≡ with_none (own_view self.old) ∷ other_views self.old) }
        ensures empty { IfNone result (All (WasEmpty P.holds) (views_of self.old)) }
    {
        if let Some(ticket) = self.own.pop_as::<Take<P>>() {
            return Some(ticket);
        }
        if let Some(ticket) = steal_first(rt, self.others.as_mut_slice()) {
            return Some(ticket);
        }
        self.own.another::<CountNone>();
        None
    }
}
