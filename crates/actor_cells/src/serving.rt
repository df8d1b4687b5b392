//! Serving a cell.
ghost use Rattle.std.specs.Prelude.{◌≡◌, ◌<◌, ◌≤◌, length, IfOk, OnErr, OnOk, MatchBool, MatchOption};
ghost use Rattle.join_base.specs.Late.{HasCount};
ghost use Rattle.actor_cells.specs.Lawful.{IsLawful, tally_of};
ghost use Rattle.actor_cells.specs.Served.{AllSent, StaysLawful, IsRefusing, LooksRose, TakesInTurn};
ghost use Rattle.actor_cells.specs.Steps.{Brings, FindsNone, Refuses, TakesMany, changed_at, one_look, one_received};

use crate::actor_set::ActorSet;
use crate::cell::Cell;
use actor_turn::{Actor, Refused};
use fair_semantics::Outcome;
use join_base::{NoMemory, Source, Stamped, Steps};
use post_ring::LinkOut;
use std::alloc::Global;
use std::sync::ledger::Ledger;

/// How a `serve` ended.
#[derive(Clone, Copy, PartialEq, Eq, Debug)]
pub enum Turned {
    /// As many messages were taken as one call takes, and there may be more.
    More,
    /// Fewer were taken, and each inward link was looked at and showed none.
    Dry,
}

// Takes the message that waits first on a link, and hands it over to the actor. The answer is what became of it, or
// `None` where the link showed nothing. Without memory the message is given back to the link, where it waits first
// again.
fn bring_one<L: Ledger>(
    alloc: Global,
    actor: &mut Actor,
    source: Source,
    link: &mut LinkOut,
    steps: &mut Steps<L>,
) -> Result<Option<Outcome>, NoMemory>
    requires known { HasCount actor.old.state.late source }
    ensures brought { IfOk result (λ found. MatchOption found (FindsNone actor.old actor.new link.old link.new)
        (λ outcome. Brings source actor.old actor.new link.old link.new)) }
    ensures refused { OnErr result (Refuses actor.old actor.new link.old link.new) }
{
    let Some(stamped) = link.take() else {
        return Ok(None);
    };
    let Stamped { message, stamp } = stamped;
    match actor.receive(alloc, source, message, stamp, steps) {
        Ok(outcome) => Ok(Some(outcome)),
        Err(refused) => {
            let Refused { message } = refused;
            link.give_back(Stamped { message, stamp });
            Err(NoMemory)
        }
    }
}

impl Cell {
    /// The most messages that one `serve` takes.
    pub const MOST: u32 = 256;

    /// So many messages of an actor to itself come before one that waits on another link, where so many wait.
    pub const OWN: u32 = 64;

    // Brings the message that waits first on the link at a place.
    fn bring<L: Ledger>(
        &mut self,
        alloc: Global,
        place: usize,
        steps: &mut Steps<L>,
    ) -> Result<Option<Outcome>, NoMemory>
        requires within { place < length self.old.inward.items }
        requires lawful { IsLawful self.old }
        ensures kept { StaysLawful self.old self.new }
        ensures tally { IfOk result (λ found. MatchOption found (tally_of self.new
            ≡ changed_at one_look (tally_of self.old) place) (λ outcome. tally_of self.new ≡ changed_at one_received
            (tally_of self.old) place)) }
        ensures refused { OnErr result (IsRefusing self.new) }
    {
        let one = &mut self.inward[place];
        bring_one(alloc, &mut self.actor, one.source, &mut one.link, steps)
    }

    // Brings the message that waits first on the link at a place, and moves the posts that it made to their links. So
    // what an actor posts to itself stands on its own link when that is looked at next. Each look at a link goes
    // through it.
    #[inline(always)]
    fn bring_and_send<L: Ledger>(
        &mut self,
        alloc: Global,
        place: usize,
        steps: &mut Steps<L>,
    ) -> Result<bool, NoMemory>
        requires within { place < length self.old.inward.items }
        requires lawful { IsLawful self.old }
        ensures kept { StaysLawful self.old self.new }
        ensures tally { IfOk result (λ found. MatchBool found (tally_of self.new ≡ changed_at one_received
            (tally_of self.old) place) (tally_of self.new ≡ changed_at one_look (tally_of self.old) place)) }
        ensures refused { OnErr result (IsRefusing self.new) }
    {
        let Some(outcome) = self.bring(alloc, place, steps)? else {
            return Ok(false);
        };
        self.send_rest(outcome == Outcome::Fired);
        Ok(true)
    }

    // Takes what the actor posted to itself, at most `OWN` messages and at most so many.
    fn take_own<L: Ledger>(
        &mut self,
        alloc: Global,
        most: u32,
        steps: &mut Steps<L>,
    ) -> Result<u32, NoMemory>
        requires lawful { IsLawful self.old }
        ensures kept { StaysLawful self.old self.new }
        ensures few { IfOk result (λ taken. taken ≤ most) }
        ensures row { IfOk result (λ taken. taken ≤ 64) }
        ensures taken { IfOk result (λ taken. TakesMany (tally_of self.old) (tally_of self.new) taken) }
        ensures refused { OnErr result (IsRefusing self.new) }
    {
        let place = self.own;
        if place >= self.inward.len() {
            return Ok(0);
        }
        let limit = most.min(Cell::OWN);
        for taken in 0..limit {
            if !self.bring_and_send(alloc, place, steps)? {
                return Ok(taken);
            }
        }
        Ok(limit)
    }

    // Takes the first message of the link at a place, and then what the actor posted to itself, at most so many.
    fn take_at<L: Ledger>(
        &mut self,
        alloc: Global,
        place: usize,
        most: u32,
        steps: &mut Steps<L>,
    ) -> Result<u32, NoMemory>
        requires some { 1 ≤ most }
        requires within { place < length self.old.inward.items }
        requires lawful { IsLawful self.old }
        ensures kept { StaysLawful self.old self.new }
        ensures few { IfOk result (λ taken. taken ≤ most) }
        ensures taken { IfOk result (λ taken. TakesMany (tally_of self.old) (tally_of self.new) taken) }
        ensures none { IfOk result (λ taken. taken ≡ 0 → tally_of self.new
            ≡ changed_at one_look (tally_of self.old) place) }
        ensures refused { OnErr result (IsRefusing self.new) }
    {
        if !self.bring_and_send(alloc, place, steps)? {
            return Ok(0);
        }
        let own = self.take_own(alloc, most - 1, steps)?;
        Ok(own + 1)
    }

    // Looks at each inward link once and takes its first message and the posts to itself that follow, until so many
    // were taken.
    fn take_round<L: Ledger>(
        &mut self,
        alloc: Global,
        most: u32,
        steps: &mut Steps<L>,
    ) -> Result<u32, NoMemory>
        requires some { 1 ≤ most }
        requires lawful { IsLawful self.old }
        ensures kept { StaysLawful self.old self.new }
        ensures few { IfOk result (λ taken. taken ≤ most) }
        ensures taken { IfOk result (λ taken. TakesMany (tally_of self.old) (tally_of self.new) taken) }
        ensures none { IfOk result (λ taken. taken ≡ 0 → LooksRose (tally_of self.old) (tally_of self.new)) }
        ensures refused { OnErr result (IsRefusing self.new) }
    {
        let mut taken = 0u32;
        for place in 0..self.inward.len() {
            if taken == most {
                return Ok(taken);
            }
            taken += self.take_at(alloc, place, most - taken, steps)?;
        }
        Ok(taken)
    }

    // Takes what the actor posted to itself, and then messages in rounds.
    fn take_all<L: Ledger>(
        &mut self,
        alloc: Global,
        steps: &mut Steps<L>,
    ) -> Result<Turned, NoMemory>
        requires lawful { IsLawful self.old }
        ensures kept { StaysLawful self.old self.new }
        ensures turned { IfOk result (TakesInTurn (tally_of self.old) (tally_of self.new)) }
        ensures refused { OnErr result (IsRefusing self.new) }
    {
        let mut taken = self.take_own(alloc, Cell::MOST, steps)?;
        for _ in 0..Cell::MOST {
            let left = Cell::MOST - taken;
            let more = self.take_round(alloc, left, steps)?;
            if more == left {
                return Ok(Turned::More);
            }
            if more == 0 {
                return Ok(Turned::Dry);
            }
            taken += more;
        }
        unreachable!()
    }

    /// Moves posts from the outboxes to their links as far as room is known, brings messages of the inward links to the
    /// actor in rounds, and moves the posts that each of them made. What the actor posts to itself comes before the
    /// next message of another link, at least the first `OWN` in a row. `More` exactly where `MOST` messages were
    /// taken. A post that is left in its outbox then waits for a link that is known to have no room. After `NoMemory`
    /// the message that was refused still waits first on its link, and the earlier ones have arrived.
    pub fn serve<L: Ledger>(
        &mut self,
        alloc: Global,
        steps: &mut Steps<L>,
    ) -> Result<Turned, NoMemory>
        requires lawful { IsLawful self.old }
        ensures kept { StaysLawful self.old self.new }
        ensures turned { IfOk result (TakesInTurn (tally_of self.old) (tally_of self.new)) }
        ensures sent { OnOk result (AllSent self.new) }
        ensures refused { OnErr result (IsRefusing self.new) }
    {
        self.note(ActorSet::new(), self.held);
        self.send_rest(false);
        let turned = self.take_all(alloc, steps)?;
        self.send();
        Ok(turned)
    }
}
