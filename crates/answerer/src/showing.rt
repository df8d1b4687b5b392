//! An answerer beside a pool: it answers by the actors that it is shown.
ghost use Rattle.std.specs.Prelude.{◌≡◌, ◌≢◌, ◌≤◌, ◌<◌, ◌-◌, ◌^◌, ℕ, OnErr, OnOk, length, take};
ghost use Rattle.join_base.specs.Outside.{Rose};
ghost use Rattle.feed_answers.specs.Answers.{effects_in};
ghost use Rattle.actor_pool.specs.Beside.{IsReached, KeepsOthers, ShowsHistory};
ghost use Rattle.answerer.specs.Answered.{Answered, AreTriedBack, IsOfBoard};
ghost use Rattle.answerer.specs.Asks.{AreNoted, asks_of};
ghost use Rattle.answerer.specs.Beside.{FitsHistory};
ghost use Rattle.answerer.specs.Fit.{AreAllTried, FitsIn, IsAlike};
ghost use Rattle.answerer.specs.Growing.{histories_grow};

use crate::answering::Answers;
use crate::noting::{Progress, next_ask};
use crate::reading::Answerer;
use actor_pool::Beside;
use actor_turn::Actor;
use join_base::NoMemory;
use std::alloc::Global;

// Notes the arrivals of an actor that were not noted yet. Without memory some of them are noted.
fn note_shown(progress: &mut Progress, actor: u32, state: &Actor) -> Result<(), NoMemory>
    requires noted { AreNoted actor state.now.state.entries progress.old.asks }
    ensures noted { AreNoted actor state.now.state.entries progress.new.asks }
    ensures all { OnOk result (progress.new.asks ≡ asks_of actor state.now.state.entries) }
    ensures grew { length progress.old.asks ≤ length progress.new.asks }
    ensures done { progress.new.done ≡ progress.old.done }
{
    for place in progress.asks.len()..state.arrivals() as usize {
        let source = state.source_of(place as u32 + 1);
        let ask = next_ask(actor, source, progress.asks.as_slice());
        progress.asks.push(ask)?;
    }
    Ok(())
}

// Answers what an actor replied that was not tried yet. Without memory some of it is answered.
fn answer_shown(
    alloc: Global,
    answers: &mut Answers,
    progress: &mut Progress,
    state: &Actor,
) -> Result<(), NoMemory>
    requires of_board { IsOfBoard answers.old }
    requires within { progress.old.done ≤ length state.now.state.entries }
    requires tried { AreTriedBack progress.old.asks (take progress.old.done state.now.state.entries) answers.old }

    ensures answered { Answered progress.old.asks (effects_in state.now.state.entries) answers.old answers.new }
    ensures within { progress.new.done ≤ length state.now.state.entries }
    ensures tried { AreTriedBack progress.old.asks (take progress.new.done state.now.state.entries) answers.new }
    ensures all { OnOk result (progress.new.done ≡ length state.now.state.entries) }
    ensures asks { progress.new.asks ≡ progress.old.asks }
{
    for place in progress.done..state.firings().len() {
        answers.answer_firing(alloc, progress.asks.as_slice(), &state.firings()[place])?;
        progress.done = place + 1;
    }
    Ok(())
}

// Answers by an actor, where this was read of it before.
fn answer_by(
    alloc: Global,
    answers: &mut Answers,
    progress: &mut Progress,
    actor: u32,
    state: &Actor,
) -> Result<(), NoMemory>
    requires fits { FitsIn actor state.now.state.entries progress.old answers.old }
    ensures fits { FitsIn actor state.now.state.entries progress.new answers.new }
    ensures others { (other : ℕ) → other ≢ actor → IsAlike other answers.old answers.new }
    ensures tried { OnOk result (AreTriedBack (asks_of actor state.now.state.entries) state.now.state.entries
        answers.new) }
{
    note_shown(progress, actor, state)?;
    answer_shown(alloc, answers, progress, state)
}

impl<'a, R> Beside<R> for Answerer<'a> {
    ghost fits = { FitsHistory };

    ghost tells = { λ _. 2 ^ 64 - 1 };

    ghost wants = { Unit {0} };

    /// Answers what the actor replied to arrivals from feeds. At `Ok` each reply to an arrival up to its own whose ask
    /// the board has was tried: the ask is on the list, or has another value. A further call goes on where one wanted
    /// memory.
    fn seen(&mut self, _rt: &R, alloc: Global, actor: u32, state: &Actor) -> Result<(), NoMemory>
        requires below { actor < 32 }
        requires reached { IsReached state.now.setting state.now.state }
        requires shows { ShowsHistory state.now.setting state.now.state state.now.history }
        requires fits { FitsHistory self.old actor state.now.setting state.now.history }
        ensures fits { FitsHistory self.new actor state.now.setting state.now.history }
        ensures others { KeepsOthers FitsHistory self.old self.new actor }
        ensures told { Rose (2 ^ 64 - 1) (2 ^ 64 - 1) }
        ensures wants { OnErr result (Unit {0}) }
        ensures tried { OnOk result (AreAllTried self.new actor state.now.state.entries) }
        ensures board { self.new.answers.board.now ≡ self.old.answers.board.now }
    {
        let progress = self.progress.at_mut(actor as usize);
        answer_by(alloc, &mut self.answers, progress, actor, state)
    }

    ghost grows = { histories_grow };
}
