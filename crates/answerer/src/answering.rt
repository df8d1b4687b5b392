//! Answering the asks of a board, one reply after the other.
ghost use Rattle.std.specs.Prelude.{◌≡◌, ◌≤◌, ◌∷◌, [], IfNone, IfSome, IsSome, OnOk, Some, length, take};
ghost use Rattle.pattern_core.specs.Members.{IsIn};
ghost use Rattle.ask_board.specs.Board.{HasAsk};
ghost use Rattle.ask_board.specs.View.{AreOfOneBoard, known_of};
ghost use Rattle.ask_board.specs.declared.view.Ask.{Ask as OneAsk};
ghost use Rattle.fair_semantics.specs.declared.run.Effect.TheVariants.{Reply};
ghost use Rattle.fair_semantics.specs.Linked.{firing_effects};
ghost use Rattle.feed_answers.specs.Answers.{effects_in};
ghost use Rattle.answerer.specs.Asks.{ask_at};
ghost use Rattle.answerer.specs.Answered.{Answered, AreTried, AreTriedBack, AnswersOne, IsOfBoard, IsTried, Joins};

use crate::noting::{Progress, ask_at};
use ask_board::{AnswerFault, Ask, AskBoard, AskView};
use fair_semantics::{Effect, Entry, Fired};
use join_base::{Items, NoMemory, Value};
use std::alloc::Global;

/// What was answered on a board.
#[derive(Drop)]
pub struct Answers<'a> {
    pub board: &'a AskBoard,
    pub view: AskView,
    // The asks that were answered.
    pub asks: Items<Ask>,
}

// The ask of the arrival of a number, where the board has it.
fn ask_on(board: &AskBoard, asks: &[Option<Ask>], number: u32) -> Option<Ask>
    ensures some { IfSome result (λ ask. (ask_at asks.now number ≡ Some ask) × HasAsk board.now ask) }
    ensures none { IfNone result ((ask : OneAsk) → ask_at asks.now number ≡ Some ask → ¬ HasAsk board.now ask) }
{
    match ask_at(asks, number) {
        None => None,
        Some(ask) => { if board.has(ask) { Some(ask) } else { None } }
    }
}

impl<'a> Answers<'a> {
    // Answers an ask with a value, and lists it where the ask has this value then.
    fn give(&mut self, ask: Ask, value: Value) -> Result<(), NoMemory>
        requires of_board { IsOfBoard self.old }
        requires exists { HasAsk self.old.board.now ask }
        ensures gives { AnswersOne ask value self.old self.new }
        ensures tried { OnOk result (IsTried self.new ask value) }
    {
        match self.board.answer(&mut self.view, ask, value) {
            Ok(()) => self.asks.push(ask),
            Err(AnswerFault::Differs(_value)) => Ok(()),
            Err(AnswerFault::NoMemory(_value)) => Err(NoMemory),
        }
    }

    // Answers the ask of the arrival of a number with a copy of a value, where the board has that ask.
    fn reply(
        &mut self,
        alloc: Global,
        asks: &[Option<Ask>],
        number: u32,
        value: &Value,
    ) -> Result<(), NoMemory>
        requires of_board { IsOfBoard self.old }
        ensures answered { Answered asks.now (Reply number value.now ∷ []) self.old self.new }
        ensures tried { OnOk result (AreTried asks.now (Reply number value.now ∷ []) self.new) }
    {
        match ask_on(self.board, asks, number) {
            None => Ok(()),
            Some(ask) => {
                let value = value.copy(alloc)?;
                self.give(ask, value)
            }
        }
    }

    fn answer_effect(
        &mut self,
        alloc: Global,
        asks: &[Option<Ask>],
        effect: &Effect,
    ) -> Result<(), NoMemory>
        requires of_board { IsOfBoard self.old }
        ensures answered { Answered asks.now (effect.now ∷ []) self.old self.new }
        ensures tried { OnOk result (AreTried asks.now (effect.now ∷ []) self.new) }
    {
        match effect {
            Effect::Print(_) => Ok(()),
            Effect::Post { .. } => Ok(()),
            Effect::Reply { number, value } => self.reply(alloc, asks, *number, value),
        }
    }

    fn answer_effects(
        &mut self,
        alloc: Global,
        asks: &[Option<Ask>],
        effects: &[Effect],
    ) -> Result<(), NoMemory>
        requires of_board { IsOfBoard self.old }
        ensures answered { Answered asks.now effects.now self.old self.new }
        ensures tried { OnOk result (AreTried asks.now effects.now self.new) }
    {
        for effect in effects {
            self.answer_effect(alloc, asks, effect)?;
        }
        Ok(())
    }

    /// Answers what the firing of an arrival replies.
    pub fn answer_firing(
        &mut self,
        alloc: Global,
        asks: &[Option<Ask>],
        fired: &Fired,
    ) -> Result<(), NoMemory>
        requires of_board { IsOfBoard self.old }
        ensures answered { Answered asks.now (firing_effects fired.now) self.old self.new }
        ensures tried { OnOk result (AreTried asks.now (firing_effects fired.now) self.new) }
    {
        match fired.get() {
            None => Ok(()),
            Some(firing) => self.answer_effects(alloc, asks, firing.effects.as_slice()),
        }
    }

    /// Answers what the entries reply that were not tried yet. Without memory it has answered some of them.
    pub fn answer_entries(
        &mut self,
        alloc: Global,
        progress: &mut Progress,
        entries: &[Entry],
    ) -> Result<(), NoMemory>
        requires of_board { IsOfBoard self.old }
        requires within { progress.old.done ≤ length entries.now }
        requires tried { AreTriedBack progress.old.asks (take progress.old.done entries.now) self.old }

        ensures answered { Answered progress.old.asks (effects_in entries.now) self.old self.new }
        ensures within { progress.new.done ≤ length entries.now }
        ensures tried { AreTriedBack progress.old.asks (take progress.new.done entries.now) self.new }
        ensures all { OnOk result (progress.new.done ≡ length entries.now) }
        ensures asks { progress.new.asks ≡ progress.old.asks }
    {
        for place in progress.done..entries.len() {
            self.answer_firing(alloc, progress.asks.as_slice(), &entries[place].firing)?;
            progress.done = place + 1;
        }
        Ok(())
    }

    /// Learns the values of asks from another view of the board, which knows one of each, and puts these asks on the
    /// list.
    pub fn join(&mut self, mut view: AskView, asks: &[Ask]) -> Result<(), NoMemory>
        requires of_board { IsOfBoard self.old }
        requires one_board { AreOfOneBoard self.old.view view }
        requires known { (ask : OneAsk) → IsIn ask asks.now → IsSome (known_of view ask) }
        ensures joins { Joins view asks.now self.old self.new }
        ensures joined { OnOk result ((ask : OneAsk) → IsIn ask asks.now → IsIn ask self.new.asks) }
    {
        for ask in asks {
            self.view.learn(&mut view, *ask);
            self.asks.push(*ask)?;
        }
        Ok(())
    }
}
