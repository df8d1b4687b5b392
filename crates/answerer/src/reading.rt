//! Answers by the entries of actors.
ghost use Rattle.std.specs.Prelude.{◌≡◌, ◌≢◌, ◌<◌, ◌^◌, ℕ, [], IfOk, List, OnOk, length, replicate};
ghost use Rattle.pattern_core.specs.Members.{IsIn};
ghost use Rattle.ask_board.specs.Board.{cells_of};
ghost use Rattle.ask_board.specs.declared.view.Ask.{Ask as OneAsk};
ghost use Rattle.fair_semantics.specs.declared.run.Entry.{Entry as OneEntry};
ghost use Rattle.answerer.specs.Answered.{AreKnown, AreTriedBack, GoesOn, IsOfBoard};
ghost use Rattle.answerer.specs.Asks.{asks_of};
ghost use Rattle.answerer.specs.Fit.{AreAllTried, Fits, FitsIn, FitsNothing, IsAlike, KeepsOthers, not_read};

use crate::answering::Answers;
use crate::noting::Progress;
use ask_board::AskBoard;
use fair_semantics::Entry;
use join_base::{Items, NoMemory};
use std::alloc::Global;

/// Answers asks of a board by what actors reply.
#[derive(Drop)]
pub struct Answerer<'a> {
    pub(crate) answers: Answers<'a>,
    // What was read of each actor.
    pub(crate) progress: Items<Progress>,
}

// What was read of 32 actors that were not read yet.
fn nothing_read(alloc: Global) -> Result<Items<Progress>, NoMemory>
    ensures none { IfOk result (λ rows. rows ≡ replicate 32 not_read) }
{
    let mut rows = Items::new(alloc);
    for _ in 0..32u32 {
        rows.push(Progress::new(alloc))?;
    }
    Ok(rows)
}

// Reads the entries of an actor, where this was read of it before.
fn read_entries(
    alloc: Global,
    answers: &mut Answers,
    progress: &mut Progress,
    actor: u32,
    entries: &[Entry],
) -> Result<(), NoMemory>
    requires few { length entries.now < 2 ^ 32 }
    requires fits { FitsIn actor entries.now progress.old answers.old }
    ensures fits { FitsIn actor entries.now progress.new answers.new }
    ensures others { (other : ℕ) → other ≢ actor → IsAlike other answers.old answers.new }
    ensures goes_on { GoesOn answers.old answers.new }
    ensures tried { OnOk result (AreTriedBack (asks_of actor entries.now) entries.now answers.new) }
{
    progress.note(actor, entries)?;
    answers.answer_entries(alloc, progress, entries)
}

impl<'a> Answerer<'a> {
    /// An answerer that knows nothing, with no ask on its list. It fits every actor that has no entries.
    pub fn new(alloc: Global, board: &'a AskBoard) -> Result<Answerer<'a>, NoMemory>
        ensures fits { IfOk result FitsNothing }
        ensures board { IfOk result (λ answerer. answerer.answers.board.now ≡ board.now) }
    {
        let view = board.view()?;
        let progress = nothing_read(alloc)?;
        let answers = Answers {
            board,
            view,
            asks: Items::new(alloc),
        };
        Ok(Answerer { answers, progress })
    }

    /// Reads the entries of an actor, and answers what they reply to arrivals from feeds. What was read of the actor
    /// before begins them.
    ///
    /// It fits the entries then, whatever the answer, and fits other actors as before. What was on the list and what
    /// was known stays so. At `Ok` each reply to an arrival up to then whose ask the board has was tried: the ask is on
    /// the list, or has another value. `NoMemory` comes where there is no memory. What was answered by then stays, and
    /// a further call goes on from there.
    pub fn read(&mut self, alloc: Global, actor: u32, entries: &[Entry]) -> Result<(), NoMemory>
        requires below { actor < 32 }
        requires few { length entries.now < 2 ^ 32 }
        requires fits { Fits self.old actor entries.now }
        ensures fits { Fits self.new actor entries.now }
        ensures others { KeepsOthers self.old self.new actor }
        ensures goes_on { GoesOn self.old.answers self.new.answers }
        ensures tried { OnOk result (AreAllTried self.new actor entries.now) }
    {
        let progress = self.progress.at_mut(actor as usize);
        read_entries(alloc, &mut self.answers, progress, actor, entries)
    }

    /// Puts the asks of another answerer on this one's list, and learns their values. Both were made with one board.
    ///
    /// It fits then what both fitted. At `Ok` its list has the asks of both. Without memory it has some of the other's.
    pub fn join(&mut self, other: Answerer) -> Result<(), NoMemory>
        requires one_board { cells_of other.answers.board.now ≡ cells_of self.old.answers.board.now }
        requires of_board { IsOfBoard self.old.answers }
        requires others { IsOfBoard other.answers }
        requires known { AreKnown other.answers }
        ensures fits { (actor : ℕ) (entries : List OneEntry) → Fits self.old actor entries
            → Fits other.entry actor entries → Fits self.new actor entries }
        ensures board { self.new.answers.board.now ≡ self.old.answers.board.now }
        ensures of_board { IsOfBoard self.new.answers }
        ensures kept { (ask : OneAsk) → IsIn ask self.old.answers.asks → IsIn ask self.new.answers.asks }
        ensures joined { OnOk result ((ask : OneAsk) → IsIn ask other.entry.answers.asks
            → IsIn ask self.new.answers.asks) }
    {
        let Answerer { answers, .. } = other;
        let Answers { view, asks, .. } = answers;
        self.answers.join(view, asks.as_slice())
    }
}
