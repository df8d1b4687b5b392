//! The answers of a run as text, read on the board as far as the answerer put them there.
ghost use Rattle.std.specs.Prelude.{◌≡◌, ◌++◌, ◌≤◌, OnErr, OnOk, length};
ghost use Rattle.std.specs.List.{AllByRecursion};
ghost use Rattle.pattern_core.specs.Members.{IsIn};
ghost use Rattle.feed_answers.specs.AnswersText.{lines_from};
ghost use Rattle.feed_answers.specs.Queues.{HasNumbers};
ghost use Rattle.answerer.specs.Answered.{AreKnown, IsOfBoard, KnowsTheSame};
ghost use Rattle.ask_run.specs.Asking.{KnowsAnswers};
ghost use Rattle.ask_run.specs.Telling.{AreRight};

use answerer::Answerer;
use ask_board::Ask;
use fair_semantics::Run;
use feed_answers::{Queue, Targets, queues_of, replies_to_all, write_feed};
use join_base::{Bytes, Items, NoMemory};
use std::alloc::Global;

// Puts the value of an ask on the list into the queue of its actor, where the ask is of this feed.
fn put_one<'a>(answerer: &mut Answerer<'a>, queues: &mut [Queue<'a>], feed: u32, ask: Ask)
    requires of_board { IsOfBoard answerer.old.answers }
    requires known { AreKnown answerer.old.answers }
    requires right { AreRight queues.old feed answerer.old }
    requires listed { IsIn ask answerer.old.answers.asks }
    ensures same { queues.new ≡ queues.old }
    ensures told { KnowsTheSame answerer.old.answers answerer.new.answers }
{
    let actor = ask.actor as usize;
    if ask.feed != feed || queues.len() <= actor || ask.place == 0 {
        return;
    }
    let value = answerer.value_of(ask);
    queues[actor].put((ask.place - 1) as usize, value);
}

// Puts what the answerer has answered of a feed into the queues of its actors, which have the same there already.
fn put_told<'a>(answerer: &mut Answerer<'a>, queues: &mut [Queue<'a>], feed: u32)
    requires of_board { IsOfBoard answerer.old.answers }
    requires known { AreKnown answerer.old.answers }
    requires right { AreRight queues.old feed answerer.old }
    ensures same { queues.new ≡ queues.old }
    ensures told { KnowsTheSame answerer.old.answers answerer.new.answers }
{
    for place in 0..answerer.asks().len() {
        let ask = answerer.asks()[place];
        put_one(answerer, queues, feed, ask);
    }
}

// The lines of all feeds.
fn write_told<'a>(
    alloc: Global,
    text: &mut Bytes,
    run: &'a Run,
    mut answerer: Answerer<'a>,
    feeds: &[Targets],
) -> Result<(), NoMemory>
    requires numbered { AllByRecursion HasNumbers run.now.actors }
    requires few { length feeds.now ≤ 16 }
    requires of_board { IsOfBoard answerer.answers }
    requires known { AreKnown answerer.answers }
    requires answers { KnowsAnswers run.now answerer }
    ensures { OnOk result (text.new ≡ text.old ++ lines_from run.now.actors 1 feeds.now) }
{
    let runs = run.actors.as_slice();
    let replies = replies_to_all(alloc, runs)?;
    for (place, targets) in feeds.iter().enumerate() {
        let feed = place as u32 + 1;
        let mut queues = queues_of(alloc, runs, replies.as_slice(), feed)?;
        let slots = queues.as_mut_slice();
        put_told(&mut answerer, slots, feed);
        write_feed(text, slots, place as u64 + 1, targets.as_slice())?;
    }
    Ok(())
}

/// Appends the answers of the rows of the feeds, as `print_answers` of `feed_answers` does. Those of the asks on the
/// answerer's list are read on its board. Another answer, of an ask that somebody gave another value, is read in the
/// run. After `NoMemory` nothing was appended.
pub fn print_told<'a>(
    alloc: Global,
    run: &'a Run,
    answerer: Answerer<'a>,
    feeds: &Items<Targets>,
    out: &mut Bytes,
) -> Result<(), NoMemory>
    requires numbered { AllByRecursion HasNumbers run.now.actors }
    requires few { length feeds.now ≤ 16 }
    requires of_board { IsOfBoard answerer.answers }
    requires known { AreKnown answerer.answers }
    requires answers { KnowsAnswers run.now answerer }
    ensures ok { OnOk result (out.new ≡ out.old ++ lines_from run.now.actors 1 feeds.now) }
    ensures err { OnErr result (out.new ≡ out.old) }
{
    let mut text = Bytes::new(alloc);
    write_told(alloc, &mut text, run, answerer, feeds.as_slice())?;
    out.push_all(text.bytes())
}
