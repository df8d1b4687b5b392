//! The answers of a feed that come next, for each actor.
ghost use Rattle.std.specs.Prelude.{◌≡◌, ◌<◌, IfOk, Some, drop, length, map, slice_get};
ghost use Rattle.std.specs.Option.{option_copied};
ghost use Rattle.std.specs.List.{AllByRecursion};
ghost use Rattle.join_base.specs.declared.message.Source.TheVariants.{Feed};
ghost use Rattle.fair_semantics.specs.Linked.{same_source};
ghost use Rattle.feed_answers.specs.Queues.{AreNumbered, HasNumbers, answers_in, front, front_at, replies_of, seen, taken_at};

use crate::replies::replies_of;
use fair_semantics::ActorRun;
use join_base::{NoMemory, Source, Value};
use std::alloc::Global;
use std::marker::Model;

/// The answers of a feed's posts to an actor, in order. A clause sees those that are left.
#[derive(Drop)]
pub struct Queue<'a> {
    answers: Vec<Option<&'a Value>>,
    next: usize,
}

impl<'a> Model for Queue<'a> {
    ghost use Rattle.std.specs.Prelude.{List, Option, drop};
    ghost use Rattle.join_base.specs.declared.message.Value.{Value as OneValue};
    ghost use Rattle.feed_answers.specs.Queues.{seen};

    ghost Value = { List (Option OneValue) };

    ghost view = { λ q. drop q.next (seen q.answers.items) };
}

impl<'a> Queue<'a> {
    /// Puts an answer that is found elsewhere in the place of the same answer. Places count from 0.
    pub fn put(&mut self, place: usize, answer: &'a Value)
        requires there { slice_get self.old place ≡ Some (Some answer.now) }
        ensures same { self.new ≡ self.old }
    {
        let place = self.next + place;
        self.answers[place] = Some(answer);
    }

    // Takes the next answer, or none at the end.
    fn take(&mut self) -> Option<&'a Value>
        ensures first { option_copied result ≡ front self.old }
        ensures rest { self.new ≡ drop 1 self.old }
    {
        match self.answers.get(self.next) {
            None => None,
            Some(answer) => {
                self.next += 1;
                *answer
            }
        }
    }
}

fn is_from(source: Source, feed: u32) -> bool
    ensures { result ≡ same_source source (Feed feed) }
{
    source == Source::Feed(feed)
}

// The answers of a feed's posts to an actor, by the replies to its arrivals.
fn answers_in<'a>(
    alloc: Global,
    own: &ActorRun,
    replies: &[Option<&'a Value>],
    feed: u32,
) -> Result<Vec<Option<&'a Value>>, NoMemory>
    requires numbered { AreNumbered own.now.entries }
    requires replies { seen replies.now ≡ replies_of own.now.entries }
    ensures answers { IfOk result (λ answers. seen answers.items ≡ answers_in feed own.now) }
{
    let mut answers = Vec::new(alloc);
    for (place, entry) in own.entries.as_slice().iter().enumerate() {
        if is_from(entry.source, feed) {
            answers.push(replies[place])?;
        }
    }
    Ok(answers)
}

/// What was replied to the arrivals of each actor.
pub fn replies_to_all(
    alloc: Global,
    runs: &[ActorRun],
) -> Result<Vec<Vec<Option<&Value>>>, NoMemory>
    ensures each { IfOk result (λ replies. map (λ own. seen own.items) replies.items
        ≡ map (λ own. replies_of own.entries) runs.now) }
{
    let mut replies = Vec::new(alloc);
    for own in runs {
        replies.push(replies_of(alloc, own.entries.as_slice())?)?;
    }
    Ok(replies)
}

/// The answers of a feed's posts to each actor, by the replies to all arrivals.
pub fn queues_of<'a>(
    alloc: Global,
    runs: &[ActorRun],
    replies: &[Vec<Option<&'a Value>>],
    feed: u32,
) -> Result<Vec<Queue<'a>>, NoMemory>
    requires numbered { AllByRecursion HasNumbers runs.now }
    requires replies { map (λ own. seen own.items) replies.now ≡ map (λ own. replies_of own.entries) runs.now }
    ensures queues { IfOk result (λ queues. queues.items ≡ map (answers_in feed) runs.now) }
{
    let mut queues = Vec::new(alloc);
    for (place, own) in runs.iter().enumerate() {
        let answers = answers_in(alloc, own, replies[place].as_slice(), feed)?;
        queues.push(Queue { answers, next: 0 })?;
    }
    Ok(queues)
}

/// Takes the next answer for an actor. `None` too where there is no such actor.
pub fn next_answer<'a>(queues: &mut [Queue<'a>], actor: u32) -> Option<&'a Value>
    ensures answer { option_copied result ≡ front_at queues.old actor }
    ensures rest { queues.new ≡ taken_at queues.old actor }
{
    let place = actor as usize;
    if place < queues.len() {
        queues[place].take()
    } else {
        None
    }
}
