//! The reply to each arrival of an actor.
ghost use Rattle.std.specs.Prelude.{◌≡◌, IfOk, None, replicate};
ghost use Rattle.fair_semantics.specs.declared.run.Effect.TheVariants.{Reply};
ghost use Rattle.feed_answers.specs.Queues.{replies_of, seen, with_effect, with_effects};

use fair_semantics::{Effect, Entry};
use join_base::{NoMemory, Value};
use std::alloc::Global;

// Notes a reply to an arrival, where there was none yet.
fn note_reply<'a>(replies: &mut [Option<&'a Value>], number: u32, value: &'a Value)
    ensures { seen replies.new ≡ with_effect 1 (seen replies.old) (Reply number value.now) }
{
    if number == 0 {
        return;
    }
    let place = (number - 1) as usize;
    if place < replies.len() && replies[place].is_none() {
        replies[place] = Some(value);
    }
}

// Notes what an effect replies.
fn note_effect<'a>(replies: &mut [Option<&'a Value>], effect: &'a Effect)
    ensures { seen replies.new ≡ with_effect 1 (seen replies.old) effect.now }
{
    match effect {
        Effect::Print(_) => {}
        Effect::Post { .. } => {}
        Effect::Reply { number, value } => note_reply(replies, *number, value),
    }
}

fn note_effects<'a>(replies: &mut [Option<&'a Value>], effects: &'a [Effect])
    ensures { seen replies.new ≡ with_effects (seen replies.old) effects.now }
{
    for effect in effects {
        note_effect(replies, effect);
    }
}

// No reply to any of so many arrivals.
fn no_replies<'a>(alloc: Global, count: usize) -> Result<Vec<Option<&'a Value>>, NoMemory>
    ensures none { IfOk result (λ replies. seen replies.items ≡ replicate count None) }
{
    let mut replies = Vec::new(alloc);
    for _ in 0..count {
        replies.push(None)?;
    }
    Ok(replies)
}

/// What was replied to each arrival, in the order of their numbers.
pub fn replies_of(alloc: Global, entries: &[Entry]) -> Result<Vec<Option<&Value>>, NoMemory>
    ensures each { IfOk result (λ replies. seen replies.items ≡ replies_of entries.now) }
{
    let mut replies = no_replies(alloc, entries.len())?;
    for entry in entries {
        if let Some(firing) = entry.firing.get() {
            note_effects(replies.as_mut_slice(), firing.effects.as_slice());
        }
    }
    Ok(replies)
}
