//! Names, sources and messages of a line.
ghost use Rattle.std.specs.Prelude.{ℕ, List, ◌≡◌, ◌<◌, length, map, IfSome};
ghost use Rattle.std.specs.List.{position};
ghost use Rattle.std.specs.Str.{bytes_eq};
ghost use Rattle.join_base.specs.declared.message.Sort.{Sort};
ghost use Rattle.script_types.specs.declared.plan.ActorPlan.{ActorPlan};
ghost use Rattle.script_types.specs.declared.plan.Kind.{Kind};
ghost use Rattle.script_types.specs.Typed.{IsTyped};
ghost use Rattle.log_lines.specs.Gives.{Gives, GivesFront};
ghost use Rattle.log_lines.specs.Messages.{actor_of, feed_at, kind_of, message_of, message_with, sender_at, source_at};

use crate::fault::LineFault;
use crate::number::count_of;
use crate::parts::{after, cut};
use crate::value::fields_of;
use join_base::{Message, Source};
use script_types::{ActorPlan, Kind, Plan};
use std::alloc::Global;

fn actor_place(actors: &[ActorPlan], name: &[u8]) -> Option<usize>
    ensures { result ≡ position (λ (actor : ActorPlan). bytes_eq actor.name name.now) actors.now }
{
    actors.iter().position(|actor| actor.name.bytes() == name)
}

/// The number of the actor of this name, from 0.
#[tactic(auto, unfolding(crate::specs::Messages::actor_of))]
pub(crate) fn actor_of(plan: &Plan, name: &[u8]) -> Option<u32>
    requires typed { IsTyped plan.now }
    ensures { result ≡ actor_of plan.now name.now }
{
    match actor_place(plan.actors.as_slice(), name) {
        Some(place) => Some(place as u32),
        None => None,
    }
}

fn kind_place(kinds: &[Kind], name: &[u8]) -> Option<usize>
    ensures { result ≡ position (λ (kind : Kind). bytes_eq kind.name name.now) kinds.now }
{
    kinds.iter().position(|kind| kind.name.bytes() == name)
}

// The number of the kind of this name, from 0.
#[tactic(auto, unfolding(crate::specs::Messages::kind_of))]
fn kind_of(plan: &Plan, name: &[u8]) -> Option<usize>
    ensures value { result ≡ kind_of plan.now name.now }
    ensures within { IfSome result (λ k. k < length plan.now.kinds) }
{
    kind_place(plan.kinds.as_slice(), name)
}

#[tactic(auto, unfolding(crate::specs::Messages::feed_at))]
fn feed_at(feeds: u32, text: &[u8]) -> Option<(Source, &[u8])>
    ensures { GivesFront result (feed_at feeds text.now) }
{
    let (number, rest) = cut(text, b' ')?;
    let feed = count_of(number, u64::from(feeds))?;
    Some((Source::Feed(feed as u32), rest))
}

#[tactic(auto, unfolding(crate::specs::Messages::sender_at))]
fn sender_at<'a>(plan: &Plan, text: &'a [u8]) -> Option<(Source, &'a [u8])>
    requires typed { IsTyped plan.now }
    ensures { GivesFront result (sender_at plan.now text.now) }
{
    let (name, rest) = cut(text, b' ')?;
    let actor = actor_of(plan, name)?;
    Some((Source::Actor(actor), rest))
}

/// `feed K` or `actor NAME`, and what stands behind the space after it.
#[tactic(auto, unfolding(crate::specs::Messages::source_at))]
pub(crate) fn source_at<'a>(plan: &Plan, feeds: u32, text: &'a [u8]) -> Option<(Source, &'a [u8])>
    requires typed { IsTyped plan.now }
    ensures { GivesFront result (source_at plan.now feeds text.now) }
{
    if let Some(rest) = after(text, b"feed ") {
        return feed_at(feeds, rest);
    }
    if let Some(rest) = after(text, b"actor ") {
        return sender_at(plan, rest);
    }
    None
}

#[tactic(auto, unfolding(crate::specs::Messages::message_with))]
fn message_with(alloc: Global, plan: &Plan, text: &[u8], kind: usize) -> Result<Message, LineFault>
    requires typed { IsTyped plan.now }
    requires within { kind < length plan.now.kinds }
    ensures { Gives result (message_with plan.now text.now kind) }
{
    let fields = fields_of(alloc, plan.kinds.at(kind).fields.as_slice(), text)?;
    Ok(Message {
        kind: kind as u32,
        fields,
    })
}

/// The message that all of the text is: `KIND(VALUES)`.
#[tactic(auto, unfolding(crate::specs::Messages::message_of))]
pub(crate) fn message_of(alloc: Global, plan: &Plan, text: &[u8]) -> Result<Message, LineFault>
    requires typed { IsTyped plan.now }
    ensures { Gives result (message_of plan.now text.now) }
{
    let Some((name, values)) = cut(text, b'(') else {
        return Err(LineFault::NoLine);
    };
    match kind_of(plan, name) {
        Some(kind) => message_with(alloc, plan, values, kind),
        None => Err(LineFault::NoLine),
    }
}
