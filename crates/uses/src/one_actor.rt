//! One actor in a program without threads: the program makes its messages, and asks what they fired.
ghost use Rattle.std.specs.Prelude.{◌≡◌, ◌<◌, ◌∷◌, [], length, map, IfOk, OnOk};
ghost use Rattle.join_base.specs.Late.{HasCount};
ghost use Rattle.join_base.specs.declared.message.Source.TheVariants as source;
ghost use Rattle.join_base.specs.declared.message.Value.TheVariants.{Int};
ghost use Rattle.script_types.specs.Typed.{IsTyped};
ghost use Rattle.fair_semantics.specs.Fair.{after_all};
ghost use Rattle.actor_turn.specs.Held.{AreLimits};
ghost use Rattle.uses.specs.OneActor.{from_feed, rule_of, rules_fired};

use actor_turn::Actor;
use fair_semantics::{Fired, Limits};
use join_base::{Fields, Message, NoMemory, PushFault, Source, Steps, Value};
use script_types::Plan;
use std::alloc::Global;
use std::marker::Brand;
use std::sync::ledger::{Blank, Ledger};

/// A message of a kind of the plan, counted from 0, with one whole number.
pub fn number_message(alloc: Global, kind: u32, number: i64) -> Result<Message, NoMemory>
    ensures message { IfOk result (λ m. m ≡ record { kind = kind; fields = Int number ∷ [] }) }
{
    let mut fields = Fields::new(alloc);
    match fields.push(Value::Int(number)) {
        Ok(()) => Ok(Message { kind, fields }),
        Err(PushFault::NoMemory(_)) => Err(NoMemory),
        Err(PushFault::Full(_)) => unreachable!(),
    }
}

// Gives an actor the messages of its only feed.
fn feed_all<L: Ledger>(
    alloc: Global,
    actor: &mut Actor,
    messages: &[Message],
    steps: &mut Steps<L>,
) -> Result<(), NoMemory>
    requires { HasCount actor.old.state.late (source.Feed 1) }
    ensures fair { OnOk result (actor.new.state ≡
        after_all actor.old.setting actor.old.state (from_feed messages.now)) }
{
    for message in messages {
        actor.arrive(alloc, Source::Feed(1), message, 0, steps)?;
    }
    Ok(())
}

fn rule_of(fired: &Fired) -> Option<u32>
    ensures { result ≡ rule_of fired.now }
{
    match fired.get() {
        Some(firing) => Some(firing.rule),
        None => None,
    }
}

fn rules_of(alloc: Global, firings: &[Fired]) -> Result<Vec<Option<u32>>, NoMemory>
    ensures { IfOk result (λ rules. rules.items ≡ map rule_of firings.now) }
{
    let mut rules = Vec::new(alloc);
    for fired in firings {
        rules.push(rule_of(fired))?;
    }
    Ok(rules)
}

fn counted_rules<L: Ledger>(
    alloc: Global,
    plan: &Plan,
    index: u32,
    limits: Limits,
    messages: &[Message],
    blank: Blank,
) -> Result<Vec<Option<u32>>, NoMemory>
    requires name { blank.name ≡ L.name }
    requires parts { blank.parts ≡ L.parts }
    requires some { 0 < L.parts }
    requires typed { IsTyped plan.now }
    requires exists { index < length plan.now.actors }
    requires limits { AreLimits limits }
    ensures fired { IfOk result (λ rules. rules.items ≡ rules_fired plan.now index limits messages.now) }
{
    let mut steps = Steps::<L>::new(blank);
    let mut actor = Actor::new(alloc, plan, index, limits, 1)?;
    feed_all(alloc, &mut actor, messages, &mut steps)?;
    let rules = rules_of(alloc, actor.firings())?;
    Ok(rules)
}

/// Gives the actor of the plan with this index these messages, in order. The answer has for each message that the actor
/// recorded the number of the rule that it fired, from 1, or none.
pub fn rules_fired(
    alloc: Global,
    plan: &Plan,
    index: u32,
    limits: Limits,
    messages: &[Message],
) -> Result<Vec<Option<u32>>, NoMemory>
    requires typed { IsTyped plan.now }
    requires exists { index < length plan.now.actors }
    requires limits { AreLimits limits }
    ensures fired { IfOk result (λ rules. rules.items ≡ rules_fired plan.now index limits messages.now) }
{
    counted_rules::<Brand>(alloc, plan, index, limits, messages, Blank::new(1))
}
