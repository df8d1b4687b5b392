//! Which arrivals are reactions.
ghost use Rattle.std.specs.Prelude.{◌≡◌};
ghost use Rattle.fair_semantics.specs.Linked.{firing_effects};
ghost use Rattle.feed_causes.specs.Reactions.{any_shown, is_of, is_shown, is_wanted};

use crate::arrivals::Arrival;
use fair_semantics::{Effect, Entry};

fn is_shown(effect: &Effect) -> bool
    ensures { result ≡ is_shown effect.now }
{
    match effect {
        Effect::Print(_) => true,
        Effect::Post { .. } => true,
        Effect::Reply { .. } => false,
    }
}

fn any_shown(effects: &[Effect]) -> bool
    ensures { result ≡ any_shown effects.now }
{
    for effect in effects {
        if is_shown(effect) {
            return true;
        }
    }
    false
}

fn reacts(entry: &Entry) -> bool
    ensures { result ≡ any_shown (firing_effects entry.now.firing) }
{
    match entry.firing.get() {
        Some(firing) => any_shown(firing.effects.as_slice()),
        None => false,
    }
}

fn is_of(only: Option<u32>, actor: u32) -> bool
    ensures { result ≡ is_of only actor }
{
    match only {
        Some(only) => actor == only,
        None => true,
    }
}

/// Whether an arrival is of this actor, or one is not named, and its firing printed or posted something.
pub(crate) fn is_wanted(only: Option<u32>, arrival: &Arrival) -> bool
    ensures { result ≡ is_wanted only arrival.now }
{
    is_of(only, arrival.actor()) && reacts(arrival.entry())
}
