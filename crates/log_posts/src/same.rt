//! Whether messages are equal, and entries but for their stamps.
ghost use Rattle.std.specs.Prelude.{◌≡◌, Bool};
ghost use Rattle.std.specs.Cmp.Lexicographic.{pointwise};
ghost use Rattle.join_base.specs.Fields.{value_seen};
ghost use Rattle.fair_semantics.specs.Linked.{same_source};
ghost use Rattle.log_posts.specs.Same.{same_effect, same_entries, same_entry, same_fired, same_firing, same_message, same_value};

use fair_semantics::{Effect, Entry, Fired, Firing};
use join_base::{Fields, Message, Source, ValueRef};

// What lists of it are compared by.
trait Same {
    ghost same: { Self → Self → Bool };

    fn same(&self, other: &Self) -> bool
        ensures { result ≡ same self.now other.now };
}

// Whether the lists are as long, and each item is the same as the one at its place.
#[tactic(auto, using(crate::proofs::SameLemmas::lengths_apart))]
fn same_list<T: Same>(own: &[T], other: &[T]) -> bool
    ensures { result ≡ pointwise T.same own.now other.now }
{
    if own.len() != other.len() {
        return false;
    }
    for (place, item) in own.iter().enumerate() {
        if !item.same(&other[place]) {
            return false;
        }
    }
    true
}

pub(crate) fn same_source(source: Source, other: Source) -> bool
    ensures { result ≡ same_source source other }
{
    source == other
}

fn same_value(own: ValueRef<'_>, other: ValueRef<'_>) -> bool
    ensures { result ≡ same_value (value_seen own.entry) (value_seen other.entry) }
{
    match (own, other) {
        (ValueRef::Int(number), ValueRef::Int(second)) => number == second,
        (ValueRef::Words(text), ValueRef::Words(second)) => text.bytes() == second.bytes(),
        _ => false,
    }
}

#[tactic(auto, using(crate::proofs::SameLemmas::lengths_apart))]
fn same_fields(own: &Fields, other: &Fields) -> bool
    ensures { result ≡ pointwise same_value own.now other.now }
{
    if own.len() != other.len() {
        return false;
    }
    for place in 0..own.len() {
        if !same_value(own.at(place), other.at(place)) {
            return false;
        }
    }
    true
}

/// Whether the messages have one kind, and the same values.
pub fn same_message(own: &Message, other: &Message) -> bool
    ensures { result ≡ same_message own.now other.now }
{
    own.kind == other.kind && same_fields(&own.fields, &other.fields)
}

impl Same for Effect {
    ghost same = { same_effect };

    fn same(&self, other: &Effect) -> bool {
        match (self, other) {
            (Effect::Print(text), Effect::Print(second)) => text.bytes() == second.bytes(),
            (
                Effect::Post { target, message },
                Effect::Post {
                    target: second,
                    message: sent,
                },
            ) => *target == *second && same_message(message, sent),
            (
                Effect::Reply { number, value },
                Effect::Reply {
                    number: second,
                    value: given,
                },
            ) => *number == *second && same_value(value.seen(), given.seen()),
            _ => false,
        }
    }
}

fn same_firing(own: &Firing, other: &Firing) -> bool
    ensures { result ≡ same_firing own.now other.now }
{
    own.rule == other.rule
        && own.taken.as_slice() == other.taken.as_slice()
        && same_list(own.effects.as_slice(), other.effects.as_slice())
}

/// Whether two firings are equal: their rules, what they took, and their effects in order. So are two of none.
pub fn same_fired(own: &Fired, other: &Fired) -> bool
    ensures { result ≡ same_fired own.now other.now }
{
    match (own.get(), other.get()) {
        (None, None) => true,
        (Some(firing), Some(second)) => same_firing(firing, second),
        _ => false,
    }
}

impl Same for Entry {
    ghost same = { same_entry };

    fn same(&self, other: &Entry) -> bool {
        self.number == other.number
            && same_source(self.source, other.source)
            && same_message(&self.message, &other.message)
            && same_fired(&self.firing, &other.firing)
    }
}

/// Whether the entries are equal but for their stamps: as many, and each with the number, the source, the message and
/// the firing of the one at its place.
pub fn same_entries(own: &[Entry], other: &[Entry]) -> bool
    ensures { result ≡ same_entries own.now other.now }
{
    same_list(own, other)
}
