//! Whether a message fits the kinds of a plan.
ghost use Rattle.std.specs.Prelude.{◌≡◌, ◌<◌};
ghost use Rattle.join_base.specs.Fields.{value_seen};
ghost use Rattle.guard_eval.specs.Meaning.{is_of_sort};
ghost use Rattle.fair_semantics.specs.Step.{are_of_sorts, fits};

use join_base::{Fields, Items, Message, Sort, ValueRef};

// Whether the value is of the type.
fn is_of_sort(sort: Sort, value: ValueRef<'_>) -> bool
    ensures { result ≡ is_of_sort sort (value_seen value.entry) }
{
    match (sort, value) {
        (Sort::Int, ValueRef::Int(_)) => true,
        (Sort::Int, ValueRef::Words(_)) => false,
        (Sort::Words, ValueRef::Int(_)) => false,
        (Sort::Words, ValueRef::Words(_)) => true,
    }
}

// Whether the values are as many as the types, and each of the type at its place.
fn are_of_sorts(sorts: &[Sort], values: &Fields) -> bool
    ensures { result ≡ are_of_sorts sorts.now values.now }
{
    if sorts.len() != values.len() {
        return false;
    }
    for place in 0..sorts.len() {
        if !is_of_sort(sorts[place], values.at(place)) {
            return false;
        }
    }
    true
}

/// Whether the kind of the message exists, and its fields are as many and of the types that the kind has.
pub fn fits(sorts: &Items<Items<Sort>>, message: &Message) -> bool
    ensures { result ≡ fits sorts.now message.now }
{
    let kind = message.kind as usize;
    if kind >= sorts.len() {
        return false;
    }
    are_of_sorts(sorts.at(kind).as_slice(), &message.fields)
}
