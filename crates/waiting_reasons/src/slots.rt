//! What an assignment has at its patterns.
ghost use Rattle.std.specs.Prelude.{◌≡◌, ◌<◌, ◌≤◌, None, Some, false, length, slice_get};
ghost use Rattle.guard_eval.specs.Meaning.{is_slot_filled, number_at};
ghost use Rattle.pattern_core.specs.Matches.{holds_number, slot_is};
ghost use Rattle.waiting_reasons.specs.Ways.{filled_count, slot_count};

use join_base::Slots;

fn slot_is(number: u32, slot: Option<u32>) -> bool
    ensures { result ≡ slot_is number slot }
{
    match slot {
        None => false,
        Some(other) => number == other,
    }
}

/// Whether the assignment, of so many patterns, has the number.
pub fn has_number(patterns: u32, slots: &Slots, number: u32) -> bool
    requires { length slots.now ≡ patterns }
    ensures { result ≡ holds_number slots.now number }
{
    for pattern in 0..patterns {
        if slot_is(number, slots.get(pattern)) {
            return true;
        }
    }
    false
}

/// Whether the pattern has a number.
pub fn is_filled(slots: &Slots, place: u32) -> bool
    requires { place < length slots.now }
    ensures filled { result ≡ is_slot_filled (number_at slots.now place) }
    ensures empty { result ≡ false → slice_get slots.now place ≡ Some None }
{
    match slots.get(place) {
        Some(_) => true,
        None => false,
    }
}

fn slot_count(slot: Option<u32>) -> u32
    ensures count { result ≡ slot_count slot }
    ensures small { result ≤ 1 }
{
    match slot {
        None => 0,
        Some(_) => 1,
    }
}

/// How many patterns of the assignment, which has so many, have a number.
pub fn filled_count(patterns: u32, slots: &Slots) -> u32
    requires { length slots.now ≡ patterns }
    ensures { result ≡ filled_count slots.now }
{
    let mut count = 0;
    for pattern in 0..patterns {
        count += slot_count(slots.get(pattern));
    }
    count
}

/// The number at a pattern, if the assignment, of so many patterns, has one there.
#[tactic(auto, using(crate::proofs::SlotLemmas::number_there, crate::proofs::SlotLemmas::number_beyond))]
pub fn number_at(patterns: u32, slots: &Slots, pattern: u32) -> Option<u32>
    requires { length slots.now ≡ patterns }
    ensures { result ≡ number_at slots.now pattern }
{
    if pattern >= patterns {
        return None;
    }
    slots.get(pattern)
}
