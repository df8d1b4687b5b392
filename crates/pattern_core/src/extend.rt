//! Whether a message may stand at a pattern, and whether an assignment is a match.
ghost use Rattle.std.specs.Prelude.{◌≡◌, ◌+◌, ◌&&◌, Some, None, true, false, length, slice_get, slice_set, slice_index};
ghost use Rattle.guard_eval.specs.Meaning.{recorded_message};
ghost use Rattle.pattern_core.specs.Matches.{is_of_kind, holds_number, is_agreeable, is_complete_match, is_full, makes_all_true};
ghost use Rattle.pattern_core.specs.Suits.{DefinitionSuits, IsRecorded, SlotsSuit};

use crate::definition::Definition;
use guard_eval::{decided, holds};
use join_base::{Message, Slots, Steps, recorded_message};
use std::sync::ledger::Ledger;

/// Whether a recorded message has the kind.
pub fn has_kind(messages: &[Message], number: u32, kind: u32) -> bool
    requires { IsRecorded messages.now number }
    ensures { result ≡ is_of_kind (recorded_message messages.now number) kind }
{
    recorded_message(messages, number).kind == kind
}

/// Whether every decided conjunct is true.
pub fn agrees(definition: &Definition, slots: &Slots, messages: &[Message]) -> bool
    requires definition { DefinitionSuits messages.now definition.now }
    requires suits { SlotsSuit messages.now definition.now.patterns slots.now }
    ensures { result ≡ is_agreeable messages.now definition.now.conjuncts slots.now }
{
    for conjunct in definition.conjuncts.as_slice() {
        if decided(conjunct, slots) && !holds(conjunct, slots, messages) {
            return false;
        }
    }
    true
}

/// Whether the message may stand at the pattern beside the others: it has the kind, and every conjunct that is then
/// decided is true. It counts one step.
pub fn try_extend<L: Ledger>(
    definition: &Definition,
    slots: &Slots,
    pattern: u32,
    number: u32,
    messages: &[Message],
    steps: &mut Steps<L>,
) -> bool
    requires definition { DefinitionSuits messages.now definition.now }
    requires suits { SlotsSuit messages.now definition.now.patterns slots.now }
    requires agreeable { is_agreeable messages.now definition.now.conjuncts slots.now ≡ true }
    requires empty { slice_get slots.now pattern ≡ Some None }
    requires recorded { IsRecorded messages.now number }
    requires apart { holds_number slots.now number ≡ false }

    ensures counted { steps.new ≡ steps.old + 1 }
    ensures answer { result ≡ (is_of_kind (recorded_message messages.now number) (slice_index definition.now.patterns
        pattern) && is_agreeable messages.now definition.now.conjuncts (slice_set slots.now pattern (Some number))) }
{
    steps.tick();
    if !has_kind(messages, number, *definition.patterns.at(pattern as usize)) {
        return false;
    }
    agrees(definition, &slots.with(pattern, number), messages)
}

/// Whether no pattern is empty.
pub fn is_full(patterns: u32, slots: &Slots) -> bool
    requires { length slots.now ≡ patterns }
    ensures { result ≡ is_full slots.now }
{
    for pattern in 0..patterns {
        if slots.get(pattern).is_none() {
            return false;
        }
    }
    true
}

// Whether every conjunct is true where no pattern is empty.
fn all_hold(definition: &Definition, slots: &Slots, messages: &[Message]) -> bool
    requires definition { DefinitionSuits messages.now definition.now }
    requires suits { SlotsSuit messages.now definition.now.patterns slots.now }
    requires full { is_full slots.now ≡ true }
    ensures { result ≡ makes_all_true messages.now definition.now.conjuncts slots.now }
{
    for conjunct in definition.conjuncts.as_slice() {
        if !holds(conjunct, slots, messages) {
            return false;
        }
    }
    true
}

/// Whether the assignment is a complete match: no pattern is empty, and every conjunct is true, those without a
/// variable too.
pub fn complete(definition: &Definition, slots: &Slots, messages: &[Message]) -> bool
    requires definition { DefinitionSuits messages.now definition.now }
    requires suits { SlotsSuit messages.now definition.now.patterns slots.now }
    requires agreeable { is_agreeable messages.now definition.now.conjuncts slots.now ≡ true }

    ensures { result ≡ is_complete_match messages.now definition.now slots.now }
{
    is_full(definition.patterns.len() as u32, slots) && all_hold(definition, slots, messages)
}
