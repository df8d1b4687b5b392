//! Conjuncts that are false at an assignment.
ghost use Rattle.std.specs.Prelude.{◌≡◌, None, Some, MatchOption, true};
ghost use Rattle.guard_eval.specs.Shape.{conjunct_condition};
ghost use Rattle.pattern_core.specs.Matches.{is_agreeable, is_full};
ghost use Rattle.pattern_core.specs.Suits.{DefinitionSuits, SlotsSuit};
ghost use Rattle.waiting_reasons.specs.Guards.{first_false, first_untrue};

use guard_eval::{Conjunct, decided, holds};
use join_base::{Message, Slots};
use pattern_core::Definition;

/// The first conjunct that is decided and false.
pub fn first_false<'a>(
    definition: &'a Definition,
    slots: &Slots,
    messages: &[Message],
) -> Option<&'a Conjunct>
    requires definition { DefinitionSuits messages.now definition.now }
    requires suits { SlotsSuit messages.now definition.now.patterns slots.now }
    ensures { MatchOption result (first_false messages.now slots.now definition.now.conjuncts ≡ None)
        (λ c. first_false messages.now slots.now definition.now.conjuncts ≡ Some (conjunct_condition c.now)) }
{
    for conjunct in definition.conjuncts.as_slice() {
        if decided(conjunct, slots) && !holds(conjunct, slots, messages) {
            return Some(conjunct);
        }
    }
    None
}

/// Whether every decided conjunct is true.
#[tactic(auto, using(crate::proofs::GuardLemmas::none_is_agreeable, crate::proofs::GuardLemmas::some_is_not))]
pub fn agrees(definition: &Definition, slots: &Slots, messages: &[Message]) -> bool
    requires definition { DefinitionSuits messages.now definition.now }
    requires suits { SlotsSuit messages.now definition.now.patterns slots.now }
    ensures { result ≡ is_agreeable messages.now definition.now.conjuncts slots.now }
{
    match first_false(definition, slots, messages) {
        Some(_) => false,
        None => true,
    }
}

/// The first conjunct that is not true, where no pattern is empty.
pub fn first_untrue<'a>(
    definition: &'a Definition,
    slots: &Slots,
    messages: &[Message],
) -> Option<&'a Conjunct>
    requires definition { DefinitionSuits messages.now definition.now }
    requires suits { SlotsSuit messages.now definition.now.patterns slots.now }
    requires full { is_full slots.now ≡ true }
    ensures { MatchOption result (first_untrue messages.now slots.now definition.now.conjuncts ≡ None)
        (λ c. first_untrue messages.now slots.now definition.now.conjuncts ≡ Some (conjunct_condition c.now)) }
{
    for conjunct in definition.conjuncts.as_slice() {
        if !holds(conjunct, slots, messages) {
            return Some(conjunct);
        }
    }
    None
}
