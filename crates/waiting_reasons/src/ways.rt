//! The agreeable assignments that have a message.
ghost use Rattle.std.specs.Prelude.{◌≡◌, ◌++◌, ◌<◌, ◌≤◌, None, Some, IfOk, OnOk, length, true, slice_get};
ghost use Rattle.std.specs.List.{AllByRecursion};
ghost use Rattle.pattern_core.specs.Suits.{DefinitionSuits, SlotsSuit};
ghost use Rattle.waiting_reasons.specs.Ways.{alone_at, grown, longer, longer_at, may_stand, no_numbers, ways};

use crate::guards::agrees;
use crate::messages::is_of_kind;
use crate::slots::{has_number, is_filled};
use join_base::{Items, Message, NoMemory, Slots};
use pattern_core::Definition;
use std::alloc::Global;

// Whether the number may stand at the pattern beside the others.
fn may_stand(
    definition: &Definition,
    messages: &[Message],
    slots: &Slots,
    place: u32,
    number: u32,
) -> bool
    requires definition { DefinitionSuits messages.now definition.now }
    requires suits { SlotsSuit messages.now definition.now.patterns slots.now }
    requires within { place < length definition.now.patterns }
    ensures answer { result ≡ may_stand messages.now definition.now slots.now place number }
    ensures empty { result ≡ true → slice_get slots.now place ≡ Some None }
{
    if !is_of_kind(messages, number, *definition.patterns.at(place as usize)) {
        return false;
    }
    if is_filled(slots, place) {
        return false;
    }
    if has_number(definition.patterns.len() as u32, slots, number) {
        return false;
    }
    agrees(definition, &slots.with(place, number), messages)
}

// Appends the assignment that has the number at the pattern too, where it may stand there.
fn push_longer(
    found: &mut Items<Slots>,
    definition: &Definition,
    messages: &[Message],
    slots: &Slots,
    place: u32,
    number: u32,
) -> Result<(), NoMemory>
    requires definition { DefinitionSuits messages.now definition.now }
    requires suits { SlotsSuit messages.now definition.now.patterns slots.now }
    requires within { place < length definition.now.patterns }
    ensures { OnOk result (found.new ≡ found.old ++ longer messages.now definition.now slots.now place number) }
{
    if !may_stand(definition, messages, slots, place, number) {
        return Ok(());
    }
    found.push(slots.with(place, number))
}

// Appends the assignments that have one of the numbers at the pattern too.
fn push_longer_at(
    found: &mut Items<Slots>,
    definition: &Definition,
    messages: &[Message],
    seen: &[u32],
    place: u32,
    slots: &Slots,
) -> Result<(), NoMemory>
    requires definition { DefinitionSuits messages.now definition.now }
    requires suits { SlotsSuit messages.now definition.now.patterns slots.now }
    requires within { place < length definition.now.patterns }
    ensures { OnOk result (found.new ≡ found.old ++ longer_at messages.now definition.now seen.now place slots.now) }
{
    for number in seen {
        push_longer(found, definition, messages, slots, place, *number)?;
    }
    Ok(())
}

// One list behind the other.
fn append(front: Items<Slots>, back: Items<Slots>) -> Result<Items<Slots>, NoMemory>
    ensures { IfOk result (λ all. all ≡ front ++ back) }
{
    let mut all = front;
    let mut rest = back.into_vec();
    rest.reverse();
    while let Some(slots) = rest.pop() {
        all.push(slots)?;
    }
    Ok(all)
}

// The assignments, and those that have one of the numbers at the pattern too.
fn grow(
    alloc: Global,
    definition: &Definition,
    messages: &[Message],
    seen: &[u32],
    place: u32,
    ways: Items<Slots>,
) -> Result<Items<Slots>, NoMemory>
    requires definition { DefinitionSuits messages.now definition.now }
    requires all { AllByRecursion (SlotsSuit messages.now definition.now.patterns) ways }
    requires within { place < length definition.now.patterns }
    ensures grown { IfOk result (λ w. w ≡ grown messages.now definition.now seen.now place ways) }
{
    let mut more = Items::new(alloc);
    for slots in ways.as_slice() {
        push_longer_at(&mut more, definition, messages, seen, place, slots)?;
    }
    append(ways, more)
}

/// The assignment of a definition that has no number.
pub fn no_numbers(definition: &Definition) -> Slots
    requires some { 1 ≤ length definition.now.patterns }
    requires few { length definition.now.patterns ≤ 8 }
    ensures { result ≡ no_numbers definition.now }
{
    Slots::new(definition.patterns.len() as u32)
}

// The number alone, at each pattern at which it may stand.
fn alone(
    alloc: Global,
    definition: &Definition,
    messages: &[Message],
    none: &Slots,
    number: u32,
) -> Result<Items<Slots>, NoMemory>
    requires definition { DefinitionSuits messages.now definition.now }
    requires none { none.now ≡ no_numbers definition.now }
    ensures alone { IfOk result (λ w. w ≡ alone_at messages.now definition.now number 0 definition.now.patterns) }
{
    let mut found = Items::new(alloc);
    for place in 0..definition.patterns.len() {
        push_longer(&mut found, definition, messages, none, place as u32, number)?;
    }
    Ok(found)
}

/// All agreeable assignments of numbers that are seen, with this one among them.
pub fn ways_of(
    alloc: Global,
    definition: &Definition,
    messages: &[Message],
    seen: &[u32],
    number: u32,
) -> Result<Items<Slots>, NoMemory>
    requires definition { DefinitionSuits messages.now definition.now }
    ensures ways { IfOk result (λ w. w ≡ ways messages.now definition.now seen.now number) }
    ensures all { IfOk result (AllByRecursion (SlotsSuit messages.now definition.now.patterns)) }
{
    let mut ways = alone(alloc, definition, messages, &no_numbers(definition), number)?;
    for place in 0..definition.patterns.len() {
        let longer = grow(alloc, definition, messages, seen, place as u32, ways)?;
        ways = longer;
    }
    Ok(ways)
}
