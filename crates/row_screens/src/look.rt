//! Looking the numbers of a row up by the values that they have to have, where the index knows the field.
ghost use Rattle.std.specs.Prelude.{◌≡◌, ◌+◌, ◌≤◌, ◌<◌, ◌∷◌, ◌&&◌, [], ℕ, length, map, slice_get, slice_index, Some, None, true, false, nat_le, not, ◌==◌, IfSome};
ghost use Rattle.std.specs.List.{filter};
ghost use Rattle.std.specs.Ordering.{int_eq};
ghost use Rattle.pattern_core.specs.Members.{IsIn};
ghost use Rattle.value_index.specs.Index.{entry};
ghost use Rattle.value_index.specs.ValueRange.{Ascend};
ghost use Rattle.row_screens.specs.Offers.{takers};
ghost use Rattle.row_screens.specs.Offering.{CanOffer, offered};
ghost use Rattle.tree_rows.specs.Order.{Rise};
ghost use Rattle.tree_rows.specs.RowNumbers.{numbers_in};
ghost use Rattle.tree_rows.specs.Rows.{node_at};
ghost use Rattle.row_screens.specs.Look.{FindsAt, HasLeft, LooksUp, LooksUpAt, may_meet};
ghost use Rattle.tree_rows.specs.Routes.{with_number};
ghost use Rattle.row_screens.specs.Screen.{AreAsked, AreOffered, AreTests, AreWorthless, IsWorthless, Screens};

use crate::offer::Offer;
use crate::range::by_range;
use crate::screen::{Screen, passes_screen, screen_of};
use guard_bound::{is_same, meets_all};
use join_base::{Numbers, Slots, Steps};
use std::sync::ledger::Ledger;
use tiered_vec::TieredVec;
use tree_rows::{Row, RowNumbers};
use value_index::{IndexedField, ValueIndex, ValueRange, value_at};

/// The place of a field in the index, and the one value that a number of the row has to have there.
#[derive(Clone, Copy, PartialEq, Eq, Debug)]
pub struct Look {
    pub place: u32,
    pub value: i64,
}

/// A row of fewer numbers is gone through.
pub const FEWEST: usize = 8;

// The look-up by the screen's key.
fn by_key(
    offer: &Offer<'_>,
    slots: &Slots,
    pattern: u32,
    kind: u32,
    screen: &Screen,
) -> Option<Look>
    requires kind { slice_get offer.now.definition.now.patterns pattern ≡ Some kind }
    requires tested { AreTests (offered offer.now) (with_number (with_number slots.now pattern offer.now.number)
        screen.now.other offer.now.number) pattern screen.now }
    ensures { IfSome result (LooksUpAt (offered offer.now) slots.now pattern screen.now.other) }
{
    let key = screen.key?;
    let place = offer.index.place_of(IndexedField {
        kind,
        field: key.field,
        words: false,
    })?;
    Some(Look {
        place,
        value: key.value,
    })
}

// The look-up by the text that has to be the offered number's.
fn by_text(
    offer: &Offer<'_>,
    slots: &Slots,
    pattern: u32,
    kind: u32,
    screen: &Screen,
) -> Option<Look>
    requires kind { slice_get offer.now.definition.now.patterns pattern ≡ Some kind }
    requires tested { AreTests (offered offer.now) (with_number (with_number slots.now pattern offer.now.number)
        screen.now.other offer.now.number) pattern screen.now }
    ensures { IfSome result (LooksUpAt (offered offer.now) slots.now pattern screen.now.other) }
{
    let same = screen.same?;
    let place = offer.index.place_of(IndexedField {
        kind,
        field: same.field,
        words: true,
    })?;
    let other = IndexedField {
        kind,
        field: same.other,
        words: true,
    };
    Some(Look {
        place,
        value: value_at(offer.messages, offer.number, other),
    })
}

// The kind of a pattern, where the definition has it.
fn kind_of(offer: &Offer<'_>, pattern: u32) -> Option<u32>
    ensures { IfSome result (λ kind. slice_get offer.now.definition.now.patterns pattern ≡ Some kind) }
{
    let patterns = offer.definition.patterns.as_slice();
    if pattern as usize >= patterns.len() {
        return None;
    }
    Some(*offer.definition.patterns.at(pattern as usize))
}

// The look-up by a screen: by its key, or by its text, where the index knows that field.
fn look_by(
    offer: &Offer<'_>,
    slots: &Slots,
    pattern: u32,
    kind: u32,
    screen: &Screen,
) -> Option<Look>
    requires kind { slice_get offer.now.definition.now.patterns pattern ≡ Some kind }
    requires tested { AreTests (offered offer.now) (with_number (with_number slots.now pattern offer.now.number)
        screen.now.other offer.now.number) pattern screen.now }
    ensures { IfSome result (LooksUpAt (offered offer.now) slots.now pattern screen.now.other) }
{
    if let Some(look) = by_key(offer, slots, pattern, kind, screen) {
        return Some(look);
    }
    by_text(offer, slots, pattern, kind, screen)
}

// The screen of a row with so many numbers for one of several wanted patterns.
fn screen_at(
    offer: &Offer<'_>,
    slots: &Slots,
    pattern: u32,
    other: u32,
    numbers: usize,
) -> Option<Screen>
    requires can { CanOffer (offered offer.now) slots.now }
    ensures { IfSome result (Screens (offered offer.now) slots.now pattern (other ∷ [])) }
{
    let mut one = Numbers::new();
    one.push(other);
    screen_of(offer, slots, pattern, &one, numbers)
}

// The look-up for one of several wanted patterns of a row with so many numbers.
fn look_at(
    offer: &Offer<'_>,
    slots: &Slots,
    pattern: u32,
    other: u32,
    numbers: usize,
) -> Option<Look>
    requires can { CanOffer (offered offer.now) slots.now }
    ensures { IfSome result (LooksUpAt (offered offer.now) slots.now pattern other) }
{
    let screen = screen_at(offer, slots, pattern, other, numbers)?;
    let kind = kind_of(offer, pattern)?;
    look_by(offer, slots, pattern, kind, &screen)
}

// Whether two look-ups are one.
fn is_one(left: Look, right: Look) -> bool
    ensures { result ≡ ((left.place == right.place) && int_eq left.value right.value) }
{
    left.place == right.place && left.value == right.value
}

// Whether the look-up is that of the wanted pattern.
fn is_looked(
    offer: &Offer<'_>,
    slots: &Slots,
    pattern: u32,
    other: u32,
    look: Look,
    numbers: usize,
) -> bool
    requires can { CanOffer (offered offer.now) slots.now }
    ensures { result ≡ true → LooksUpAt (offered offer.now) slots.now pattern other look }
{
    match look_at(offer, slots, pattern, other, numbers) {
        None => false,
        Some(known) => is_one(known, look),
    }
}

// The look-up for the first of several wanted patterns.
fn first_look(
    offer: &Offer<'_>,
    slots: &Slots,
    pattern: u32,
    wanted: &Numbers,
    numbers: usize,
) -> Option<Look>
    requires can { CanOffer (offered offer.now) slots.now }
{
    if wanted.len() < 2 {
        return None;
    }
    look_at(offer, slots, pattern, wanted.at(0), numbers)
}

// The look-up of a row where several patterns are wanted, if it is one for all of them.
fn common_look(
    offer: &Offer<'_>,
    slots: &Slots,
    pattern: u32,
    wanted: &Numbers,
    numbers: usize,
) -> Option<Look>
    requires can { CanOffer (offered offer.now) slots.now }
    requires wanted { wanted.now ≡ filter (λ p. not (p == pattern)) (takers (offered offer.now) slots.now) }
    ensures { IfSome result (LooksUp (offered offer.now) slots.now pattern) }
{
    let look = first_look(offer, slots, pattern, wanted, numbers)?;
    for other in wanted.as_slice() {
        if !is_looked(offer, slots, pattern, *other, look, numbers) {
            return None;
        }
    }
    Some(look)
}

// The numbers of the index from this one on that have the value.
fn numbers_at<'a>(index: &'a ValueIndex, look: Look, from: u32) -> ValueRange<'a>
    ensures ascend { Ascend result }
    ensures has { (number : ℕ) → from ≤ number → IsIn (entry look.place look.value number) index.now.entries
        → IsIn number result }
{
    index.numbers_from(look.place, look.value, from)
}

// The numbers of the index from this one on by a screen. A range of values is looked up first: it has few numbers,
// while one value may have any number of them.
fn found_by<'a>(
    offer: &Offer<'a>,
    slots: &Slots,
    pattern: u32,
    screen: &Screen,
    from: u32,
) -> Option<ValueRange<'a>>
    requires tested { AreTests (offered offer.now) (with_number (with_number slots.now pattern offer.now.number)
        screen.now.other offer.now.number) pattern screen.now }
    ensures { IfSome result (FindsAt (offered offer.now) slots.now pattern screen.now.other from) }
{
    let kind = kind_of(offer, pattern)?;
    if let Some(numbers) = by_range(offer, slots, pattern, kind, screen) {
        return Some(numbers);
    }
    let look = look_by(offer, slots, pattern, kind, screen)?;
    Some(numbers_at(offer.index, look, from))
}

/// The numbers of the index by which a row with so many is looked up for one of several wanted patterns, if it is.
pub fn found_at<'a>(
    offer: &Offer<'a>,
    slots: &Slots,
    pattern: u32,
    other: u32,
    numbers: usize,
) -> Option<ValueRange<'a>>
    requires can { CanOffer (offered offer.now) slots.now }
    ensures { IfSome result (FindsAt (offered offer.now) slots.now pattern other 0) }
{
    let screen = screen_at(offer, slots, pattern, other, numbers)?;
    found_by(offer, slots, pattern, &screen, 0)
}

/// The numbers of the index by which a row is looked up, if it is: those of the range of values that the bounds of its
/// screen leave a field, or else of the value that the key of its screen asks for, or its text, where the index knows
/// that field. Where several patterns are wanted, each of them has to ask for the same value. A row of fewer than 8
/// numbers is gone through.
pub fn looked_up<'a>(
    offer: &Offer<'a>,
    slots: &Slots,
    pattern: u32,
    wanted: &Numbers,
    screen: &Option<Screen>,
    row: &Row,
) -> Option<ValueRange<'a>>
    requires can { CanOffer (offered offer.now) slots.now }
    requires wanted { wanted.now ≡ filter (λ p. not (p == pattern)) (takers (offered offer.now) slots.now) }
    requires screen { IfSome screen.now (Screens (offered offer.now) slots.now pattern (filter (λ p. not (p == pattern))
        (takers (offered offer.now) slots.now))) }
    requires rise { Rise (map (λ node. node.number) row.now) }
    requires offered { AreOffered (offered offer.now) slots.now pattern row.now 0 }
    ensures { IfSome result (HasLeft (offered offer.now) slots.now pattern row.now 0) }
{
    let numbers = row.len();
    if numbers < FEWEST {
        return None;
    }
    let first = row.number_at(0);
    match screen {
        None => {
            let look = common_look(offer, slots, pattern, wanted, numbers)?;
            Some(numbers_at(offer.index, look, first))
        }
        Some(screen) => found_by(offer, slots, pattern, screen, first),
    }
}

// The first place from this one on whose number is at least so great, by halves.
fn place_by_halves(numbers: &RowNumbers<'_>, from: usize, number: u32) -> usize
    requires rise { Rise (numbers_in numbers.now) }
    requires within { from ≤ length (numbers_in numbers.now) }
    ensures from { from ≤ result }
    ensures within { result ≤ length (numbers_in numbers.now) }
    ensures less { (i : ℕ) → from ≤ i → i < result → slice_index (numbers_in numbers.now) i < number }
    ensures reached { result < length (numbers_in numbers.now) → number ≤ slice_index (numbers_in numbers.now) result }
{
    let mut low = from;
    let mut high = numbers.len();
    while low < high {
        let middle = low + (high - low) / 2;
        if numbers.at(middle) < number {
            low = middle + 1;
        } else {
            high = middle;
        }
    }
    low
}

// The same in tiers.
fn place_in_tiers(leaves: &TieredVec, from: usize, number: u32) -> usize
    requires rise { Rise leaves.now }
    requires within { from ≤ length leaves.now }
    ensures from { from ≤ result }
    ensures within { result ≤ length leaves.now }
    ensures less { (i : ℕ) → from ≤ i → i < result → slice_index leaves.now i < number }
    ensures reached { result < length leaves.now → number ≤ slice_index leaves.now result }
{
    let place = leaves.first_from(number);
    if place < from {
        return from;
    }
    place
}

// The same in a row of any form.
fn place_from(numbers: &RowNumbers<'_>, from: usize, number: u32) -> usize
    requires rise { Rise (numbers_in numbers.now) }
    requires within { from ≤ length (numbers_in numbers.now) }
    ensures from { from ≤ result }
    ensures within { result ≤ length (numbers_in numbers.now) }
    ensures less { (i : ℕ) → from ≤ i → i < result → slice_index (numbers_in numbers.now) i < number }
    ensures reached { result < length (numbers_in numbers.now) → number ≤ slice_index (numbers_in numbers.now) result }
{
    match numbers {
        RowNumbers::Leaves(_, _) => place_by_halves(numbers, from, number),
        RowNumbers::Many(leaves) => place_in_tiers(leaves, from, number),
        RowNumbers::Nodes(_) => place_by_halves(numbers, from, number),
    }
}

// The same in a row. Where few values wait, it is often the place itself.
fn place_in(row: &Row, from: usize, number: u32) -> usize
    requires rise { Rise (map (λ node. node.number) row.now) }
    requires within { from ≤ length row.now }
    ensures from { from ≤ result }
    ensures within { result ≤ length row.now }
    ensures less { (i : ℕ) → from ≤ i → i < result → (node_at row.now i).number < number }
    ensures reached { result < length row.now → number ≤ (node_at row.now result).number }
{
    if from >= row.len() {
        return from;
    }
    if number <= row.number_at(from) {
        return from;
    }
    let numbers = RowNumbers::of(row);
    place_from(&numbers, from, number)
}

// Whether a number passes the bounds and the text of the screen.
fn may_meet(offer: &Offer<'_>, screen: &Option<Screen>, number: u32) -> bool
    ensures { result ≡ may_meet (offered offer.now) screen.now number }
{
    match screen {
        None => true,
        Some(screen) => {
            meets_all(offer.messages, &screen.bounds, number)
                && is_same(offer.messages, offer.number, screen.same, number)
        }
    }
}

// Whether a number fails the bounds or the text, where fewer numbers were looked at than places were passed. Then it is
// passed over without a search for its place, and counts a step.
fn fails_early<L: Ledger>(
    offer: &Offer<'_>,
    screen: &Option<Screen>,
    number: u32,
    looked: usize,
    place: usize,
    steps: &mut Steps<L>,
) -> bool
    ensures spare { result ≡ true → looked < place }
    ensures fails { result ≡ true → may_meet (offered offer.now) screen.now number ≡ false }
    ensures counted { result ≡ true → steps.new ≡ steps.old + 1 }
    ensures uncounted { result ≡ false → steps.new ≡ steps.old }
{
    if looked >= place {
        return false;
    }
    if may_meet(offer, screen, number) {
        return false;
    }
    steps.tick();
    true
}

// Whether a number of the row is worth a visit. One that isn't was looked at, and counts a step.
fn looks_worth<L: Ledger>(
    offer: &Offer<'_>,
    slots: &Slots,
    pattern: u32,
    screen: &Option<Screen>,
    number: u32,
    steps: &mut Steps<L>,
) -> bool
    requires can { CanOffer (offered offer.now) (with_number slots.now pattern number) }
    requires free { slice_get slots.now pattern ≡ Some None }
    requires screen { IfSome screen.now (Screens (offered offer.now) slots.now pattern (filter (λ p. not (p == pattern))
        (takers (offered offer.now) slots.now))) }
    ensures seen { result ≡ true → nat_le offer.now.oldest number ≡ true }
    ensures asked { result ≡ true → AreAsked (offered offer.now) slots.now pattern screen.now number }
    ensures left_out { result ≡ false → IsWorthless (offered offer.now) slots.now pattern number }
    ensures counted { result ≡ false → steps.new ≡ steps.old + 1 }
    ensures uncounted { result ≡ true → steps.new ≡ steps.old }
{
    if passes_screen(offer, slots, pattern, screen, number) {
        return true;
    }
    steps.tick();
    false
}

/// The first place from this one on whose number is worth a visit, or the row's end, by the numbers that are left of
/// the index. Each number that is looked at and passed over counts a step. There are at most as many as places before
/// the answer, also where the index has numbers that do not stand in the row.
pub fn next_looked<L: Ledger>(
    offer: &Offer<'_>,
    slots: &Slots,
    pattern: u32,
    screen: &Option<Screen>,
    left: &mut ValueRange<'_>,
    row: &Row,
    from: usize,
    steps: &mut Steps<L>,
) -> usize
    requires rise { Rise (map (λ node. node.number) row.now) }
    requires offered { AreOffered (offered offer.now) slots.now pattern row.now from }
    requires left { HasLeft (offered offer.now) slots.now pattern row.now from left.old }
    requires screen { IfSome screen.now (Screens (offered offer.now) slots.now pattern (filter (λ p. not (p == pattern))
        (takers (offered offer.now) slots.now))) }
    requires within { from ≤ length row.now }
    ensures from { from ≤ result }
    ensures within { result ≤ length row.now }
    ensures seen { result < length row.now → nat_le offer.now.oldest (node_at row.now result).number ≡ true }
    ensures asked { result < length row.now → AreAsked (offered offer.now) slots.now pattern screen.now
        (node_at row.now result).number }
    ensures skipped { AreWorthless (offered offer.now) slots.now pattern row.now from result }
    ensures left { result < length row.now → HasLeft (offered offer.now) slots.now pattern row.now
        (result + 1) left.new }
    ensures counted { steps.new + from ≤ steps.old + result }
{
    let end = row.len();
    if from >= end {
        return end;
    }
    let mut place = from;
    let mut looked = from;
    while let Some(number) = left.next() {
        if fails_early(offer, screen, number, looked, place, steps) {
            looked += 1;
            continue;
        }
        place = place_in(row, place, number);
        if place >= end {
            return end;
        }
        let there = row.number_at(place);
        if looks_worth(offer, slots, pattern, screen, there, steps) {
            return place;
        }
        place += 1;
        looked += 1;
    }
    end
}
