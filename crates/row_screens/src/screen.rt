//! Tests of the numbers of a row that are cheaper than a try. Which conjuncts tie the row's pattern to the wanted one
//! and are decided is found once for the row, and only these are looked at. Where such a conjunct compares one field of
//! the row with what is known, it is enough to read that field, and an equality is looked at first. Behind a number that
//! passes no conjunct is left to ask.
ghost use Rattle.std.specs.Prelude.{◌≡◌, ◌⊎◌, ◌+◌, ◌<◌, ◌≤◌, ◌++◌, ◌∷◌, [], ◌||◌, ℕ, length, map, slice_get, Some, None, true, false, not, ◌==◌, nat_le, IfSome, IsSomeAnd, MatchOption};
ghost use Rattle.std.specs.List.{filter};
ghost use Rattle.guard_bound.specs.Same.{SaysSame};
ghost use Rattle.guard_eval.specs.Shape.{conjunct_condition};
ghost use Rattle.pattern_core.specs.Suits.{DefinitionSuits};
ghost use Rattle.tree_rows.specs.Routes.{with_number};
ghost use Rattle.row_screens.specs.Offers.{takers};
ghost use Rattle.row_screens.specs.Offering.{offered, CanOffer};
ghost use Rattle.tree_rows.specs.RowNumbers.{numbers_in};
ghost use Rattle.tree_rows.specs.Rows.{node_at};
ghost use Rattle.tree_rows.specs.Order.{Rise};
ghost use Rattle.row_screens.specs.Look.{HasLeft};
ghost use Rattle.row_screens.specs.PlaceSet.{has};
ghost use Rattle.row_screens.specs.Screen.{AreAsked, AreLacking, AreOffered, AreTests, AreWorthless, AsksAll, IsAdded, IsAsked, IsWith, Screens, as_bound, key_of, passes};
ghost use Rattle.row_screens.specs.Trial.{AllStand, IsDecidedAt};

use crate::find::{has_value, with_key};
use crate::look::next_looked;
use crate::offer::Offer;
use crate::place_set::PlaceSet;
use crate::trial::{all_hold, filled_among};
use guard_bound::{Bound, Bounds, Same, bound_of, is_same, meets_all, same_of};
use guard_eval::Conjunct;
use join_base::{Message, Numbers, Relation, Slots, Steps};
use std::sync::ledger::Ledger;
use tree_rows::{Row, RowNumbers};
use value_index::ValueRange;

/// The value that a number of the row has to have at a field.
#[derive(Clone, Copy, PartialEq, Eq, Debug)]
pub struct Key {
    pub field: u32,
    pub value: i64,
}

/// What is known of a row where one other pattern is wanted, before its numbers are tried: what the conjuncts say that
/// the two patterns decide together.
#[derive(Drop)]
pub struct Screen {
    pub other: u32,
    pub key: Option<Key>,
    pub bounds: Bounds,
    pub same: Option<Same>,
    /// Further conjuncts.
    pub tests: PlaceSet,
}

// The assignment in which the pattern has the number too, where there is the pattern and it is free.
fn with_free(slots: &Slots, patterns: usize, pattern: u32, number: u32) -> Option<Slots>
    requires { length slots.now ≡ patterns }
    ensures { IfSome result (IsWith slots.now pattern number) }
{
    if pattern as usize >= patterns {
        return None;
    }
    match slots.get(pattern) {
        None => Some(slots.with(pattern, number)),
        Some(_) => None,
    }
}

// The equality that the bound is, where it is one.
fn as_key(bound: Bound) -> Option<Key>
    ensures { IfSome result (λ key. as_bound key ≡ bound) }
{
    if bound.relation != Relation::Equal {
        return None;
    }
    match i64::try_from(bound.value) {
        Ok(value) => Some(Key {
            field: bound.field,
            value,
        }),
        Err(_) => None,
    }
}

// Adds a bound where there is no key: an equality becomes the key.
fn add_first(screen: &mut Screen, bound: Bound)
    requires few { length screen.old.bounds < 4 }
    requires first { screen.old.key ≡ None }
    ensures other { screen.new.other ≡ screen.old.other }
    ensures same { screen.new.same ≡ screen.old.same }
    ensures tests { screen.new.tests ≡ screen.old.tests }
    ensures added { IsAdded screen.old screen.new bound }
{
    match as_key(bound) {
        Some(key) => screen.key = Some(key),
        None => screen.bounds.push(bound),
    }
}

// Adds a bound that a decided conjunct gives. The first equality is the key.
fn add_bound(screen: &mut Screen, bound: Bound)
    requires few { length screen.old.bounds < 4 }
    ensures other { screen.new.other ≡ screen.old.other }
    ensures same { screen.new.same ≡ screen.old.same }
    ensures tests { screen.new.tests ≡ screen.old.tests }
    ensures added { IsAdded screen.old screen.new bound }
{
    match screen.key {
        None => add_first(screen, bound),
        Some(_) => screen.bounds.push(bound),
    }
}

// Adds the texts that a decided conjunct says are equal, where it does, and no others are compared.
fn add_same(screen: &mut Screen, pattern: u32, conjunct: &Conjunct) -> bool
    ensures kept { result ≡ false → screen.new ≡ screen.old }
    ensures other { screen.new.other ≡ screen.old.other }
    ensures key { screen.new.key ≡ screen.old.key }
    ensures bounds { screen.new.bounds ≡ screen.old.bounds }
    ensures tests { screen.new.tests ≡ screen.old.tests }
    ensures first { result ≡ true → screen.old.same ≡ None }
    ensures said { result ≡ true → IsSomeAnd screen.new.same (SaysSame pattern screen.old.other
        (conjunct_condition conjunct.now)) }
{
    match screen.same {
        Some(_) => false,
        None => match same_of(pattern, screen.other, conjunct) {
            None => false,
            Some(same) => {
                screen.same = Some(same);
                true
            }
        },
    }
}

// Adds the place of a decided conjunct.
fn add_place(screen: &mut Screen, place: u32)
    requires small { place < 64 }
    ensures other { screen.new.other ≡ screen.old.other }
    ensures key { screen.new.key ≡ screen.old.key }
    ensures bounds { screen.new.bounds ≡ screen.old.bounds }
    ensures same { screen.new.same ≡ screen.old.same }
    ensures tests { (k : ℕ) → has screen.new.tests k ≡ ((k == place) || has screen.old.tests k) }
{
    screen.tests = screen.tests.with(place);
}

// Adds the decided conjunct at the place to the screen.
fn add_test(offer: &Offer<'_>, whole: &Slots, pattern: u32, place: u32, screen: &mut Screen)
    requires small { place < 64 }
    requires decided { IsDecidedAt (offered offer.now) whole.now place }
    requires before { AreTests (offered offer.now) whole.now pattern screen.old }
    ensures other { screen.new.other ≡ screen.old.other }
    ensures after { AreTests (offered offer.now) whole.now pattern screen.new }
    ensures asked { IsAsked (offered offer.now) pattern screen.new place }
    ensures keeps { (k : ℕ) → IsAsked (offered offer.now) pattern screen.old k
        → IsAsked (offered offer.now) pattern screen.new k }
{
    let conjunct = offer.definition.conjuncts.at(place as usize);
    if screen.bounds.len() < 4 {
        if let Some(bound) = bound_of(
            offer.messages,
            offer.number,
            pattern,
            screen.other,
            conjunct,
        ) {
            add_bound(screen, bound);
            return;
        }
    }
    if add_same(screen, pattern, conjunct) {
        return;
    }
    add_place(screen, place);
}

// The screen of the conjuncts that tie the two patterns, and that the assignment decides, which has the number at both.
fn tests_of(offer: &Offer<'_>, pattern: u32, other: u32, whole: &Slots) -> Screen
    requires definition { DefinitionSuits offer.now.messages.now offer.now.definition.now }
    requires long { length whole.now ≡ length offer.now.definition.now.patterns }
    requires within { pattern < length whole.now }
    requires other_within { other < length whole.now }
    ensures other { result.other ≡ other }
    ensures tests { AreTests (offered offer.now) whole.now pattern result }
    ensures asks { AsksAll (offered offer.now) whole.now pattern result }
{
    let mut screen = Screen {
        other,
        key: None,
        bounds: Bounds::new(),
        same: None,
        tests: PlaceSet::new(),
    };
    let tied = offer.ties.naming(pattern).both(offer.ties.naming(other));
    let mut left = filled_among(offer, whole, tied);
    while let Some(place) = left.first() {
        add_test(offer, whole, pattern, place, &mut screen);
        left = left.but(place);
    }
    screen
}

/// The screen of a row of this pattern with so many numbers, where one other is wanted. For one number a screen isn't
/// worth its making.
pub fn screen_of(
    offer: &Offer<'_>,
    slots: &Slots,
    pattern: u32,
    wanted: &Numbers,
    numbers: usize,
) -> Option<Screen>
    requires can { CanOffer (offered offer.now) slots.now }
    ensures { IfSome result (Screens (offered offer.now) slots.now pattern wanted.now) }
{
    if offer.definition.conjuncts.len() == 0 || numbers < 2 {
        return None;
    }
    let [other] = wanted.as_slice() else {
        return None;
    };
    let patterns = offer.definition.patterns.len();
    let longer = with_free(slots, patterns, pattern, offer.number)?;
    let whole = with_free(&longer, patterns, *other, offer.number)?;
    Some(tests_of(offer, pattern, *other, &whole))
}

/// The conjuncts that a try behind a number of the row has to ask: those with a field of the row's pattern, and none
/// where the row has a screen, which has asked them.
#[inline]
pub fn left_to_ask(offer: &Offer<'_>, pattern: u32, screen: &Option<Screen>) -> PlaceSet
    requires { pattern < 8 }
    ensures { MatchOption screen.now (slice_get offer.now.ties.now.cells pattern ≡ Some result)
        (λ s. (k : ℕ) → has result k ≡ false) }
{
    match screen {
        None => offer.ties.naming(pattern),
        Some(_) => PlaceSet::new(),
    }
}

// The screen's key.
fn key_of(screen: &Option<Screen>) -> Option<Key>
    ensures { result ≡ key_of screen.now }
{
    match screen {
        None => None,
        Some(screen) => screen.key,
    }
}

// Whether the number passes the tests beside the offered one.
fn agrees(offer: &Offer<'_>, slots: &Slots, pattern: u32, screen: &Screen, number: u32) -> bool
    requires can { CanOffer (offered offer.now) (with_number slots.now pattern number) }
    requires free { slice_get slots.now pattern ≡ Some None }
    requires screen { Screens (offered offer.now) slots.now pattern (filter (λ p. not (p == pattern))
        (takers (offered offer.now) slots.now)) screen.now }
    ensures fails { result ≡ false → takers (offered offer.now) (with_number slots.now pattern number) ≡ [] }
    ensures stand { result ≡ true → AllStand (offered offer.now) (with_number (with_number slots.now pattern number)
        screen.now.other offer.now.number) screen.now.tests }
{
    if screen.tests.first().is_none() {
        return true;
    }
    let longer = slots.with(pattern, number);
    let whole = longer.with(screen.other, offer.number);
    all_hold(offer, &whole, screen.tests)
}

// Whether a number of a row that has the screen's key is worth a visit. It isn't where the definition no longer sees it,
// or no pattern may take the offered number behind it.
#[inline(always)]
fn is_worth(
    offer: &Offer<'_>,
    slots: &Slots,
    pattern: u32,
    screen: &Option<Screen>,
    number: u32,
) -> bool
    requires can { CanOffer (offered offer.now) (with_number slots.now pattern number) }
    requires free { slice_get slots.now pattern ≡ Some None }
    requires screen { IfSome screen.now (Screens (offered offer.now) slots.now pattern (filter (λ p. not (p == pattern))
        (takers (offered offer.now) slots.now))) }
    ensures seen { result ≡ true → nat_le offer.now.oldest number ≡ true }
    ensures left_out { result ≡ false → (nat_le offer.now.oldest number ≡ false)
        ⊎ (takers (offered offer.now) (with_number slots.now pattern number) ≡ []) }
    ensures asked { result ≡ true → passes offer.now.messages.now (key_of screen.now) number ≡ true
        → AreAsked (offered offer.now) slots.now pattern screen.now number }
{
    if number < offer.oldest {
        return false;
    }
    match screen {
        None => true,
        Some(screen) => {
            if !meets_all(offer.messages, &screen.bounds, number) {
                return false;
            }
            if !is_same(offer.messages, offer.number, screen.same, number) {
                return false;
            }
            agrees(offer, slots, pattern, screen, number)
        }
    }
}

// Whether the number has the key's value, where there is a key.
fn has_key(messages: &[Message], key: Option<Key>, number: u32) -> bool
    ensures { result ≡ passes messages.now key number }
{
    match key {
        None => true,
        Some(key) => has_value(messages, key, number),
    }
}

/// The same for a number that may lack the key's value. It stands in the loop over a row.
#[inline(always)]
pub fn passes_screen(
    offer: &Offer<'_>,
    slots: &Slots,
    pattern: u32,
    screen: &Option<Screen>,
    number: u32,
) -> bool
    requires can { CanOffer (offered offer.now) (with_number slots.now pattern number) }
    requires free { slice_get slots.now pattern ≡ Some None }
    requires screen { IfSome screen.now (Screens (offered offer.now) slots.now pattern (filter (λ p. not (p == pattern))
        (takers (offered offer.now) slots.now))) }
    ensures seen { result ≡ true → nat_le offer.now.oldest number ≡ true }
    ensures left_out { result ≡ false → (nat_le offer.now.oldest number ≡ false)
        ⊎ (takers (offered offer.now) (with_number slots.now pattern number) ≡ []) }
    ensures asked { result ≡ true → AreAsked (offered offer.now) slots.now pattern screen.now number }
{
    if !has_key(offer.messages, key_of(screen), number) {
        return false;
    }
    is_worth(offer, slots, pattern, screen, number)
}

// The first place from this one on whose number is worth a visit, or the row's end, where all are gone through. Each
// number that is passed over counts.
fn next_scanned<L: Ledger>(
    offer: &Offer<'_>,
    slots: &Slots,
    pattern: u32,
    screen: &Option<Screen>,
    row: &Row,
    from: usize,
    steps: &mut Steps<L>,
) -> usize
    requires offered { AreOffered (offered offer.now) slots.now pattern row.now from }
    requires screen { IfSome screen.now (Screens (offered offer.now) slots.now pattern (filter (λ p. not (p == pattern))
        (takers (offered offer.now) slots.now))) }
    requires within { from ≤ length row.now }
    ensures from { from ≤ result }
    ensures within { result ≤ length row.now }
    ensures seen { result < length row.now → nat_le offer.now.oldest (node_at row.now result).number ≡ true }
    ensures asked { result < length row.now → AreAsked (offered offer.now) slots.now pattern screen.now
        (node_at row.now result).number }
    ensures skipped { AreWorthless (offered offer.now) slots.now pattern row.now from result }
    ensures counted { steps.new + from ≡ steps.old + result }
{
    let numbers = RowNumbers::of(row);
    let end = numbers.len();
    let key = key_of(screen);
    let mut place = with_key(offer.messages, key, &numbers, from, steps);
    while place < end {
        if passes_screen(offer, slots, pattern, screen, numbers.at(place)) {
            return place;
        }
        steps.tick();
        place = with_key(offer.messages, key, &numbers, place + 1, steps);
    }
    end
}

/// The first place from this one on whose number is worth a visit, or the row's end: by the numbers that are left,
/// where the row is looked up. Each number that is looked at and passed over counts a step, so that there are at most
/// as many steps as places before it.
pub fn next_place<L: Ledger>(
    offer: &Offer<'_>,
    slots: &Slots,
    pattern: u32,
    screen: &Option<Screen>,
    left: &mut Option<ValueRange<'_>>,
    row: &Row,
    from: usize,
    steps: &mut Steps<L>,
) -> usize
    requires rise { Rise (map (λ node. node.number) row.now) }
    requires offered { AreOffered (offered offer.now) slots.now pattern row.now from }
    requires left { IfSome left.old (HasLeft (offered offer.now) slots.now pattern row.now from) }
    requires screen { IfSome screen.now (Screens (offered offer.now) slots.now pattern (filter (λ p. not (p == pattern))
        (takers (offered offer.now) slots.now))) }
    requires within { from ≤ length row.now }
    ensures from { from ≤ result }
    ensures within { result ≤ length row.now }
    ensures seen { result < length row.now → nat_le offer.now.oldest (node_at row.now result).number ≡ true }
    ensures asked { result < length row.now → AreAsked (offered offer.now) slots.now pattern screen.now
        (node_at row.now result).number }
    ensures skipped { AreWorthless (offered offer.now) slots.now pattern row.now from result }
    ensures left { result < length row.now → IfSome left.new (HasLeft (offered offer.now) slots.now pattern row.now
        (result + 1)) }
    ensures counted { steps.new + from ≤ steps.old + result }
{
    match left {
        None => next_scanned(offer, slots, pattern, screen, row, from, steps),
        Some(left) => next_looked(offer, slots, pattern, screen, left, row, from, steps),
    }
}
