//! Which patterns may take an offered number beside the others of a path, and the matches that it completes there.
ghost use Rattle.std.specs.Prelude.{◌≡◌, ◌+◌, ◌<◌, ◌≤◌, ◌∷◌, [], ◌&&◌, ◌||◌, ℕ, Option, length, map, true, false, not, ◌==◌, Some, None, slice_get, slice_index, slice_set};
ghost use Rattle.guard_eval.specs.Meaning.{is_filled, is_slot_filled, number_at, recorded_message};
ghost use Rattle.std.specs.List.{filter, list_all, AllByRecursion};
ghost use Rattle.pattern_core.specs.Matches.{is_agreeable, is_of_kind, holds_number};
ghost use Rattle.pattern_core.specs.Suits.{DefinitionSuits, IsRecorded, SlotsSuit};
ghost use Rattle.pattern_core.specs.Choice.{least, taken_of, candidate_of};
ghost use Rattle.join_base.specs.Taken.{contains_number};
ghost use Rattle.tree_rows.specs.Routes.{with_number};
ghost use Rattle.row_screens.specs.Offers.{is_free, may_take, matches_of, leaves_one_free};
ghost use Rattle.row_screens.specs.Offering.{offered, CanOffer, MayTry, MayTake};
ghost use Rattle.row_screens.specs.PlaceSet.{has};
ghost use Rattle.row_screens.specs.Ties.{AreFilledAmong, names, needs_at};
ghost use Rattle.row_screens.specs.Trial.{AllStand, AllStandOutside, AreDecided, AsksNone, IsDecidedAt, StandOutside, free_count, free_of, stands_at};

use crate::offer::Offer;
use crate::place_set::PlaceSet;
use guard_eval::{decided, holds};
use join_base::{Numbers, Slots, Steps};
use pattern_core::{Candidate, better, complete, has_kind};
use std::sync::ledger::Ledger;

// The places of these whose conjuncts have no field of the pattern, unless it is filled.
#[inline]
fn unless_free(offer: &Offer<'_>, slots: &Slots, pattern: u32, among: PlaceSet) -> PlaceSet
    requires few { pattern < 8 }
    requires within { pattern < length slots.now }
    ensures { (k : ℕ) → k < 64 → has result k ≡ (has among k && (is_slot_filled (number_at slots.now pattern)
        || not (names pattern (needs_at offer.now.definition.now.conjuncts k)))) }
{
    match slots.get(pattern) {
        Some(_) => among,
        None => among.without(offer.ties.naming(pattern)),
    }
}

/// The places of these whose conjuncts have fields of filled patterns alone.
pub fn filled_among(offer: &Offer<'_>, slots: &Slots, among: PlaceSet) -> PlaceSet
    requires definition { DefinitionSuits offer.now.messages.now offer.now.definition.now }
    requires long { length slots.now ≡ length offer.now.definition.now.patterns }
    ensures { AreFilledAmong offer.now.definition.now.conjuncts slots.now among result }
{
    let mut left = among;
    for pattern in 0..offer.definition.patterns.len() as u32 {
        left = unless_free(offer, slots, pattern, left);
    }
    left
}

// Whether the decided conjunct at the place is true.
fn holds_at(offer: &Offer<'_>, slots: &Slots, place: u32) -> bool
    requires definition { DefinitionSuits offer.now.messages.now offer.now.definition.now }
    requires suits { SlotsSuit offer.now.messages.now offer.now.definition.now.patterns slots.now }
    requires decided { IsDecidedAt (offered offer.now) slots.now place }
    ensures stands { result ≡ true → stands_at (offered offer.now) slots.now place ≡ true }
    ensures fails { result ≡ false → is_agreeable offer.now.messages.now offer.now.definition.now.conjuncts
        slots.now ≡ false }
{
    holds(
        offer.definition.conjuncts.at(place as usize),
        slots,
        offer.messages,
    )
}

/// Whether the decided conjuncts at these places are true.
pub fn all_hold(offer: &Offer<'_>, slots: &Slots, those: PlaceSet) -> bool
    requires definition { DefinitionSuits offer.now.messages.now offer.now.definition.now }
    requires suits { SlotsSuit offer.now.messages.now offer.now.definition.now.patterns slots.now }
    requires decided { AreDecided (offered offer.now) slots.now those }
    ensures stand { result ≡ true → AllStand (offered offer.now) slots.now those }
    ensures fails { result ≡ false → is_agreeable offer.now.messages.now offer.now.definition.now.conjuncts
        slots.now ≡ false }
{
    let mut left = those;
    while let Some(place) = left.first() {
        if !holds_at(offer, slots, place) {
            return false;
        }
        left = left.but(place);
    }
    true
}

// Whether every conjunct that is decided is true, where each of them is asked.
fn each_stands(offer: &Offer<'_>, slots: &Slots) -> bool
    requires definition { DefinitionSuits offer.now.messages.now offer.now.definition.now }
    requires suits { SlotsSuit offer.now.messages.now offer.now.definition.now.patterns slots.now }
    ensures { result ≡ is_agreeable offer.now.messages.now offer.now.definition.now.conjuncts slots.now }
{
    for conjunct in offer.definition.conjuncts.as_slice() {
        if decided(conjunct, slots) && !holds(conjunct, slots, offer.messages) {
            return false;
        }
    }
    true
}

// The conjuncts of the set that the number decides at the pattern.
fn decided_at(offer: &Offer<'_>, longer: &Slots, pattern: u32, asked: PlaceSet) -> PlaceSet
    requires definition { DefinitionSuits offer.now.messages.now offer.now.definition.now }
    requires long { length longer.now ≡ length offer.now.definition.now.patterns }
    requires within { pattern < length longer.now }
    ensures { (k : ℕ) → k < 64 → has result k ≡ ((names pattern (needs_at offer.now.definition.now.conjuncts k)
        && has asked k) && list_all (is_filled longer.now) (needs_at offer.now.definition.now.conjuncts k)) }
{
    let among = offer.ties.naming(pattern).both(asked);
    if among.first().is_none() {
        return among;
    }
    filled_among(offer, longer, among)
}

// Whether every conjunct that is decided once the pattern has the number is true, where all that were decided before
// are, and those outside the set are. Of more than 64 conjuncts each is asked. Most tries ask nothing, and are quicker
// where this stands apart.
#[inline(never)]
fn all_stand(
    offer: &Offer<'_>,
    slots: &Slots,
    longer: &Slots,
    pattern: u32,
    asked: PlaceSet,
) -> bool
    requires definition { DefinitionSuits offer.now.messages.now offer.now.definition.now }
    requires free { slice_get slots.now pattern ≡ Some None }
    requires longer { longer.now ≡ with_number slots.now pattern offer.now.number }
    requires suits { SlotsSuit offer.now.messages.now offer.now.definition.now.patterns longer.now }
    requires before { is_agreeable offer.now.messages.now offer.now.definition.now.conjuncts slots.now ≡ true }
    requires outside { StandOutside (offered offer.now) asked longer.now }
    ensures { result ≡ is_agreeable offer.now.messages.now offer.now.definition.now.conjuncts longer.now }
{
    if offer.definition.conjuncts.len() > 64 {
        return each_stands(offer, longer);
    }
    let those = decided_at(offer, longer, pattern, asked);
    all_hold(offer, longer, those)
}

// Whether no conjunct of the set has a field of the pattern, where there are at most 64.
#[inline]
fn asks_none(offer: &Offer<'_>, pattern: u32, asked: PlaceSet) -> bool
    requires { pattern < 8 }
    ensures { result ≡ true → AsksNone (offered offer.now) pattern asked }
{
    if offer.definition.conjuncts.len() > 64 {
        return false;
    }
    offer.ties.naming(pattern).both(asked).is_empty()
}

// Whether the pattern may take the number beside the others: it has the kind, and every conjunct that is then decided
// is true. Conjuncts outside the set stand. It counts a step.
fn try_at<L: Ledger>(
    offer: &Offer<'_>,
    slots: &Slots,
    pattern: u32,
    asked: PlaceSet,
    steps: &mut Steps<L>,
) -> bool
    requires can { CanOffer (offered offer.now) slots.now }
    requires free { slice_get slots.now pattern ≡ Some None }
    requires outside { StandOutside (offered offer.now) asked (with_number slots.now pattern offer.now.number) }
    ensures answer { result
        ≡ (is_of_kind (recorded_message offer.now.messages.now offer.now.number)
        (slice_index offer.now.definition.now.patterns pattern)
        && is_agreeable offer.now.messages.now offer.now.definition.now.conjuncts
        (slice_set slots.now pattern (Some offer.now.number))) }
    ensures counted { steps.new ≡ steps.old + 1 }
{
    steps.tick();
    let kind = *offer.definition.patterns.at(pattern as usize);
    if !has_kind(offer.messages, offer.number, kind) {
        return false;
    }
    if asks_none(offer, pattern, asked) {
        return true;
    }
    let longer = slots.with(pattern, offer.number);
    all_stand(offer, slots, &longer, pattern, asked)
}

/// Which of the patterns may take the number beside the others. Conjuncts outside the set stand, and are not asked. Each
/// pattern counts a step.
pub fn takers<L: Ledger>(
    offer: &Offer<'_>,
    slots: &Slots,
    asked: PlaceSet,
    wanted: &Numbers,
    steps: &mut Steps<L>,
) -> Numbers
    requires can { CanOffer (offered offer.now) slots.now }
    requires outside { AllStandOutside (offered offer.now) asked slots.now wanted.now }
    requires free { AllByRecursion (MayTry slots.now) wanted.now }
    ensures answer { result ≡ filter (may_take (offered offer.now) slots.now) wanted.now }
    ensures counted { steps.new ≡ steps.old + length wanted.now }
{
    let mut found = Numbers::new();
    for pattern in wanted.as_slice() {
        if try_at(offer, slots, *pattern, asked, steps) {
            found.push(*pattern);
        }
    }
    found
}

// The arrival numbers of an assignment, in pattern order.
fn taken(slots: &Slots, patterns: u32) -> Numbers
    requires count { length slots.now ≡ patterns }
    requires few { patterns ≤ 8 }
    ensures { result ≡ taken_of slots.now }
{
    let mut numbers = Numbers::new();
    for pattern in 0..patterns {
        if let Some(number) = slots.get(pattern) {
            numbers.push(number);
        }
    }
    numbers
}

// The match that an assignment without a free pattern makes.
fn candidate(offer: &Offer<'_>, slots: &Slots) -> Candidate
    requires definition { DefinitionSuits offer.now.messages.now offer.now.definition.now }
    requires suits { SlotsSuit offer.now.messages.now offer.now.definition.now.patterns slots.now }
    ensures { result ≡ candidate_of offer.now.rule slots.now }
{
    Candidate {
        rule: offer.rule,
        taken: taken(slots, offer.definition.patterns.len() as u32),
    }
}

// One where the pattern is free, and none where it has a number.
#[inline]
fn free_at(slots: &Slots, pattern: u32) -> u32
    requires { pattern < length slots.now }
    ensures { (slot : Option ℕ) → slice_get slots.now pattern ≡ Some slot → result ≡ free_of slot }
{
    match slots.get(pattern) {
        Some(_) => 0,
        None => 1,
    }
}

// How many patterns are free.
fn count_free(slots: &Slots, patterns: u32) -> u32
    requires long { length slots.now ≡ patterns }
    requires few { patterns ≤ 8 }
    ensures { result ≡ free_count slots.now }
{
    let mut count = 0;
    for pattern in 0..patterns {
        count += free_at(slots, pattern);
    }
    count
}

/// Whether a free pattern that takes the number leaves another one free.
pub fn leave_one_free(offer: &Offer<'_>, slots: &Slots) -> bool
    requires can { CanOffer (offered offer.now) slots.now }
    ensures { (p : ℕ) → is_free slots.now p ≡ true → leaves_one_free (offered offer.now) slots.now p ≡ result }
{
    count_free(slots, offer.definition.patterns.len() as u32) > 1
}

// The match that the number completes at the pattern, which may take it.
fn match_at(offer: &Offer<'_>, slots: &Slots, pattern: u32) -> Option<Candidate>
    requires can { CanOffer (offered offer.now) slots.now }
    requires may { MayTake (offered offer.now) slots.now pattern }
    ensures { result ≡ least (matches_of (offered offer.now) slots.now (pattern ∷ [])) }
{
    let longer = slots.with(pattern, offer.number);
    if !complete(offer.definition, &longer, offer.messages) {
        return None;
    }
    Some(candidate(offer, &longer))
}

// The least match that the number completes at one of the patterns.
fn match_among(offer: &Offer<'_>, slots: &Slots, patterns: &Numbers) -> Option<Candidate>
    requires can { CanOffer (offered offer.now) slots.now }
    requires may { AllByRecursion (MayTake (offered offer.now) slots.now) patterns.now }
    ensures { result ≡ least (matches_of (offered offer.now) slots.now patterns.now) }
{
    if let [pattern] = patterns.as_slice() {
        return match_at(offer, slots, *pattern);
    }
    let mut best = None;
    for pattern in patterns.as_slice() {
        best = better(best, match_at(offer, slots, *pattern));
    }
    best
}

/// The least match that the number completes at one of the patterns, which may take it. Mostly another pattern is left
/// free, which the visit of a path sees without a call.
#[inline(always)]
pub fn best_match(offer: &Offer<'_>, slots: &Slots, patterns: &Numbers) -> Option<Candidate>
    requires can { CanOffer (offered offer.now) slots.now }
    requires may { AllByRecursion (MayTake (offered offer.now) slots.now) patterns.now }
    ensures { result ≡ least (matches_of (offered offer.now) slots.now patterns.now) }
{
    if leave_one_free(offer, slots) {
        return None;
    }
    match_among(offer, slots, patterns)
}

/// Whether the pattern is one of these.
pub fn contains(patterns: &Numbers, wanted: u32) -> bool
    ensures { result ≡ contains_number patterns.now wanted }
{
    for pattern in patterns.as_slice() {
        if wanted == *pattern {
            return true;
        }
    }
    false
}

/// Whether there is no pattern but for this one.
#[inline]
pub fn is_only(patterns: &Numbers, pattern: u32) -> bool
    ensures { result ≡ true → filter (λ p. not (p == pattern)) patterns.now ≡ [] }
{
    if let [only] = patterns.as_slice() {
        return *only == pattern;
    }
    false
}

/// The patterns but for one.
pub fn without(patterns: &Numbers, left_out: u32) -> Numbers
    ensures { result ≡ filter (λ p. not (p == left_out)) patterns.now }
{
    let mut others = Numbers::new();
    for pattern in patterns.as_slice() {
        if *pattern != left_out {
            others.push(*pattern);
        }
    }
    others
}
