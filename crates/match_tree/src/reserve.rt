//! A visit of all paths of a definition.
ghost use Rattle.std.specs.Prelude.{◌≡◌, ◌≢◌, ◌+◌, ◌-◌, ◌^◌, ◌<◌, ◌≤◌, [], ◌∷◌, not, length, replicate, None, OnOk, OnErr, IfOk, slice_index};
ghost use Rattle.std.specs.List.{filter, AllByRecursion};
ghost use Rattle.guard_eval.specs.Meaning.{recorded_message};
ghost use Rattle.pattern_core.specs.Choice.{least};
ghost use Rattle.pattern_core.specs.Matches.{is_of_kind};
ghost use Rattle.pattern_core.specs.Suits.{IsRecorded};
ghost use Rattle.tree_rows.specs.Routes.{rows_routes, lacks};
ghost use Rattle.row_screens.specs.Offers.{places, growing, matches_at, may_take, seen, takers, new_matches};
ghost use Rattle.row_screens.specs.Below.{AreOpen};
ghost use Rattle.row_screens.specs.Offering.{offered, CanOffer, MayTry, LeadOn};
ghost use Rattle.tree_rows.specs.Order.{AreSound};
ghost use Rattle.match_tree.specs.Growth.{Lasts, Grows};
ghost use Rattle.tree_rows.specs.Pruned.{AreRising, AreShort};
ghost use Rattle.match_tree.specs.Thinned.{AreVisited};
ghost use Rattle.match_tree.specs.Tries.{tried, tries_behind};

use crate::by_value::take_back;
use crate::visit::visit_rows;
use join_base::{Message, NoMemory, Numbers, Slots, Steps};
use pattern_core::{Candidate, Definition, has_kind};
use row_screens::{Offer, PlaceSet, best_match, takers};
use std::alloc::Global;
use std::sync::ledger::Ledger;
use tree_rows::{Row, prune_rows};

// The patterns of the message's kind.
fn of_kind(definition: &Definition, number: u32, messages: &[Message]) -> Numbers
    requires recorded { IsRecorded messages.now number }
    requires few { length definition.now.patterns ≤ 8 }
    ensures { result ≡ filter (λ p. is_of_kind (recorded_message messages.now number)
        (slice_index definition.now.patterns p)) (places 0 definition.now.patterns) }
{
    let mut found = Numbers::new();
    for pattern in 0..definition.patterns.len() as u32 {
        if has_kind(messages, number, *definition.patterns.at(pattern as usize)) {
            found.push(pattern);
        }
    }
    found
}

// How many more there are than before. A count has 64 bits, which a caller that reads it behind its reference isn't
// told.
fn more_than(count: &u64, before: u64) -> u64
    requires { before ≤ count.now }
    ensures more { before + result ≡ count.now }
    ensures fits { count.now < 2 ^ 64 }
{
    *count - before
}

// Takes the nodes of a number out again, of which so many were added.
fn remove_new(rows: &mut Vec<Row>, number: u32, levels: usize, added: u64)
    requires few { length rows.old.items ≤ 8 }
    requires sound { AreSound rows.old.items }
    requires counted { length (rows_routes 0 rows.old.items) < 2 ^ 64 }
    requires added { added ≡ length (filter (λ route. not (lacks (number ∷ []) route)) (rows_routes 0 rows.old.items)) }
    requires short { AreShort levels (rows_routes 0 rows.old.items) }
    requires rising { AreRising (rows_routes 0 rows.old.items) }
    ensures few { length rows.new.items ≤ 8 }
    ensures sound { AreSound rows.new.items }
    ensures left { rows_routes 0 rows.new.items ≡ filter (lacks (number ∷ [])) (rows_routes 0 rows.old.items) }
{
    if added == 0 {
        return;
    }
    let mut numbers = Numbers::new();
    numbers.push(number);
    let _ = prune_rows(rows, &numbers, levels);
}

// The same after a visit that has found a match: the nodes are looked up.
fn remove_found(offer: &Offer<'_>, slots: &Slots, rows: &mut Vec<Row>, levels: usize, added: u64)
    requires can { CanOffer (offered offer.now) slots.now }
    requires few { length rows.old.items ≤ 8 }
    requires sound { AreSound rows.old.items }
    requires counted { length (rows_routes 0 rows.old.items) < 2 ^ 64 }
    requires added { added ≡ length (filter (λ route. not (lacks (offer.now.number ∷ []) route))
        (rows_routes 0 rows.old.items)) }
    requires short { AreShort levels (rows_routes 0 rows.old.items) }
    requires visited { AreVisited (offered offer.now) slots.now (rows_routes 0 rows.old.items) }
    ensures few { length rows.new.items ≤ 8 }
    ensures sound { AreSound rows.new.items }
    ensures left { rows_routes 0 rows.new.items ≡ filter (lacks (offer.now.number ∷ []))
        (rows_routes 0 rows.old.items) }
{
    if added == 0 {
        return;
    }
    let _ = take_back(offer, slots, rows, levels);
}

// Offers the number to one path. The answer is the least match that it completes there.
fn visit_path<L: Ledger>(
    offer: &Offer<'_>,
    slots: &Slots,
    wanted: &Numbers,
    steps: &mut Steps<L>,
) -> Option<Candidate>
    requires can { CanOffer (offered offer.now) slots.now }
    requires free { AllByRecursion (MayTry slots.now) wanted.now }
    requires wanted { filter (may_take (offered offer.now) slots.now) wanted.now
        ≡ takers (offered offer.now) slots.now }
    ensures best { result ≡ least (matches_at (offered offer.now) slots.now) }
    ensures counted { steps.new ≡ steps.old + length wanted.now }
{
    let able = takers(offer, slots, PlaceSet::all(), wanted, steps);
    best_match(offer, slots, &able)
}

/// Offers the number to the empty path and to all that go on from it. The answer is the least match that it completes.
/// Where there is a match, or no memory, the nodes are as they were.
pub fn visit_all<L: Ledger>(
    alloc: Global,
    offer: &Offer<'_>,
    rows: &mut Vec<Row>,
    count: &mut u64,
    steps: &mut Steps<L>,
) -> Result<Option<Candidate>, NoMemory>
    requires can { CanOffer (offered offer.now) (replicate (length offer.now.definition.now.patterns) None) }
    requires few { length rows.old.items ≤ 8 }
    requires sound { AreSound rows.old.items }
    requires whole { count.old ≡ 1 + length (rows_routes 0 rows.old.items) }
    requires lead { LeadOn (offered offer.now) (replicate (length offer.now.definition.now.patterns) None)
        (rows_routes 0 rows.old.items) }
    requires free_left { AreOpen (replicate (length offer.now.definition.now.patterns) None)
        (rows_routes 0 rows.old.items) }

    ensures few { length rows.new.items ≤ 8 }
    ensures sound { AreSound rows.new.items }
    ensures free_left { AreOpen (replicate (length offer.now.definition.now.patterns) None)
        (rows_routes 0 rows.new.items) }
    ensures lasting { Lasts offer.now.number (rows_routes 0 rows.old.items) (rows_routes 0 rows.new.items) }
    ensures unchanged { OnErr result (rows_routes 0 rows.new.items ≡ rows_routes 0 rows.old.items) }
    ensures found { IfOk result (λ b. b ≢ None → rows_routes 0 rows.new.items ≡ rows_routes 0 rows.old.items) }
    ensures best { IfOk result (λ b. b ≡ least (new_matches (offered offer.now)
        (replicate (length offer.now.definition.now.patterns) None) ([] ∷ seen (offered offer.now)
        (rows_routes 0 rows.old.items)))) }
    ensures grows { IfOk result (λ b. b ≡ None → Grows (offered offer.now)
        (replicate (length offer.now.definition.now.patterns) None) (growing (offered offer.now)
        (replicate (length offer.now.definition.now.patterns) None)) (rows_routes 0 rows.old.items)
        (rows_routes 0 rows.new.items)) }
    ensures counted { OnOk result (count.new + length (rows_routes 0 rows.old.items)
        ≡ count.old + length (rows_routes 0 rows.new.items)) }
    ensures stepped { steps.new ≤ steps.old + (length (tried (offered offer.now)
        (replicate (length offer.now.definition.now.patterns) None)) + tries_behind (offered offer.now)
        (replicate (length offer.now.definition.now.patterns) None) (rows_routes 0 rows.old.items)) }
{
    let patterns = offer.definition.patterns.len();
    let slots = Slots::new(patterns as u32);
    let wanted = of_kind(offer.definition, offer.number, offer.messages);
    // A path with its one pattern filled is full, so no node is ever added.
    if patterns == 1 && rows.len() == 0 {
        return Ok(visit_path(offer, &slots, &wanted, steps));
    }
    let before = *count;
    let asked = PlaceSet::all();
    match visit_rows(alloc, offer, &slots, asked, &wanted, rows, count, steps) {
        Ok(None) => Ok(None),
        Ok(Some(best)) => {
            let added = more_than(count, before);
            remove_found(offer, &slots, rows, patterns - 1, added);
            *count = before;
            Ok(Some(best))
        }
        Err(refused) => {
            let added = more_than(count, before);
            remove_new(rows, offer.number, patterns - 1, added);
            *count = before;
            Err(refused)
        }
    }
}
