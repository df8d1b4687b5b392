//! A new number at the end of a path: the nodes that are added for it where it begins, and what it does at a leaf.
ghost use Rattle.std.specs.Prelude.{◌≡◌, ◌+◌, ◌<◌, ◌≤◌, ◌++◌, [], ◌∷◌, ℕ, length, replicate, true, ◌==◌, None, OnOk, IfOk, OnErr, slice_set};
ghost use Rattle.std.specs.List.{filter, AllByRecursion};
ghost use Rattle.pattern_core.specs.Choice.{least};
ghost use Rattle.tree_rows.specs.Routes.{rows_routes, row_routes, lacks};
ghost use Rattle.tree_rows.specs.Rows.{leaf, node_at};
ghost use Rattle.match_tree.specs.Behind.{AreFewBehind, IsBehind, routes_behind};
ghost use Rattle.join_base.specs.Taken.{contains_number};
ghost use Rattle.row_screens.specs.Offers.{takers, may_take, growing, places, new_matches};
ghost use Rattle.row_screens.specs.Below.{AreOpen};
ghost use Rattle.row_screens.specs.Offering.{offered, CanOffer, MayTry};
ghost use Rattle.tree_rows.specs.Order.{IsSoundRow, AreSound};
ghost use Rattle.match_tree.specs.Growth.{Grows};
ghost use Rattle.match_tree.specs.Begins.{AreLess, Begins, IsLess};
ghost use Rattle.row_screens.specs.Trial.{AllStandOutside};

use join_base::{NoMemory, Numbers, Slots, Steps};
use pattern_core::Candidate;
use row_screens::{Offer, PlaceSet, best_match, contains, leave_one_free, takers};
use std::alloc::Global;
use std::sync::ledger::Ledger;
use tree_rows::Row;

// Rows for so many patterns.
fn grow_rows(rows: &mut Vec<Row>, count: usize) -> Result<(), NoMemory>
    requires few { length rows.old.items ≤ 8 }
    requires most { count ≤ 8 }
    ensures same { (k : ℕ) × (rows.new.items ≡ rows.old.items ++ replicate k []) }
    ensures few { length rows.new.items ≤ 8 }
    ensures room { OnOk result (count ≤ length rows.new.items) }
{
    rows.reserve_exact(count.saturating_sub(rows.len()))?;
    while rows.len() < count {
        rows.push(Row::new())?;
    }
    Ok(())
}

// A node for the number at the end of a row.
fn push_leaf(alloc: Global, row: &mut Row, number: u32, count: &mut u64) -> Result<(), NoMemory>
    ensures ok { OnOk result (row.new ≡ row.old ++ leaf number ∷ []) }
    ensures err { OnErr result (row.new ≡ row.old) }
    ensures counted { OnOk result (count.new ≡ count.old + 1) }
    ensures uncounted { OnErr result (count.new ≡ count.old) }
{
    let Some(more) = count.checked_add(1) else {
        return Err(NoMemory);
    };
    row.push_leaf(alloc, number)?;
    *count = more;
    Ok(())
}

// Adds a node for the number to the row of a pattern at which it begins, unless there is no memory.
fn begin_row(
    alloc: Global,
    offer: &Offer<'_>,
    slots: &Slots,
    pattern: u32,
    begun: &Numbers,
    row: &mut Row,
    count: &mut u64,
) -> bool
    requires can { CanOffer (offered offer.now) slots.now }
    requires begun { begun.now ≡ growing (offered offer.now) slots.now }
    requires sound { IsSoundRow row.old }
    requires less { IsLess offer.now.number row.old }
    requires free_left { AreOpen slots.now (row_routes pattern row.old) }
    ensures sound { IsSoundRow row.new }
    ensures free_left { AreOpen slots.now (row_routes pattern row.new) }
    ensures lasting { filter (lacks (offer.now.number ∷ [])) (row_routes pattern row.new)
        ≡ filter (lacks (offer.now.number ∷ [])) (row_routes pattern row.old) }
    ensures begins { result ≡ true → Begins offer.now.number (filter (contains_number begun.now) (pattern ∷ []))
        (row_routes pattern row.old) (row_routes pattern row.new) }
    ensures counted { count.new + length (row_routes pattern row.old)
        ≡ count.old + length (row_routes pattern row.new) }
{
    if !contains(begun, pattern) {
        return true;
    }
    match push_leaf(alloc, row, offer.number, count) {
        Ok(()) => true,
        Err(_) => false,
    }
}

// Adds a node for the number to each row of a pattern at which it begins, unless there is no memory.
fn begin_rows(
    alloc: Global,
    offer: &Offer<'_>,
    slots: &Slots,
    begun: &Numbers,
    rows: &mut [Row],
    count: &mut u64,
) -> bool
    requires can { CanOffer (offered offer.now) slots.now }
    requires begun { begun.now ≡ growing (offered offer.now) slots.now }
    requires few { length rows.old ≤ 8 }
    requires sound { AreSound rows.old }
    requires less { AreLess offer.now.number rows.old }
    requires free_left { AreOpen slots.now (rows_routes 0 rows.old) }
    ensures sound { AreSound rows.new }
    ensures free_left { AreOpen slots.now (rows_routes 0 rows.new) }
    ensures lasting { filter (lacks (offer.now.number ∷ [])) (rows_routes 0 rows.new)
        ≡ filter (lacks (offer.now.number ∷ [])) (rows_routes 0 rows.old) }
    ensures begins { result ≡ true → Begins offer.now.number (filter (contains_number begun.now) (places 0 rows.old))
        (rows_routes 0 rows.old) (rows_routes 0 rows.new) }
    ensures counted { count.new + length (rows_routes 0 rows.old) ≡ count.old + length (rows_routes 0 rows.new) }
{
    let mut fits = true;
    for (place, row) in rows.iter_mut().enumerate() {
        fits &= begin_row(alloc, offer, slots, place as u32, begun, row, count);
    }
    fits
}

/// Adds nodes for the number to a path where it begins. The answer is whether there was memory for all.
pub fn begin(
    alloc: Global,
    offer: &Offer<'_>,
    slots: &Slots,
    able: &Numbers,
    rows: &mut Vec<Row>,
    count: &mut u64,
) -> bool
    requires can { CanOffer (offered offer.now) slots.now }
    requires able { able.now ≡ takers (offered offer.now) slots.now }
    requires few { length rows.old.items ≤ 8 }
    requires sound { AreSound rows.old.items }
    requires less { AreLess offer.now.number rows.old.items }
    requires free_left { AreOpen slots.now (rows_routes 0 rows.old.items) }
    ensures few { length rows.new.items ≤ 8 }
    ensures sound { AreSound rows.new.items }
    ensures free_left { AreOpen slots.now (rows_routes 0 rows.new.items) }
    ensures lasting { filter (lacks (offer.now.number ∷ [])) (rows_routes 0 rows.new.items)
        ≡ filter (lacks (offer.now.number ∷ [])) (rows_routes 0 rows.old.items) }
    ensures begins { result ≡ true → Begins offer.now.number (growing (offered offer.now) slots.now)
        (rows_routes 0 rows.old.items) (rows_routes 0 rows.new.items) }
    ensures counted { count.new + length (rows_routes 0 rows.old.items)
        ≡ count.old + length (rows_routes 0 rows.new.items) }
{
    if !leave_one_free(offer, slots) {
        return true;
    }
    match grow_rows(rows, offer.definition.patterns.len()) {
        Ok(()) => begin_rows(alloc, offer, slots, able, rows, count),
        Err(_) => false,
    }
}

// The rows behind a leaf, with nodes for the number where it begins: none where it begins nowhere.
fn begin_leaf(
    alloc: Global,
    offer: &Offer<'_>,
    slots: &Slots,
    able: &Numbers,
    count: &mut u64,
) -> Result<Option<Box<Vec<Row>>>, NoMemory>
    requires can { CanOffer (offered offer.now) slots.now }
    requires able { able.now ≡ takers (offered offer.now) slots.now }
    ensures behind { IfOk result (λ rows. IsBehind slots.now offer.now.number (routes_behind rows)) }
    ensures few { IfOk result AreFewBehind }
    ensures begins { IfOk result (λ rows. Begins offer.now.number (growing (offered offer.now) slots.now) []
        (routes_behind rows)) }
    ensures counted { IfOk result (λ rows. count.new ≡ count.old + length (routes_behind rows)) }
    ensures uncounted { OnErr result (count.new ≡ count.old) }
{
    let before = *count;
    let mut rows = Vec::new(alloc);
    if !begin(alloc, offer, slots, able, &mut rows, count) {
        *count = before;
        return Err(NoMemory);
    }
    if rows.len() == 0 {
        return Ok(None);
    }
    match Box::new(alloc, rows) {
        Ok(rows) => Ok(Some(rows)),
        Err(_) => {
            *count = before;
            Err(NoMemory)
        }
    }
}

/// What a number does at a leaf: the match that it completes there, or the rows that it adds behind it.
#[derive(Drop)]
pub struct AtLeaf {
    pub best: Option<Candidate>,
    pub rows: Option<Box<Vec<Row>>>,
}

/// Offers the number to the path that ends at a leaf, which has no further paths behind it.
pub fn visit_leaf<L: Ledger>(
    alloc: Global,
    offer: &Offer<'_>,
    slots: &Slots,
    asked: PlaceSet,
    wanted: &Numbers,
    count: &mut u64,
    steps: &mut Steps<L>,
) -> Result<AtLeaf, NoMemory>
    requires can { CanOffer (offered offer.now) slots.now }
    requires outside { AllStandOutside (offered offer.now) asked slots.now wanted.now }
    requires free { AllByRecursion (MayTry slots.now) wanted.now }
    requires wanted { filter (may_take (offered offer.now) slots.now) wanted.now
        ≡ takers (offered offer.now) slots.now }

    ensures behind { IfOk result (λ at. IsBehind slots.now offer.now.number (routes_behind at.rows)) }
    ensures few { IfOk result (λ at. AreFewBehind at.rows) }
    ensures best { IfOk result (λ at. at.best ≡ least (new_matches (offered offer.now) slots.now ([] ∷ []))) }
    ensures grows { IfOk result (λ at. at.best ≡ None → Grows (offered offer.now) slots.now (growing (offered offer.now)
        slots.now) [] (routes_behind at.rows)) }
    ensures counted { IfOk result (λ at. count.new ≡ count.old + length (routes_behind at.rows)) }
    ensures uncounted { OnErr result (count.new ≡ count.old) }
    ensures stepped { steps.new ≡ steps.old + length wanted.now }
{
    let here = takers(offer, slots, asked, wanted, steps);
    if here.len() == 0 {
        return Ok(AtLeaf {
            best: None,
            rows: None,
        });
    }
    let best = best_match(offer, slots, &here);
    if best.is_some() {
        return Ok(AtLeaf { best, rows: None });
    }
    let rows = begin_leaf(alloc, offer, slots, &here, count)?;
    Ok(AtLeaf { best: None, rows })
}

/// Offers the number to the path that ends at a leaf of a row.
pub fn visit_leaf_at<L: Ledger>(
    alloc: Global,
    offer: &Offer<'_>,
    slots: &Slots,
    asked: PlaceSet,
    wanted: &Numbers,
    row: &mut Row,
    place: usize,
    count: &mut u64,
    steps: &mut Steps<L>,
) -> Result<Option<Candidate>, NoMemory>
    requires can { CanOffer (offered offer.now) slots.now }
    requires outside { AllStandOutside (offered offer.now) asked slots.now wanted.now }
    requires free { AllByRecursion (MayTry slots.now) wanted.now }
    requires wanted { filter (may_take (offered offer.now) slots.now) wanted.now
        ≡ takers (offered offer.now) slots.now }
    requires within { place < length row.old }
    requires leaf { (node_at row.old place).routes ≡ [] }

    ensures placed { row.new ≡ slice_set row.old place (node_at row.new place) }
    ensures number { (node_at row.new place).number ≡ (node_at row.old place).number }
    ensures behind { IsBehind slots.now offer.now.number (node_at row.new place).routes }
    ensures best { IfOk result (λ b. b ≡ least (new_matches (offered offer.now) slots.now ([] ∷ []))) }
    ensures grows { IfOk result (λ b. b ≡ None → Grows (offered offer.now) slots.now (growing (offered offer.now)
        slots.now) [] (node_at row.new place).routes) }
    ensures counted { count.new ≡ count.old + length (node_at row.new place).routes }
    ensures stepped { steps.new ≡ steps.old + length wanted.now }
{
    let before = *count;
    let AtLeaf { best, rows } = visit_leaf(alloc, offer, slots, asked, wanted, count, steps)?;
    let Some(rows) = rows else {
        return Ok(best);
    };
    match row.put_behind(alloc, place, rows) {
        Ok(()) => Ok(best),
        Err(_) => {
            *count = before;
            Err(NoMemory)
        }
    }
}
