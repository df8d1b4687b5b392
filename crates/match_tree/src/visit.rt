//! The visit of a new number: it is tried behind each path that may take it, and new nodes are added where it goes on.
ghost use Rattle.std.specs.Prelude.{◌≡◌, ◌≢◌, ◌+◌, ◌<◌, ◌≤◌, [], ◌∷◌, length, map, not, nat_le, ◌==◌, None, OnOk, IfOk, slice_set};
ghost use Rattle.std.specs.List.{filter, AllByRecursion};
ghost use Rattle.pattern_core.specs.Choice.{least, lesser_of};
ghost use Rattle.tree_rows.specs.Routes.{rows_routes, row_routes};
ghost use Rattle.tree_rows.specs.Rows.{node_at};
ghost use Rattle.row_screens.specs.Offers.{takers, may_take, growing, seen, new_matches};
ghost use Rattle.row_screens.specs.Below.{AreOpen};
ghost use Rattle.row_screens.specs.Offering.{offered, CanOffer, MayTry, LeadOn};
ghost use Rattle.tree_rows.specs.Order.{IsOrderedNode, IsSoundRow, AreSound};
ghost use Rattle.match_tree.specs.Growth.{AreEarned, Lasts, Grows};
ghost use Rattle.match_tree.specs.Begins.{AreLess};
ghost use Rattle.row_screens.specs.Trial.{AllStandOutside};
ghost use Rattle.match_tree.specs.Tries.{tries_behind};

use crate::at_leaf::{AtLeaf, begin, visit_leaf, visit_leaf_at};
use join_base::{NoMemory, Numbers, Slots, Steps};
use pattern_core::{Candidate, better};
use row_screens::{
    Offer, PlaceSet, best_match, is_only, left_to_ask, looked_up, next_place, screen_of, takers,
    without,
};
use std::alloc::Global;
use std::sync::ledger::Ledger;
use tree_rows::{Node, Nodes, Row, Shape};

/// Offers the number to a path and to all that go on from it. The answer is the least match that it completes there, in
/// which case not all new nodes were added. Conjuncts outside the set stand where the path takes the number.
#[cycle(visit)]
pub fn visit_rows<L: Ledger>(
    alloc: Global,
    offer: &Offer<'_>,
    slots: &Slots,
    asked: PlaceSet,
    wanted: &Numbers,
    rows: &mut Vec<Row>,
    count: &mut u64,
    steps: &mut Steps<L>,
) -> Result<Option<Candidate>, NoMemory>
    requires can { CanOffer (offered offer.now) slots.now }
    requires outside { AllStandOutside (offered offer.now) asked slots.now wanted.now }
    requires free { AllByRecursion (MayTry slots.now) wanted.now }
    requires wanted { filter (may_take (offered offer.now) slots.now) wanted.now
        ≡ takers (offered offer.now) slots.now }
    requires few { length rows.old.items ≤ 8 }
    requires sound { AreSound rows.old.items }
    requires lead { LeadOn (offered offer.now) slots.now (rows_routes 0 rows.old.items) }
    requires free_left { AreOpen slots.now (rows_routes 0 rows.old.items) }

    ensures few { length rows.new.items ≤ 8 }
    ensures sound { AreSound rows.new.items }
    ensures free_left { AreOpen slots.now (rows_routes 0 rows.new.items) }
    ensures lasting { Lasts offer.now.number (rows_routes 0 rows.old.items) (rows_routes 0 rows.new.items) }
    ensures best { IfOk result (λ b. b ≡ least (new_matches (offered offer.now) slots.now ([] ∷ seen (offered offer.now)
        (rows_routes 0 rows.old.items)))) }
    ensures grows { IfOk result (λ b. b ≡ None → Grows (offered offer.now) slots.now (growing (offered offer.now)
        slots.now) (rows_routes 0 rows.old.items) (rows_routes 0 rows.new.items)) }
    ensures earned { IfOk result (λ b. b ≢ None → AreEarned (offered offer.now) slots.now
        (rows_routes 0 rows.new.items)) }
    ensures counted { count.new + length (rows_routes 0 rows.old.items)
        ≡ count.old + length (rows_routes 0 rows.new.items) }
    ensures stepped { steps.new ≤ steps.old + (length wanted.now + tries_behind (offered offer.now) slots.now
        (rows_routes 0 rows.old.items)) }
{
    let able = takers(offer, slots, asked, wanted, steps);
    if able.len() == 0 {
        return Ok(None);
    }
    let best = visit_each(alloc, offer, slots, &able, rows, count, steps)?;
    if best.is_some() {
        return Ok(best);
    }
    if !begin(alloc, offer, slots, &able, rows, count) {
        return Err(NoMemory);
    }
    Ok(None)
}

// Offers the number to a path, and to all that go on from it by the rows. No node is added for it at the path itself,
// so that none has to be taken out again where a row behind has the match.
#[cycle(visit)]
fn visit_each<L: Ledger>(
    alloc: Global,
    offer: &Offer<'_>,
    slots: &Slots,
    able: &Numbers,
    rows: &mut [Row],
    count: &mut u64,
    steps: &mut Steps<L>,
) -> Result<Option<Candidate>, NoMemory>
    requires can { CanOffer (offered offer.now) slots.now }
    requires able { able.now ≡ takers (offered offer.now) slots.now }
    requires few { length rows.old ≤ 8 }
    requires sound { AreSound rows.old }
    requires lead { LeadOn (offered offer.now) slots.now (rows_routes 0 rows.old) }
    requires free_left { AreOpen slots.now (rows_routes 0 rows.old) }

    ensures sound { AreSound rows.new }
    ensures less { OnOk result (AreLess offer.now.number rows.new) }
    ensures free_left { AreOpen slots.now (rows_routes 0 rows.new) }
    ensures lasting { Lasts offer.now.number (rows_routes 0 rows.old) (rows_routes 0 rows.new) }
    ensures best { IfOk result (λ b. b ≡ least (new_matches (offered offer.now) slots.now ([] ∷ seen (offered offer.now)
        (rows_routes 0 rows.old)))) }
    ensures grows { IfOk result (λ b. b ≡ None → Grows (offered offer.now) slots.now [] (rows_routes 0 rows.old)
        (rows_routes 0 rows.new)) }
    ensures earned { IfOk result (λ b. AreEarned (offered offer.now) slots.now (rows_routes 0 rows.new)) }
    ensures counted { count.new + length (rows_routes 0 rows.old) ≡ count.old + length (rows_routes 0 rows.new) }
    ensures stepped { steps.new ≤ steps.old + tries_behind (offered offer.now) slots.now (rows_routes 0 rows.old) }
{
    let mut best = best_match(offer, slots, able);
    for (place, row) in rows.iter_mut().enumerate() {
        let found = visit_row(alloc, offer, slots, place as u32, able, row, count, steps)?;
        best = better_found(best, found);
    }
    Ok(best)
}

// The better of two, where mostly there is no second one.
#[inline]
fn better_found(best: Option<Candidate>, found: Option<Candidate>) -> Option<Candidate>
    ensures { result ≡ lesser_of best found }
{
    if found.is_some() {
        return better(best, found);
    }
    best
}

// Whether the definition still sees a number.
fn sees(offer: &Offer<'_>, number: u32) -> bool
    ensures { result ≡ nat_le offer.now.oldest number }
{
    offer.oldest <= number
}

// Offers the number to the paths of a row's nodes. Most rows have none or one: these need no screen, which takes its
// time to make. Of the others many are those of the one pattern that may take the number: there nothing is wanted.
#[cycle(visit)]
fn visit_row<L: Ledger>(
    alloc: Global,
    offer: &Offer<'_>,
    slots: &Slots,
    pattern: u32,
    able: &Numbers,
    row: &mut Row,
    count: &mut u64,
    steps: &mut Steps<L>,
) -> Result<Option<Candidate>, NoMemory>
    requires can { CanOffer (offered offer.now) slots.now }
    requires able { able.now ≡ takers (offered offer.now) slots.now }
    requires sound { IsSoundRow row.old }
    requires lead { LeadOn (offered offer.now) slots.now (row_routes pattern row.old) }
    requires free_left { AreOpen slots.now (row_routes pattern row.old) }

    ensures sound { IsSoundRow row.new }
    ensures free_left { AreOpen slots.now (row_routes pattern row.new) }
    ensures numbers { map (λ node. node.number) row.new ≡ map (λ node. node.number) row.old }
    ensures lasting { Lasts offer.now.number (row_routes pattern row.old) (row_routes pattern row.new) }
    ensures best { IfOk result (λ b. b ≡ least (new_matches (offered offer.now) slots.now (seen (offered offer.now)
        (row_routes pattern row.old)))) }
    ensures grows { IfOk result (λ b. b ≡ None → Grows (offered offer.now) slots.now [] (row_routes pattern row.old)
        (row_routes pattern row.new)) }
    ensures earned { IfOk result (λ b. AreEarned (offered offer.now) slots.now (row_routes pattern row.new)) }
    ensures counted { count.new + length (row_routes pattern row.old)
        ≡ count.old + length (row_routes pattern row.new) }
    ensures stepped { steps.new ≤ steps.old + tries_behind (offered offer.now) slots.now (row_routes pattern row.old) }
{
    let end = row.len();
    if end == 0 {
        return Ok(None);
    }
    if is_only(able, pattern) {
        return Ok(None);
    }
    let wanted = without(able, pattern);
    if wanted.len() == 0 {
        return Ok(None);
    }
    if end == 1 {
        return visit_only(alloc, offer, slots, pattern, &wanted, row, count, steps);
    }
    visit_nodes(alloc, offer, slots, pattern, &wanted, row, count, steps)
}

// Offers the number to the path of the first node of a row, which has no other.
#[cycle(visit)]
fn visit_only<L: Ledger>(
    alloc: Global,
    offer: &Offer<'_>,
    slots: &Slots,
    pattern: u32,
    wanted: &Numbers,
    row: &mut Row,
    count: &mut u64,
    steps: &mut Steps<L>,
) -> Result<Option<Candidate>, NoMemory>
    requires can { CanOffer (offered offer.now) slots.now }
    requires wanted { wanted.now ≡ filter (λ p. not (p == pattern)) (takers (offered offer.now) slots.now) }
    requires some { 1 ≤ length wanted.now }
    requires one { length row.old ≡ 1 }
    requires sound { IsSoundRow row.old }
    requires lead { LeadOn (offered offer.now) slots.now (row_routes pattern row.old) }
    requires free_left { AreOpen slots.now (row_routes pattern row.old) }

    ensures sound { IsSoundRow row.new }
    ensures free_left { AreOpen slots.now (row_routes pattern row.new) }
    ensures numbers { map (λ node. node.number) row.new ≡ map (λ node. node.number) row.old }
    ensures lasting { Lasts offer.now.number (row_routes pattern row.old) (row_routes pattern row.new) }
    ensures best { IfOk result (λ b. b ≡ least (new_matches (offered offer.now) slots.now (seen (offered offer.now)
        (row_routes pattern row.old)))) }
    ensures grows { IfOk result (λ b. b ≡ None → Grows (offered offer.now) slots.now [] (row_routes pattern row.old)
        (row_routes pattern row.new)) }
    ensures earned { IfOk result (λ b. AreEarned (offered offer.now) slots.now (row_routes pattern row.new)) }
    ensures counted { count.new + length (row_routes pattern row.old)
        ≡ count.old + length (row_routes pattern row.new) }
    ensures stepped { steps.new ≤ steps.old + tries_behind (offered offer.now) slots.now (row_routes pattern row.old) }
{
    let number = row.number_at(0);
    if !sees(offer, number) {
        steps.tick();
        return Ok(None);
    }
    let longer = slots.with(pattern, number);
    let asked = offer.ties.naming(pattern);
    let found = visit_at(alloc, offer, &longer, asked, wanted, row, 0, count, steps)?;
    Ok(found)
}

// Offers the number to the paths of a row's nodes, in the order of their numbers, until a match is found. Those that
// aren't worth a visit are left out. One that was looked at for that counts a step, as the tries at it would.
#[cycle(visit)]
fn visit_nodes<L: Ledger>(
    alloc: Global,
    offer: &Offer<'_>,
    slots: &Slots,
    pattern: u32,
    wanted: &Numbers,
    row: &mut Row,
    count: &mut u64,
    steps: &mut Steps<L>,
) -> Result<Option<Candidate>, NoMemory>
    requires can { CanOffer (offered offer.now) slots.now }
    requires wanted { wanted.now ≡ filter (λ p. not (p == pattern)) (takers (offered offer.now) slots.now) }
    requires some { 1 ≤ length wanted.now }
    requires sound { IsSoundRow row.old }
    requires lead { LeadOn (offered offer.now) slots.now (row_routes pattern row.old) }
    requires free_left { AreOpen slots.now (row_routes pattern row.old) }

    ensures sound { IsSoundRow row.new }
    ensures free_left { AreOpen slots.now (row_routes pattern row.new) }
    ensures numbers { map (λ node. node.number) row.new ≡ map (λ node. node.number) row.old }
    ensures lasting { Lasts offer.now.number (row_routes pattern row.old) (row_routes pattern row.new) }
    ensures best { IfOk result (λ b. b ≡ least (new_matches (offered offer.now) slots.now (seen (offered offer.now)
        (row_routes pattern row.old)))) }
    ensures grows { IfOk result (λ b. b ≡ None → Grows (offered offer.now) slots.now [] (row_routes pattern row.old)
        (row_routes pattern row.new)) }
    ensures earned { IfOk result (λ b. AreEarned (offered offer.now) slots.now (row_routes pattern row.new)) }
    ensures counted { count.new + length (row_routes pattern row.old)
        ≡ count.old + length (row_routes pattern row.new) }
    ensures stepped { steps.new ≤ steps.old + tries_behind (offered offer.now) slots.now (row_routes pattern row.old) }
{
    let end = row.len();
    let screen = screen_of(offer, slots, pattern, wanted, end);
    let mut left = looked_up(offer, slots, pattern, wanted, &screen, row);
    let mut place = next_place(offer, slots, pattern, &screen, &mut left, row, 0, steps);
    while place < end {
        let longer = slots.with(pattern, row.number_at(place));
        let asked = left_to_ask(offer, pattern, &screen);
        let found = visit_at(
            alloc, offer, &longer, asked, wanted, row, place, count, steps,
        )?;
        if found.is_some() {
            return Ok(found);
        }
        place = next_place(
            offer,
            slots,
            pattern,
            &screen,
            &mut left,
            row,
            place + 1,
            steps,
        );
    }
    Ok(None)
}

// Offers the number to the path that ends at a node of a row, and to all that go on from it.
#[cycle(visit)]
#[inline(always)]
fn visit_at<L: Ledger>(
    alloc: Global,
    offer: &Offer<'_>,
    slots: &Slots,
    asked: PlaceSet,
    wanted: &Numbers,
    row: &mut Row,
    place: usize,
    count: &mut u64,
    steps: &mut Steps<L>,
) -> Result<Option<Candidate>, NoMemory>
    requires can { CanOffer (offered offer.now) slots.now }
    requires outside { AllStandOutside (offered offer.now) asked slots.now wanted.now }
    requires free { AllByRecursion (MayTry slots.now) wanted.now }
    requires wanted { filter (may_take (offered offer.now) slots.now) wanted.now
        ≡ takers (offered offer.now) slots.now }
    requires within { place < length row.old }
    requires ordered { IsOrderedNode (node_at row.old place) }
    requires lead { LeadOn (offered offer.now) slots.now (node_at row.old place).routes }
    requires free_left { AreOpen slots.now (node_at row.old place).routes }

    ensures placed { row.new ≡ slice_set row.old place (node_at row.new place) }
    ensures number { (node_at row.new place).number ≡ (node_at row.old place).number }
    ensures ordered { IsOrderedNode (node_at row.new place) }
    ensures free_left { AreOpen slots.now (node_at row.new place).routes }
    ensures lasting { Lasts offer.now.number (node_at row.old place).routes (node_at row.new place).routes }
    ensures best { IfOk result (λ b. b ≡ least (new_matches (offered offer.now) slots.now ([] ∷ seen (offered offer.now)
        (node_at row.old place).routes))) }
    ensures grows { IfOk result (λ b. b ≡ None → Grows (offered offer.now) slots.now (growing (offered offer.now)
        slots.now) (node_at row.old place).routes (node_at row.new place).routes) }
    ensures counted { count.new + length (node_at row.old place).routes
        ≡ count.old + length (node_at row.new place).routes }
    ensures stepped { steps.new ≤ steps.old + (length wanted.now + tries_behind (offered offer.now) slots.now
        (node_at row.old place).routes) }
{
    match &mut row.nodes {
        Nodes::Empty => Ok(None),
        Nodes::One(_) => visit_leaf_at(
            alloc, offer, slots, asked, wanted, row, place, count, steps,
        ),
        Nodes::Leaves(_) => visit_leaf_at(
            alloc, offer, slots, asked, wanted, row, place, count, steps,
        ),
        Nodes::Many(_) => visit_leaf_at(
            alloc, offer, slots, asked, wanted, row, place, count, steps,
        ),
        Nodes::Mixed(nodes) => {
            let node = &mut nodes[place];
            visit_node(alloc, offer, slots, asked, wanted, node, count, steps)
        }
    }
}

// Offers the number to the path that ends at the node, and to all that go on from it.
#[cycle(visit)]
#[inline(always)]
fn visit_node<L: Ledger>(
    alloc: Global,
    offer: &Offer<'_>,
    slots: &Slots,
    asked: PlaceSet,
    wanted: &Numbers,
    node: &mut Node,
    count: &mut u64,
    steps: &mut Steps<L>,
) -> Result<Option<Candidate>, NoMemory>
    requires can { CanOffer (offered offer.now) slots.now }
    requires outside { AllStandOutside (offered offer.now) asked slots.now wanted.now }
    requires free { AllByRecursion (MayTry slots.now) wanted.now }
    requires wanted { filter (may_take (offered offer.now) slots.now) wanted.now
        ≡ takers (offered offer.now) slots.now }
    requires ordered { IsOrderedNode node.old }
    requires lead { LeadOn (offered offer.now) slots.now node.old.routes }
    requires free_left { AreOpen slots.now node.old.routes }

    ensures number { node.new.number ≡ node.old.number }
    ensures ordered { IsOrderedNode node.new }
    ensures free_left { AreOpen slots.now node.new.routes }
    ensures lasting { Lasts offer.now.number node.old.routes node.new.routes }
    ensures best { IfOk result (λ b. b ≡ least (new_matches (offered offer.now) slots.now ([] ∷ seen (offered offer.now)
        node.old.routes))) }
    ensures grows { IfOk result (λ b. b ≡ None → Grows (offered offer.now) slots.now (growing (offered offer.now)
        slots.now) node.old.routes node.new.routes) }
    ensures counted { count.new + length node.old.routes ≡ count.old + length node.new.routes }
    ensures stepped { steps.new ≤ steps.old + (length wanted.now + tries_behind (offered offer.now) slots.now
        node.old.routes) }
{
    match &mut node.shape {
        Shape::Leaf(_) => {
            let AtLeaf { best, rows } = visit_leaf(
                alloc, offer, slots, asked, wanted, count, steps,
            )?;
            if let Some(rows) = rows {
                node.put_behind(rows);
            }
            Ok(best)
        }
        Shape::Inner(_, rows) => visit_rows(alloc, offer, slots, asked, wanted, rows, count, steps),
    }
}
