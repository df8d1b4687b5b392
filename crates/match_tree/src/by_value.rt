//! Leaving out the routes that take some numbers, where few nodes have one of them behind them: a number stands behind
//! a node of a first row only if it could be taken there. These nodes are looked up in the index, the others passed by.
ghost use Rattle.std.specs.Prelude.{◌≡◌, ◌≢◌, ◌+◌, ◌^◌, ◌<◌, ◌≤◌, ◌++◌, ◌∷◌, ◌&&◌, [], ℕ, length, map, nat_lt, replicate, None, true, false, IfSome, IfNone, if◌then◌else◌};
ghost use Rattle.std.specs.List.{filter, AllByRecursion};
ghost use Rattle.guard_eval.specs.Meaning.{Assignment};
ghost use Rattle.pattern_core.specs.Members.{IsIn};
ghost use Rattle.pattern_core.specs.Suits.{IsRecorded};
ghost use Rattle.value_index.specs.ValueRange.{Ascend};
ghost use Rattle.tree_rows.specs.Routes.{node_routes, rows_routes, row_routes, lacks, with_number};
ghost use Rattle.row_screens.specs.Offers.{may_take};
ghost use Rattle.row_screens.specs.Offering.{offered, CanOffer, LeadOn};
ghost use Rattle.tree_rows.specs.Order.{IsSoundRow, AreSound};
ghost use Rattle.tree_rows.specs.Pruned.{AreShort, NodesRise, pruned};
ghost use Rattle.match_tree.specs.Thinned.{AreVisited, IsBarred, IsGuarded, IsThinned, NodesContinuePath};

use join_base::{Numbers, Slots};
use pattern_core::has_kind;
use row_screens::{FEWEST, Offer, found_at};
use std::collections::VecDeque;
use tree_rows::{Node, Nodes, Row, place_of_node, prune_node, prune_nodes, remove_numbers};
use value_index::ValueRange;

// How many routes went, and whether all went that take the number.
#[derive(Clone, Copy)]
struct Thinned {
    gone: u64,
    all: bool,
}

// Leaves out the routes behind the node with a number, if there is one.
fn prune_at(nodes: &mut VecDeque<Node>, at: u32, numbers: &Numbers, levels: usize) -> u64
    requires few { length (row_routes 0 nodes.old.items) < 2 ^ 64 }
    requires sound { IsSoundRow nodes.old.items }
    requires short { AllByRecursion (λ node. AreShort levels node.routes) nodes.old.items }
    requires rising { NodesRise nodes.old.items }
    ensures left { IsThinned numbers.now (λ n. n ≢ at) nodes.old.items nodes.new.items }
    ensures gone { result + length (row_routes 0 nodes.new.items) ≡ length (row_routes 0 nodes.old.items) }
{
    match place_of_node(nodes, at) {
        None => 0,
        Some(place) => prune_node(&mut nodes[place], numbers, levels),
    }
}

// Leaves out the routes behind the nodes with numbers that are found, up to the limit.
fn prune_found(
    nodes: &mut VecDeque<Node>,
    left: &mut ValueRange<'_>,
    limit: u32,
    numbers: &Numbers,
    levels: usize,
) -> u64
    requires few { length (row_routes 0 nodes.old.items) < 2 ^ 64 }
    requires sound { IsSoundRow nodes.old.items }
    requires short { AllByRecursion (λ node. AreShort levels node.routes) nodes.old.items }
    requires rising { NodesRise nodes.old.items }
    requires ascend { Ascend left.old }
    ensures left { IsThinned numbers.now (λ n. n < limit → ¬ IsIn n left.old) nodes.old.items nodes.new.items }
    ensures gone { result + length (row_routes 0 nodes.new.items) ≡ length (row_routes 0 nodes.old.items) }
{
    let mut gone = 0;
    while let Some(at) = left.next() {
        if at >= limit {
            return gone;
        }
        gone += prune_at(nodes, at, numbers, levels);
    }
    gone
}

// Leaves out the routes that take the offered number at another pattern, behind the nodes of this one, where these are
// looked up by that.
fn prune_pair(
    offer: &Offer<'_>,
    slots: &Slots,
    pattern: u32,
    other: u32,
    nodes: &mut VecDeque<Node>,
    levels: usize,
) -> Option<u64>
    requires can { CanOffer (offered offer.now) slots.now }
    requires guarded { AllByRecursion (IsGuarded (offered offer.now) slots.now pattern) nodes.old.items }
    requires rising { NodesRise nodes.old.items }
    requires few { length (row_routes 0 nodes.old.items) < 2 ^ 64 }
    requires sound { IsSoundRow nodes.old.items }
    requires short { AllByRecursion (λ node. AreShort levels node.routes) nodes.old.items }
    ensures same { IfNone result (nodes.new.items ≡ nodes.old.items) }
    ensures left { IfSome result (λ gone. IsThinned (offer.now.number ∷ []) (IsBarred (offered offer.now) slots.now
        pattern other) nodes.old.items nodes.new.items) }
    ensures gone { IfSome result (λ gone. gone + length (row_routes 0 nodes.new.items)
        ≡ length (row_routes 0 nodes.old.items)) }
{
    let mut left = found_at(offer, slots, pattern, other, nodes.len())?;
    let mut one = Numbers::new();
    one.push(offer.number);
    Some(prune_found(nodes, &mut left, offer.number, &one, levels))
}

// Whether the offered number could stand at the other pattern behind a node of this one.
fn is_wanted(offer: &Offer<'_>, pattern: u32, other: u32) -> bool
    requires within { other < length offer.now.definition.now.patterns }
    requires recorded { IsRecorded offer.now.messages.now offer.now.number }
    ensures { result ≡ false → (slots : Assignment) (number : ℕ)
        → may_take (offered offer.now) (with_number slots pattern number) other ≡ false }
{
    if other == pattern {
        return false;
    }
    let kind = *offer.definition.patterns.at(other as usize);
    has_kind(offer.messages, offer.number, kind)
}

// The same, and nothing where the number could not stand at the other pattern.
fn prune_other(
    offer: &Offer<'_>,
    slots: &Slots,
    pattern: u32,
    other: u32,
    nodes: &mut VecDeque<Node>,
    levels: usize,
) -> Option<u64>
    requires within { other < length offer.now.definition.now.patterns }
    requires can { CanOffer (offered offer.now) slots.now }
    requires guarded { AllByRecursion (IsGuarded (offered offer.now) slots.now pattern) nodes.old.items }
    requires rising { NodesRise nodes.old.items }
    requires few { length (row_routes 0 nodes.old.items) < 2 ^ 64 }
    requires sound { IsSoundRow nodes.old.items }
    requires short { AllByRecursion (λ node. AreShort levels node.routes) nodes.old.items }
    ensures same { IfNone result (nodes.new.items ≡ nodes.old.items) }
    ensures left { IfSome result (λ gone. IsThinned (offer.now.number ∷ []) (IsBarred (offered offer.now) slots.now
        pattern other) nodes.old.items nodes.new.items) }
    ensures gone { IfSome result (λ gone. gone + length (row_routes 0 nodes.new.items)
        ≡ length (row_routes 0 nodes.old.items)) }
{
    if !is_wanted(offer, pattern, other) {
        return Some(0);
    }
    prune_pair(offer, slots, pattern, other, nodes, levels)
}

// Leaves out the routes that take the offered number behind the nodes of a pattern: all of them, unless another pattern
// is not looked up.
fn prune_offered(
    offer: &Offer<'_>,
    slots: &Slots,
    pattern: u32,
    nodes: &mut VecDeque<Node>,
    levels: usize,
) -> Thinned
    requires can { CanOffer (offered offer.now) slots.now }
    requires guarded { AllByRecursion (IsGuarded (offered offer.now) slots.now pattern) nodes.old.items }
    requires rising { NodesRise nodes.old.items }
    requires few { length (row_routes 0 nodes.old.items) < 2 ^ 64 }
    requires sound { IsSoundRow nodes.old.items }
    requires short { AllByRecursion (λ node. AreShort levels node.routes) nodes.old.items }
    ensures left { IsThinned (offer.now.number ∷ []) (λ n. result.all ≡ false) nodes.old.items nodes.new.items }
    ensures gone { result.gone + length (row_routes 0 nodes.new.items) ≡ length (row_routes 0 nodes.old.items) }
{
    let mut gone = 0;
    for other in 0..offer.definition.patterns.len() as u32 {
        match prune_other(offer, slots, pattern, other, nodes, levels) {
            None => return Thinned { gone, all: false },
            Some(more) => gone += more,
        }
    }
    Thinned { gone, all: true }
}

// The same for a number that is recorded before the offered one.
fn prune_number(
    offer: &Offer<'_>,
    slots: &Slots,
    pattern: u32,
    nodes: &mut VecDeque<Node>,
    number: u32,
    levels: usize,
) -> Thinned
    requires empty { slots.now ≡ replicate (length offer.now.definition.now.patterns) None }
    requires can { CanOffer (offered offer.now) slots.now }
    requires recorded { IsRecorded offer.now.messages.now number }
    requires go_on { NodesContinuePath (offered offer.now) slots.now pattern nodes.old.items }
    requires few { length (row_routes 0 nodes.old.items) < 2 ^ 64 }
    requires sound { IsSoundRow nodes.old.items }
    requires short { AllByRecursion (λ node. AreShort levels node.routes) nodes.old.items }
    ensures left { IsThinned (number ∷ []) (λ n. result.all ≡ false) nodes.old.items nodes.new.items }
    ensures gone { result.gone + length (row_routes 0 nodes.new.items) ≡ length (row_routes 0 nodes.old.items) }
{
    let taken = Offer {
        messages: offer.messages,
        index: offer.index,
        definition: offer.definition,
        ties: offer.ties,
        rule: offer.rule,
        number,
        oldest: offer.oldest,
    };
    prune_offered(&taken, slots, pattern, nodes, levels)
}

// Adds a number, unless all routes that take it have gone.
fn add_unless(all: bool, others: &mut Numbers, number: u32)
    requires few { length others.old < 8 }
    ensures { others.new ≡ (if all then others.old else others.old ++ number ∷ []) }
{
    if !all {
        others.push(number);
    }
}

// Leaves out the routes that take one of the numbers behind the nodes of a pattern: by look-ups, and else by a walk.
fn prune_mixed(
    offer: &Offer<'_>,
    slots: &Slots,
    pattern: u32,
    nodes: &mut VecDeque<Node>,
    numbers: &Numbers,
    levels: usize,
) -> u64
    requires empty { slots.now ≡ replicate (length offer.now.definition.now.patterns) None }
    requires can { CanOffer (offered offer.now) slots.now }
    requires recorded { AllByRecursion (IsRecorded offer.now.messages.now) numbers.now }
    requires go_on { NodesContinuePath (offered offer.now) slots.now pattern nodes.old.items }
    requires few { length (row_routes 0 nodes.old.items) < 2 ^ 64 }
    requires sound { IsSoundRow nodes.old.items }
    requires short { AllByRecursion (λ node. AreShort levels node.routes) nodes.old.items }
    ensures left { nodes.new.items ≡ map (pruned numbers.now) nodes.old.items }
    ensures gone { result + length (row_routes 0 nodes.new.items) ≡ length (row_routes 0 nodes.old.items) }
{
    if nodes.len() < FEWEST {
        return prune_nodes(nodes, numbers, levels);
    }
    let mut others = Numbers::new();
    let mut gone = 0;
    for number in numbers.as_slice() {
        let thinned = prune_number(offer, slots, pattern, nodes, *number, levels);
        gone += thinned.gone;
        add_unless(thinned.all, &mut others, *number);
    }
    if others.len() == 0 {
        return gone;
    }
    gone + prune_nodes(nodes, &others, levels)
}

// Leaves out the routes that take one of the numbers behind the nodes of a pattern's row.
fn prune_behind_values(
    offer: &Offer<'_>,
    slots: &Slots,
    pattern: u32,
    row: &mut Row,
    numbers: &Numbers,
    levels: usize,
) -> u64
    requires empty { slots.now ≡ replicate (length offer.now.definition.now.patterns) None }
    requires can { CanOffer (offered offer.now) slots.now }
    requires recorded { AllByRecursion (IsRecorded offer.now.messages.now) numbers.now }
    requires go_on { NodesContinuePath (offered offer.now) slots.now pattern row.old }
    requires few { length (row_routes 0 row.old) < 2 ^ 64 }
    requires sound { IsSoundRow row.old }
    requires short { AllByRecursion (λ node. AreShort levels node.routes) row.old }
    ensures left { row.new ≡ map (pruned numbers.now) row.old }
    ensures gone { result + length (row_routes 0 row.new) ≡ length (row_routes 0 row.old) }
{
    match &mut row.nodes {
        Nodes::Empty => 0,
        Nodes::One(_) => 0,
        Nodes::Leaves(_) => 0,
        Nodes::Many(_) => 0,
        Nodes::Mixed(nodes) => prune_mixed(offer, slots, pattern, nodes, numbers, levels),
    }
}

// Leaves out the routes that take one of the numbers, of those that begin at a pattern.
fn prune_pattern(
    offer: &Offer<'_>,
    slots: &Slots,
    pattern: u32,
    row: &mut Row,
    numbers: &Numbers,
    levels: usize,
) -> u64
    requires empty { slots.now ≡ replicate (length offer.now.definition.now.patterns) None }
    requires can { CanOffer (offered offer.now) slots.now }
    requires recorded { AllByRecursion (IsRecorded offer.now.messages.now) numbers.now }
    requires lead { LeadOn (offered offer.now) slots.now (row_routes pattern row.old) }
    requires few { length (row_routes 0 row.old) < 2 ^ 64 }
    requires sound { IsSoundRow row.old }
    requires short { AreShort levels (row_routes 0 row.old) }
    ensures left { (p : ℕ) → row_routes p row.new ≡ filter (lacks numbers.now) (row_routes p row.old) }
    ensures gone { result + length (row_routes 0 row.new) ≡ length (row_routes 0 row.old) }
{
    if row.len() == 0 {
        return 0;
    }
    let gone = remove_numbers(row, numbers, levels);
    if levels <= 1 {
        return gone;
    }
    gone + prune_behind_values(offer, slots, pattern, row, numbers, levels - 1)
}

// Whether a route may take the number, where each of its numbers is below the limit.
fn may_stand(number: u32, limit: u32) -> bool
    ensures { result ≡ (nat_lt 0 number && nat_lt number limit) }
{
    0 < number && number < limit
}

// Those of the numbers that a route may take.
fn standing(numbers: &Numbers, limit: u32) -> Numbers
    ensures { result ≡ filter (λ n. nat_lt 0 n && nat_lt n limit) numbers.now }
{
    let mut found = Numbers::new();
    for number in numbers.as_slice() {
        if may_stand(*number, limit) {
            found.push(*number);
        }
    }
    found
}

// Leaves out the routes that take one of the recorded numbers.
fn prune_each(
    offer: &Offer<'_>,
    slots: &Slots,
    rows: &mut [Row],
    numbers: &Numbers,
    levels: usize,
) -> u64
    requires empty { slots.now ≡ replicate (length offer.now.definition.now.patterns) None }
    requires can { CanOffer (offered offer.now) slots.now }
    requires recorded { AllByRecursion (IsRecorded offer.now.messages.now) numbers.now }
    requires lead { LeadOn (offered offer.now) slots.now (rows_routes 0 rows.old) }
    requires patterns { length rows.old ≤ 8 }
    requires few { length (rows_routes 0 rows.old) < 2 ^ 64 }
    requires sound { AreSound rows.old }
    requires short { AreShort levels (rows_routes 0 rows.old) }
    ensures left { rows_routes 0 rows.new ≡ filter (lacks numbers.now) (rows_routes 0 rows.old) }
    ensures gone { result + length (rows_routes 0 rows.new) ≡ length (rows_routes 0 rows.old) }
{
    let mut gone = 0;
    for (place, row) in rows.iter_mut().enumerate() {
        gone += prune_pattern(offer, slots, place as u32, row, numbers, levels);
    }
    gone
}

/// Leaves out the routes that take one of the numbers. The answer is how many they were. Each number of a route is
/// below the offered one, and no route has more steps than there are levels.
pub fn prune_values(offer: &Offer<'_>, rows: &mut [Row], numbers: &Numbers, levels: usize) -> u64
    requires can { CanOffer (offered offer.now) (replicate (length offer.now.definition.now.patterns) None) }
    requires lead { LeadOn (offered offer.now) (replicate (length offer.now.definition.now.patterns) None)
        (rows_routes 0 rows.old) }
    requires some { 1 ≤ length offer.now.definition.now.patterns }
    requires many { length offer.now.definition.now.patterns ≤ 8 }
    requires patterns { length rows.old ≤ 8 }
    requires few { length (rows_routes 0 rows.old) < 2 ^ 64 }
    requires sound { AreSound rows.old }
    requires short { AreShort levels (rows_routes 0 rows.old) }
    ensures left { rows_routes 0 rows.new ≡ filter (lacks numbers.now) (rows_routes 0 rows.old) }
    ensures gone { result + length (rows_routes 0 rows.new) ≡ length (rows_routes 0 rows.old) }
{
    let slots = Slots::new(offer.definition.patterns.len() as u32);
    let those = standing(numbers, offer.number);
    prune_each(offer, &slots, rows, &those, levels)
}

// Leaves out the routes that take one number behind nodes, by a walk.
fn walk_back(nodes: &mut VecDeque<Node>, number: u32, levels: usize) -> u64
    requires few { length (row_routes 0 nodes.old.items) < 2 ^ 64 }
    requires sound { IsSoundRow nodes.old.items }
    requires short { AllByRecursion (λ node. AreShort levels node.routes) nodes.old.items }
    requires rising { NodesRise nodes.old.items }
    ensures left { nodes.new.items ≡ map (pruned (number ∷ [])) nodes.old.items }
    ensures gone { result + length (row_routes 0 nodes.new.items) ≡ length (row_routes 0 nodes.old.items) }
{
    let mut one = Numbers::new();
    one.push(number);
    prune_nodes(nodes, &one, levels)
}

// Takes the offered number back behind the nodes of a pattern: by look-ups, and else by a walk.
fn take_back_nodes(
    offer: &Offer<'_>,
    slots: &Slots,
    pattern: u32,
    nodes: &mut VecDeque<Node>,
    levels: usize,
) -> u64
    requires can { CanOffer (offered offer.now) slots.now }
    requires visited { AllByRecursion (λ node. AreVisited (offered offer.now) slots.now (node_routes pattern node))
        nodes.old.items }
    requires few { length (row_routes 0 nodes.old.items) < 2 ^ 64 }
    requires sound { IsSoundRow nodes.old.items }
    requires short { AllByRecursion (λ node. AreShort levels node.routes) nodes.old.items }
    ensures left { nodes.new.items ≡ map (pruned (offer.now.number ∷ [])) nodes.old.items }
    ensures gone { result + length (row_routes 0 nodes.new.items) ≡ length (row_routes 0 nodes.old.items) }
{
    if nodes.len() < FEWEST {
        return walk_back(nodes, offer.number, levels);
    }
    let thinned = prune_offered(offer, slots, pattern, nodes, levels);
    if thinned.all {
        return thinned.gone;
    }
    thinned.gone + walk_back(nodes, offer.number, levels)
}

// Takes the offered number back behind the nodes of a pattern's row.
fn take_back_behind(
    offer: &Offer<'_>,
    slots: &Slots,
    pattern: u32,
    row: &mut Row,
    levels: usize,
) -> u64
    requires can { CanOffer (offered offer.now) slots.now }
    requires visited { AllByRecursion (λ node. AreVisited (offered offer.now) slots.now (node_routes pattern
        node)) row.old }
    requires few { length (row_routes 0 row.old) < 2 ^ 64 }
    requires sound { IsSoundRow row.old }
    requires short { AllByRecursion (λ node. AreShort levels node.routes) row.old }
    ensures left { row.new ≡ map (pruned (offer.now.number ∷ [])) row.old }
    ensures gone { result + length (row_routes 0 row.new) ≡ length (row_routes 0 row.old) }
{
    match &mut row.nodes {
        Nodes::Empty => 0,
        Nodes::One(_) => 0,
        Nodes::Leaves(_) => 0,
        Nodes::Many(_) => 0,
        Nodes::Mixed(nodes) => take_back_nodes(offer, slots, pattern, nodes, levels),
    }
}

// Takes the offered number back from the routes that begin at a pattern.
fn take_back_row(
    offer: &Offer<'_>,
    slots: &Slots,
    pattern: u32,
    row: &mut Row,
    levels: usize,
) -> u64
    requires can { CanOffer (offered offer.now) slots.now }
    requires visited { AreVisited (offered offer.now) slots.now (row_routes pattern row.old) }
    requires few { length (row_routes 0 row.old) < 2 ^ 64 }
    requires sound { IsSoundRow row.old }
    requires short { AreShort levels (row_routes 0 row.old) }
    ensures left { (p : ℕ) → row_routes p row.new ≡ filter (lacks (offer.now.number ∷ [])) (row_routes p row.old) }
    ensures gone { result + length (row_routes 0 row.new) ≡ length (row_routes 0 row.old) }
{
    if row.len() == 0 {
        return 0;
    }
    let mut one = Numbers::new();
    one.push(offer.number);
    let gone = remove_numbers(row, &one, levels);
    if levels <= 1 {
        return gone;
    }
    gone + take_back_behind(offer, slots, pattern, row, levels - 1)
}

/// Leaves out the routes that take the offered number, of those that a visit with it has left where it found a match.
/// The answer is how many they were. No route has more steps than there are levels.
pub fn take_back(offer: &Offer<'_>, slots: &Slots, rows: &mut [Row], levels: usize) -> u64
    requires can { CanOffer (offered offer.now) slots.now }
    requires visited { AreVisited (offered offer.now) slots.now (rows_routes 0 rows.old) }
    requires patterns { length rows.old ≤ 8 }
    requires few { length (rows_routes 0 rows.old) < 2 ^ 64 }
    requires sound { AreSound rows.old }
    requires short { AreShort levels (rows_routes 0 rows.old) }
    ensures left { rows_routes 0 rows.new ≡ filter (lacks (offer.now.number ∷ [])) (rows_routes 0 rows.old) }
    ensures gone { result + length (rows_routes 0 rows.new) ≡ length (rows_routes 0 rows.old) }
{
    let mut gone = 0;
    for (place, row) in rows.iter_mut().enumerate() {
        gone += take_back_row(offer, slots, place as u32, row, levels);
    }
    gone
}
