//! The numbers of a row that have the key's value, one after the other.
ghost use Rattle.std.specs.Prelude.{◌≡◌, ◌+◌, ◌≤◌, ◌++◌, length, map, Some};
ghost use Rattle.tree_rows.specs.RowNumbers.{numbers_in};
ghost use Rattle.row_screens.specs.Screen.{AreLacking, passes};

use crate::screen::Key;
use guard_bound::int_at;
use join_base::{Message, Steps};
use std::collections::VecDeque;
use std::sync::ledger::Ledger;
use tiered_vec::TieredVec;
use tree_rows::{Node, RowNumbers};

/// Whether the number has the key's value. It stands in the loops over waiting messages.
#[inline(always)]
pub fn has_value(messages: &[Message], key: Key, number: u32) -> bool
    ensures { result ≡ passes messages.now (Some key) number }
{
    int_at(messages, number, key.field) == key.value
}

// The first place from this one on whose number has the key's value, or the end. Each number that is passed over
// counts.
fn find_in<L: Ledger>(
    messages: &[Message],
    key: Key,
    leaves: &[u32],
    from: usize,
    steps: &mut Steps<L>,
) -> usize
    requires { from ≤ length leaves.now }
    ensures from { from ≤ result }
    ensures within { result ≤ length leaves.now }
    ensures lacking { AreLacking messages.now (Some key) leaves.now from result }
    ensures counted { steps.new + from ≡ steps.old + result }
{
    for place in from..leaves.len() {
        if has_value(messages, key, leaves[place]) {
            return place;
        }
        steps.tick();
    }
    leaves.len()
}

// The same in two slices, one behind the other: this is the loop over waiting messages, and one slice is read faster.
fn find_leaf<L: Ledger>(
    messages: &[Message],
    key: Key,
    front: &[u32],
    back: &[u32],
    from: usize,
    steps: &mut Steps<L>,
) -> usize
    requires { from ≤ length (front.now ++ back.now) }
    ensures from { from ≤ result }
    ensures within { result ≤ length (front.now ++ back.now) }
    ensures lacking { AreLacking messages.now (Some key) (front.now ++ back.now) from result }
    ensures counted { steps.new + from ≡ steps.old + result }
{
    if from >= front.len() {
        return front.len() + find_in(messages, key, back, from - front.len(), steps);
    }
    let place = find_in(messages, key, front, from, steps);
    if place < front.len() {
        return place;
    }
    front.len() + find_in(messages, key, back, 0, steps)
}

// The same in tiers.
fn find_in_tiers<L: Ledger>(
    messages: &[Message],
    key: Key,
    leaves: &TieredVec,
    from: usize,
    steps: &mut Steps<L>,
) -> usize
    requires { from ≤ length leaves.now }
    ensures from { from ≤ result }
    ensures within { result ≤ length leaves.now }
    ensures lacking { AreLacking messages.now (Some key) leaves.now from result }
    ensures counted { steps.new + from ≡ steps.old + result }
{
    for place in from..leaves.len() {
        if has_value(messages, key, leaves.at(place)) {
            return place;
        }
        steps.tick();
    }
    leaves.len()
}

// The same among nodes.
fn find_node<L: Ledger>(
    messages: &[Message],
    key: Key,
    nodes: &VecDeque<Node>,
    from: usize,
    steps: &mut Steps<L>,
) -> usize
    requires { from ≤ length nodes.now.items }
    ensures from { from ≤ result }
    ensures within { result ≤ length nodes.now.items }
    ensures lacking { AreLacking messages.now (Some key) (map (λ node. node.number) nodes.now.items) from result }
    ensures counted { steps.new + from ≡ steps.old + result }
{
    for place in from..nodes.len() {
        if has_value(messages, key, nodes[place].number()) {
            return place;
        }
        steps.tick();
    }
    nodes.len()
}

/// The first place from this one on whose number in the row has the key's value, or the end, where there is a key.
/// Without one each place will do, and a call would cost more than the test at it.
#[inline(always)]
pub fn with_key<L: Ledger>(
    messages: &[Message],
    key: Option<Key>,
    numbers: &RowNumbers<'_>,
    from: usize,
    steps: &mut Steps<L>,
) -> usize
    requires { from ≤ length (numbers_in numbers.now) }
    ensures from { from ≤ result }
    ensures within { result ≤ length (numbers_in numbers.now) }
    ensures lacking { AreLacking messages.now key (numbers_in numbers.now) from result }
    ensures counted { steps.new + from ≡ steps.old + result }
{
    match key {
        None => from,
        Some(key) => find_key(messages, key, numbers, from, steps),
    }
}

fn find_key<L: Ledger>(
    messages: &[Message],
    key: Key,
    numbers: &RowNumbers<'_>,
    from: usize,
    steps: &mut Steps<L>,
) -> usize
    requires { from ≤ length (numbers_in numbers.now) }
    ensures from { from ≤ result }
    ensures within { result ≤ length (numbers_in numbers.now) }
    ensures lacking { AreLacking messages.now (Some key) (numbers_in numbers.now) from result }
    ensures counted { steps.new + from ≡ steps.old + result }
{
    match numbers {
        RowNumbers::Leaves(front, back) => find_leaf(messages, key, front, back, from, steps),
        RowNumbers::Many(leaves) => find_in_tiers(messages, key, leaves, from, steps),
        RowNumbers::Nodes(nodes) => find_node(messages, key, nodes, from, steps),
    }
}
