//! Leaving nodes out, and counting them.
ghost use Rattle.std.specs.Prelude.{◌≡◌, ◌+◌, ◌^◌, ◌<◌, ◌≤◌, ℕ, length, map, true};
ghost use Rattle.std.specs.List.{filter, remove, AllByRecursion};
ghost use Rattle.tree_rows.specs.Routes.{rows_routes, row_routes, lacks};
ghost use Rattle.tree_rows.specs.Order.{IsOrderedNode, IsSoundRow, AreSound};
ghost use Rattle.tree_rows.specs.Pruned.{AreRising, AreShort, NodesRise, RiseFrom, pruned, without_number, without_numbers};

use crate::node::{Node, Shape};
use crate::row::{Nodes, Row};
use join_base::Numbers;
use std::collections::VecDeque;

// How many routes the rows have, none of which has more steps than there are levels.
#[cycle(count)]
pub fn count_rows(rows: &[Row], levels: usize) -> u64
    requires few { length (rows_routes 0 rows.now) < 2 ^ 64 }
    requires sound { AreSound rows.now }
    requires short { AreShort levels (rows_routes 0 rows.now) }
    ensures { result ≡ length (rows_routes 0 rows.now) }
{
    let mut count = 0;
    for row in rows {
        count += count_row(row, levels);
    }
    count
}

// How many routes begin at the nodes of a row. Nothing is behind those of the last level.
#[cycle(count)]
fn count_row(row: &Row, levels: usize) -> u64
    requires few { length (row_routes 0 row.now) < 2 ^ 64 }
    requires sound { IsSoundRow row.now }
    requires short { AreShort levels (row_routes 0 row.now) }
    ensures { result ≡ length (row_routes 0 row.now) }
{
    if levels <= 1 {
        return row.len() as u64;
    }
    match &row.nodes {
        Nodes::Empty => 0,
        Nodes::One(_) => 1,
        Nodes::Leaves(leaves) => leaves.len() as u64,
        Nodes::Many(leaves) => leaves.len() as u64,
        Nodes::Mixed(nodes) => count_nodes(nodes, levels - 1),
    }
}

// How many routes begin at the nodes, where none that leads on from one has more steps than there are levels.
#[cycle(count)]
fn count_nodes(nodes: &VecDeque<Node>, levels: usize) -> u64
    requires few { length (row_routes 0 nodes.now.items) < 2 ^ 64 }
    requires ordered { AllByRecursion IsOrderedNode nodes.now.items }
    requires short { AllByRecursion (λ node. AreShort levels node.routes) nodes.now.items }
    ensures { result ≡ length (row_routes 0 nodes.now.items) }
{
    let mut count = 0;
    for place in 0..nodes.len() {
        count += 1 + count_node(&nodes[place], levels);
    }
    count
}

// How many routes lead on from the node.
#[cycle(count)]
fn count_node(node: &Node, levels: usize) -> u64
    requires few { length node.now.routes < 2 ^ 64 }
    requires ordered { IsOrderedNode node.now }
    requires short { AreShort levels node.now.routes }
    ensures { result ≡ length node.now.routes }
{
    match &node.shape {
        Shape::Leaf(_) => 0,
        Shape::Inner(_, rows) => count_rows(rows, levels),
    }
}

// Takes the node at a place out. The answer is how many routes went with it.
fn remove_node(nodes: &mut VecDeque<Node>, place: usize, levels: usize) -> u64
    requires within { place < length nodes.old.items }
    requires ordered { AllByRecursion IsOrderedNode nodes.old.items }
    requires few { length (row_routes 0 nodes.old.items) < 2 ^ 64 }
    requires short { AreShort levels (row_routes 0 nodes.old.items) }
    ensures left { nodes.new.items ≡ remove nodes.old.items place }
    ensures gone { result + length (row_routes 0 nodes.new.items) ≡ length (row_routes 0 nodes.old.items) }
{
    let Some(node) = nodes.remove(place) else {
        return 0;
    };
    1 + count_node(&node, levels - 1)
}

// Takes the number at a place out of leaves. Mostly it is the last, where none moves.
fn remove_leaf(leaves: &mut VecDeque<u32>, place: usize)
    requires within { place < length leaves.old.items }
    ensures { leaves.new.items ≡ remove leaves.old.items place }
{
    if place + 1 == leaves.len() {
        let _ = leaves.pop_back();
        return;
    }
    let _ = leaves.remove(place);
}

/// Takes the node at a place out of a row. The answer is how many routes went with it.
pub fn remove_at(row: &mut Row, place: usize, levels: usize) -> u64
    requires within { place < length row.old }
    requires ordered { AllByRecursion IsOrderedNode row.old }
    requires few { length (row_routes 0 row.old) < 2 ^ 64 }
    requires short { AreShort levels (row_routes 0 row.old) }
    ensures left { row.new ≡ remove row.old place }
    ensures gone { result + length (row_routes 0 row.new) ≡ length (row_routes 0 row.old) }
{
    match &mut row.nodes {
        Nodes::Empty => 0,
        Nodes::One(_) => {
            row.nodes = Nodes::Empty;
            1
        }
        Nodes::Leaves(leaves) => {
            remove_leaf(leaves, place);
            1
        }
        Nodes::Many(leaves) => {
            leaves.remove(place);
            1
        }
        Nodes::Mixed(nodes) => remove_node(nodes, place, levels),
    }
}

// Takes the node with the number out of a row. The answer is how many routes went with it.
fn remove_number(row: &mut Row, number: u32, levels: usize) -> u64
    requires sound { IsSoundRow row.old }
    requires few { length (row_routes 0 row.old) < 2 ^ 64 }
    requires short { AreShort levels (row_routes 0 row.old) }
    ensures left { row.new ≡ without_number number row.old }
    ensures gone { result + length (row_routes 0 row.new) ≡ length (row_routes 0 row.old) }
{
    match row.place_of(number) {
        None => 0,
        Some(place) => remove_at(row, place, levels),
    }
}

/// Takes the nodes with the numbers out of a row. The answer is how many routes went with them.
pub fn remove_numbers(row: &mut Row, numbers: &Numbers, levels: usize) -> u64
    requires sound { IsSoundRow row.old }
    requires few { length (row_routes 0 row.old) < 2 ^ 64 }
    requires short { AreShort levels (row_routes 0 row.old) }
    ensures left { row.new ≡ without_numbers numbers.now row.old }
    ensures gone { result + length (row_routes 0 row.new) ≡ length (row_routes 0 row.old) }
{
    let mut gone = 0;
    for number in numbers.as_slice() {
        gone += remove_number(row, *number, levels);
    }
    gone
}

/// Leaves out the routes that take one of the numbers. The answer is how many they were. No route has more steps than
/// there are levels.
#[cycle(prune)]
pub fn prune_rows(rows: &mut [Row], numbers: &Numbers, levels: usize) -> u64
    requires few { length (rows_routes 0 rows.old) < 2 ^ 64 }
    requires sound { AreSound rows.old }
    requires short { AreShort levels (rows_routes 0 rows.old) }
    requires rising { AreRising (rows_routes 0 rows.old) }
    ensures left { rows_routes 0 rows.new ≡ filter (lacks numbers.now) (rows_routes 0 rows.old) }
    ensures gone { result + length (rows_routes 0 rows.new) ≡ length (rows_routes 0 rows.old) }
{
    let mut gone = 0;
    for row in rows.iter_mut() {
        gone += prune_row(row, numbers, levels);
    }
    gone
}

#[cycle(prune)]
fn prune_row(row: &mut Row, numbers: &Numbers, levels: usize) -> u64
    requires few { length (row_routes 0 row.old) < 2 ^ 64 }
    requires sound { IsSoundRow row.old }
    requires short { AreShort levels (row_routes 0 row.old) }
    requires rising { AreRising (row_routes 0 row.old) }
    ensures left { (pattern : ℕ) → row_routes pattern row.new ≡ filter (lacks numbers.now)
        (row_routes pattern row.old) }
    ensures gone { result + length (row_routes 0 row.new) ≡ length (row_routes 0 row.old) }
{
    if row.len() == 0 {
        return 0;
    }
    let gone = remove_numbers(row, numbers, levels);
    if levels <= 1 {
        return gone;
    }
    gone + prune_behind(row, numbers, levels - 1)
}

// Leaves have nothing behind them that could take one of the numbers.
#[cycle(prune)]
fn prune_behind(row: &mut Row, numbers: &Numbers, levels: usize) -> u64
    requires few { length (row_routes 0 row.old) < 2 ^ 64 }
    requires ordered { AllByRecursion IsOrderedNode row.old }
    requires short { AllByRecursion (λ node. AreShort levels node.routes) row.old }
    requires rising { NodesRise row.old }
    ensures left { row.new ≡ map (pruned numbers.now) row.old }
    ensures gone { result + length (row_routes 0 row.new) ≡ length (row_routes 0 row.old) }
{
    match &mut row.nodes {
        Nodes::Empty => 0,
        Nodes::One(_) => 0,
        Nodes::Leaves(_) => 0,
        Nodes::Many(_) => 0,
        Nodes::Mixed(nodes) => prune_nodes(nodes, numbers, levels),
    }
}

/// Leaves out the routes that take one of the numbers behind nodes. The answer is how many they were.
#[cycle(prune)]
pub fn prune_nodes(nodes: &mut VecDeque<Node>, numbers: &Numbers, levels: usize) -> u64
    requires few { length (row_routes 0 nodes.old.items) < 2 ^ 64 }
    requires ordered { AllByRecursion IsOrderedNode nodes.old.items }
    requires short { AllByRecursion (λ node. AreShort levels node.routes) nodes.old.items }
    requires rising { NodesRise nodes.old.items }
    ensures left { nodes.new.items ≡ map (pruned numbers.now) nodes.old.items }
    ensures gone { result + length (row_routes 0 nodes.new.items) ≡ length (row_routes 0 nodes.old.items) }
{
    let mut gone = 0;
    for place in 0..nodes.len() {
        gone += prune_node(&mut nodes[place], numbers, levels);
    }
    gone
}

// Whether no number is greater than the limit.
fn are_up_to(numbers: &Numbers, limit: u32) -> bool
    ensures { result ≡ true → AllByRecursion (λ n. n ≤ limit) numbers.now }
{
    for number in numbers.as_slice() {
        if *number > limit {
            return false;
        }
    }
    true
}

/// The same behind one node. Behind it are greater numbers alone.
#[cycle(prune)]
pub fn prune_node(node: &mut Node, numbers: &Numbers, levels: usize) -> u64
    requires few { length node.old.routes < 2 ^ 64 }
    requires ordered { IsOrderedNode node.old }
    requires short { AreShort levels node.old.routes }
    requires rising { RiseFrom node.old.number node.old.routes }
    ensures left { node.new ≡ pruned numbers.now node.old }
    ensures gone { result + length node.new.routes ≡ length node.old.routes }
{
    if are_up_to(numbers, node.number()) {
        return 0;
    }
    match &mut node.shape {
        Shape::Leaf(_) => 0,
        Shape::Inner(_, rows) => prune_rows(rows, numbers, levels),
    }
}
