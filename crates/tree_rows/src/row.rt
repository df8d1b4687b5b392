//! The nodes of one pattern behind a path, in as little memory as they need.
ghost use Rattle.std.specs.Prelude.{◌≡◌, ◌≢◌, ◌<◌, ◌≤◌, ◌++◌, ◌∷◌, [], length, map, slice_set, slice_index_or, OnOk, OnErr, IfOk, MatchOption};
ghost use Rattle.std.specs.List.{AllByRecursion};
ghost use Rattle.tree_rows.specs.Routes.{rows_routes};
ghost use Rattle.tree_rows.specs.Order.{Rise};
ghost use Rattle.tree_rows.specs.RowNumbers.{numbers_in};
ghost use Rattle.tree_rows.specs.Rows.{leaf, node_at, leads_to};

use crate::node::{Node, Shape};
use crate::row_numbers::RowNumbers;
use join_base::NoMemory;
use std::alloc::Global;
use std::collections::VecDeque;
use std::marker::Model;
use tiered_vec::TieredVec;

/// The nodes of one pattern behind a path, whose numbers rise. A contract sees the list of them.
#[cycle(nodes)]
#[derive(Drop)]
pub struct Row {
    pub nodes: Nodes,
}

/// A leaf is no more than its number: one stands in place, several stand in a ring buffer of numbers, and many in tiers,
/// out of whose middle one goes without moving half of them. The other nodes have rows of their own, and where there is
/// one among them, all are nodes.
#[cycle(nodes)]
#[derive(Drop)]
pub enum Nodes {
    Empty,
    One(u32),
    Leaves(Box<VecDeque<u32>>),
    Many(Box<TieredVec>),
    Mixed(Box<VecDeque<Node>>),
}

// A ring buffer of so many leaves gives one from its middle as quickly as tiers do.
const FEW: usize = 2048;

// Each node but a leaf has a row for each pattern, and most of them have no node or one.
const _: () = prove!(size_of::<Row>() <= 16);

impl Model for Row {
    ghost use Rattle.std.specs.Prelude.{List};
    ghost use Rattle.tree_rows.specs.Routes.{Branch};

    ghost Value = { List Branch };

    ghost use Rattle.tree_rows.specs.Shapes.{branches};

    ghost view = { λ a. branches a.nodes };

    ghost use Rattle.std.specs.Prelude.{◌*◌, length};
    ghost use Rattle.tree_rows.specs.Routes.{row_routes};

    ghost size = { λ row. 2 * length (row_routes 0 row) };

    ghost use Rattle.std.proofs.Common.{arith};
    ghost use Rattle.tree_rows.specs.Smaller.{most_of_nodes};

    ghost size_decreases = { λ a h. Prim.omega (arith, most_of_nodes a.nodes) };
}

impl Row {
    /// A row without a node.
    #[inline]
    pub fn new() -> Row
        ensures { result ≡ [] }
    {
        Row {
            nodes: Nodes::Empty,
        }
    }

    /// How many nodes there are.
    #[inline]
    pub fn len(&self) -> usize
        ensures { result ≡ length self.now }
    {
        match &self.nodes {
            Nodes::Empty => 0,
            Nodes::One(_) => 1,
            Nodes::Leaves(leaves) => leaves.len(),
            Nodes::Many(leaves) => leaves.len(),
            Nodes::Mixed(nodes) => nodes.len(),
        }
    }

    /// The number of the node at the place.
    #[inline]
    pub fn number_at(&self, place: usize) -> u32
        requires { place < length self.now }
        ensures { result ≡ (node_at self.now place).number }
    {
        match &self.nodes {
            Nodes::Empty => 0,
            Nodes::One(number) => *number,
            Nodes::Leaves(leaves) => leaves[place],
            Nodes::Many(leaves) => leaves.at(place),
            Nodes::Mixed(nodes) => nodes[place].number(),
        }
    }

    /// The place of the node with the number.
    pub fn place_of(&self, number: u32) -> Option<usize>
        requires { Rise (map (λ node. node.number) self.now) }
        ensures { MatchOption result (AllByRecursion (λ node. node.number ≢ number) self.now)
            (λ i. (i < length self.now) × ((d : _) → (slice_index_or self.now i d).number ≡ number)) }
    {
        match &self.nodes {
            Nodes::Empty => None,
            Nodes::One(only) => place_of_one(*only, number),
            Nodes::Leaves(leaves) => place_of_leaf(leaves, number),
            Nodes::Many(leaves) => place_of_tiered(leaves, number),
            Nodes::Mixed(nodes) => place_of_node(nodes, number),
        }
    }

    /// A leaf for the number, at the end.
    pub fn push_leaf(&mut self, alloc: Global, number: u32) -> Result<(), NoMemory>
        ensures ok { OnOk result (self.new ≡ self.old ++ leaf number ∷ []) }
        ensures err { OnErr result (self.new ≡ self.old) }
    {
        match &mut self.nodes {
            Nodes::Empty => {
                self.nodes = Nodes::One(number);
                Ok(())
            }
            Nodes::One(first) => {
                let leaves = two_leaves(alloc, *first, number)?;
                self.nodes = Nodes::Leaves(leaves);
                Ok(())
            }
            Nodes::Leaves(leaves) => {
                if leaves.len() < FEW {
                    return push_number(leaves, number);
                }
                let many = many_leaves(alloc, leaves, number)?;
                self.nodes = Nodes::Many(many);
                Ok(())
            }
            Nodes::Many(leaves) => leaves.push_back(alloc, number),
            Nodes::Mixed(nodes) => push_node(nodes, number),
        }
    }

    /// Puts rows behind the leaf at the place. Where there is no memory for that, nothing changes.
    pub fn put_behind(
        &mut self,
        alloc: Global,
        place: usize,
        rows: Box<Vec<Row>>,
    ) -> Result<(), NoMemory>
        requires within { place < length self.old }
        requires leaf { (node_at self.old place).routes ≡ [] }
        requires few { length rows.value.items ≤ 8 }
        ensures ok { OnOk result (self.new ≡ slice_set self.old place (leads_to (node_at self.old place)
            (rows_routes 0 rows.value.items))) }
        ensures err { OnErr result (self.new ≡ self.old) }
    {
        match &mut self.nodes {
            Nodes::Empty => Ok(()),
            Nodes::One(number) => {
                let nodes = one_node(alloc, *number, rows)?;
                self.nodes = Nodes::Mixed(nodes);
                Ok(())
            }
            Nodes::Leaves(leaves) => {
                let nodes = leaves_with(alloc, leaves, place, rows)?;
                self.nodes = Nodes::Mixed(nodes);
                Ok(())
            }
            Nodes::Many(leaves) => {
                let nodes = tiers_with(alloc, leaves, place, rows)?;
                self.nodes = Nodes::Mixed(nodes);
                Ok(())
            }
            Nodes::Mixed(nodes) => {
                put_behind_node(nodes, place, rows);
                Ok(())
            }
        }
    }
}

fn place_of_one(only: u32, number: u32) -> Option<usize>
    ensures { MatchOption result (only ≢ number) (λ i. (i ≡ 0) × (only ≡ number)) }
{
    if only == number {
        return Some(0);
    }
    None
}

// The place of the number among numbers that rise, by halves.
fn place_among(leaves: &VecDeque<u32>, number: u32) -> Option<usize>
    requires { Rise leaves.now.items }
    ensures { MatchOption result (AllByRecursion (λ n. n ≢ number) leaves.now.items) (λ i. (i < length leaves.now.items)
        × ((d : _) → slice_index_or leaves.now.items i d ≡ number)) }
{
    match leaves.binary_search(&number) {
        Ok(place) => Some(place),
        Err(_) => None,
    }
}

// The place of the number among numbers that rise. One that is taken back is the last or not there, so the last is
// looked at first.
fn place_of_leaf(leaves: &VecDeque<u32>, number: u32) -> Option<usize>
    requires { Rise leaves.now.items }
    ensures { MatchOption result (AllByRecursion (λ n. n ≢ number) leaves.now.items) (λ i. (i < length leaves.now.items)
        × ((d : _) → slice_index_or leaves.now.items i d ≡ number)) }
{
    let Some(last) = leaves.back() else {
        return None;
    };
    if *last < number {
        return None;
    }
    if *last == number {
        return Some(leaves.len() - 1);
    }
    place_among(leaves, number)
}

// The same in tiers.
fn place_of_tiered(leaves: &TieredVec, number: u32) -> Option<usize>
    requires { Rise leaves.now }
    ensures { MatchOption result (AllByRecursion (λ n. n ≢ number) leaves.now) (λ i. (i < length leaves.now)
        × ((d : _) → slice_index_or leaves.now i d ≡ number)) }
{
    let place = leaves.first_from(number);
    if place == leaves.len() {
        return None;
    }
    if leaves.at(place) != number {
        return None;
    }
    Some(place)
}

// The place of the node with the number among nodes whose numbers rise, by halves.
fn place_among_nodes(nodes: &VecDeque<Node>, number: u32) -> Option<usize>
    requires { Rise (map (λ node. node.number) nodes.now.items) }
    ensures { MatchOption result (AllByRecursion (λ node. node.number ≢ number) nodes.now.items)
        (λ i. (i < length nodes.now.items) × ((d : _) → (slice_index_or nodes.now.items i d).number ≡ number)) }
{
    match nodes.binary_search_by_key(&number, |node| node.number()) {
        Ok(place) => Some(place),
        Err(_) => None,
    }
}

/// The place of the node with the number among nodes whose numbers rise. The last is looked at first.
pub fn place_of_node(nodes: &VecDeque<Node>, number: u32) -> Option<usize>
    requires { Rise (map (λ node. node.number) nodes.now.items) }
    ensures { MatchOption result (AllByRecursion (λ node. node.number ≢ number) nodes.now.items)
        (λ i. (i < length nodes.now.items) × ((d : _) → (slice_index_or nodes.now.items i d).number ≡ number)) }
{
    let Some(last) = nodes.back() else {
        return None;
    };
    if last.number() < number {
        return None;
    }
    if last.number() == number {
        return Some(nodes.len() - 1);
    }
    place_among_nodes(nodes, number)
}

fn two_leaves(alloc: Global, first: u32, second: u32) -> Result<Box<VecDeque<u32>>, NoMemory>
    ensures { IfOk result (λ leaves. leaves.value.items ≡ first ∷ second ∷ []) }
{
    let mut leaves = VecDeque::with_capacity(alloc, 4)?;
    leaves.push_back(first)?;
    leaves.push_back(second)?;
    Ok(Box::new(alloc, leaves)?)
}

// The leaves and one more in tiers. It is seldom called, and stands apart so that a push takes few instructions.
#[cold]
#[inline(never)]
fn many_leaves(
    alloc: Global,
    leaves: &VecDeque<u32>,
    number: u32,
) -> Result<Box<TieredVec>, NoMemory>
    ensures { IfOk result (λ many. many.value ≡ leaves.now.items ++ number ∷ []) }
{
    let mut many = TieredVec::new(alloc);
    for place in 0..leaves.len() {
        many.push_back(alloc, leaves[place])?;
    }
    many.push_back(alloc, number)?;
    Ok(Box::new(alloc, many)?)
}

fn push_number(leaves: &mut VecDeque<u32>, number: u32) -> Result<(), NoMemory>
    ensures ok { OnOk result (leaves.new.items ≡ leaves.old.items ++ number ∷ []) }
    ensures err { OnErr result (leaves.new.items ≡ leaves.old.items) }
{
    leaves.push_back(number)?;
    Ok(())
}

fn push_node(nodes: &mut VecDeque<Node>, number: u32) -> Result<(), NoMemory>
    ensures ok { OnOk result (nodes.new.items ≡ nodes.old.items ++ leaf number ∷ []) }
    ensures err { OnErr result (nodes.new.items ≡ nodes.old.items) }
{
    nodes.push_back(Node::leaf(number))?;
    Ok(())
}

// Puts rows behind the node at the place.
fn put_behind_node(nodes: &mut VecDeque<Node>, place: usize, rows: Box<Vec<Row>>)
    requires within { place < length nodes.old.items }
    requires few { length rows.value.items ≤ 8 }
    ensures { nodes.new.items ≡ slice_set nodes.old.items place (leads_to (node_at nodes.old.items place)
        (rows_routes 0 rows.value.items)) }
{
    let node = &mut nodes[place];
    node.put_behind(rows);
}

// The one node with the number and these rows.
fn one_node(
    alloc: Global,
    number: u32,
    rows: Box<Vec<Row>>,
) -> Result<Box<VecDeque<Node>>, NoMemory>
    requires few { length rows.value.items ≤ 8 }
    ensures { IfOk result (λ nodes. nodes.value.items ≡ leads_to (leaf number) (rows_routes 0 rows.value.items) ∷ []) }
{
    let mut nodes = VecDeque::with_capacity(alloc, 1)?;
    nodes.push_back(Node {
        shape: Shape::Inner(number, rows),
    })?;
    Ok(Box::new(alloc, nodes)?)
}

// The leaves with the numbers as nodes.
fn nodes_of(alloc: Global, numbers: &RowNumbers<'_>) -> Result<VecDeque<Node>, NoMemory>
    ensures { IfOk result (λ nodes. nodes.items ≡ map leaf (numbers_in numbers.now)) }
{
    let mut nodes = VecDeque::with_capacity(alloc, numbers.len())?;
    for place in 0..numbers.len() {
        nodes.push_back(Node::leaf(numbers.at(place)))?;
    }
    Ok(nodes)
}

// The leaves with the numbers as nodes, of which that at the place has these rows.
fn nodes_with(
    alloc: Global,
    numbers: &RowNumbers<'_>,
    place: usize,
    rows: Box<Vec<Row>>,
) -> Result<Box<VecDeque<Node>>, NoMemory>
    requires within { place < length (numbers_in numbers.now) }
    requires few { length rows.value.items ≤ 8 }
    ensures { IfOk result (λ nodes. nodes.value.items ≡ slice_set (map leaf (numbers_in numbers.now)) place
        (leads_to (node_at (map leaf (numbers_in numbers.now)) place) (rows_routes 0 rows.value.items))) }
{
    let mut nodes = nodes_of(alloc, numbers)?;
    put_behind_node(&mut nodes, place, rows);
    Ok(Box::new(alloc, nodes)?)
}

// The same of leaves in a ring buffer.
fn leaves_with(
    alloc: Global,
    leaves: &VecDeque<u32>,
    place: usize,
    rows: Box<Vec<Row>>,
) -> Result<Box<VecDeque<Node>>, NoMemory>
    requires within { place < length leaves.now.items }
    requires few { length rows.value.items ≤ 8 }
    ensures { IfOk result (λ nodes. nodes.value.items ≡ slice_set (map leaf leaves.now.items) place
        (leads_to (node_at (map leaf leaves.now.items) place) (rows_routes 0 rows.value.items))) }
{
    let (front, back) = leaves.as_slices();
    nodes_with(alloc, &RowNumbers::Leaves(front, back), place, rows)
}

// The same of leaves in tiers.
fn tiers_with(
    alloc: Global,
    leaves: &TieredVec,
    place: usize,
    rows: Box<Vec<Row>>,
) -> Result<Box<VecDeque<Node>>, NoMemory>
    requires within { place < length leaves.now }
    requires few { length rows.value.items ≤ 8 }
    ensures { IfOk result (λ nodes. nodes.value.items ≡ slice_set (map leaf leaves.now) place
        (leads_to (node_at (map leaf leaves.now) place) (rows_routes 0 rows.value.items))) }
{
    nodes_with(alloc, &RowNumbers::Many(leaves), place, rows)
}
