//! The numbers of a row's nodes, where they stand.
ghost use Rattle.std.specs.Prelude.{◌≡◌, ◌++◌, ◌<◌, length, map, slice_index};
ghost use Rattle.tree_rows.specs.RowNumbers.{numbers_in};

use crate::node::Node;
use crate::row::{Nodes, Row};
use std::collections::VecDeque;
use std::slice;
use tiered_vec::TieredVec;

/// The numbers of a row's nodes. A loop over them doesn't look at the form of the row again.
#[derive(Clone, Copy)]
pub enum RowNumbers<'a> {
    /// Leaves, in the two parts of their ring buffer.
    Leaves(&'a [u32], &'a [u32]),
    Many(&'a TieredVec),
    Nodes(&'a VecDeque<Node>),
}

impl<'a> RowNumbers<'a> {
    /// The numbers of the nodes of this row.
    #[inline]
    pub fn of(row: &'a Row) -> RowNumbers<'a>
        ensures { numbers_in result ≡ map (λ node. node.number) row.now }
    {
        match &row.nodes {
            Nodes::Empty => RowNumbers::Leaves(&[], &[]),
            Nodes::One(number) => RowNumbers::Leaves(slice::from_ref(number), &[]),
            Nodes::Leaves(leaves) => {
                let (front, back) = leaves.as_slices();
                RowNumbers::Leaves(front, back)
            }
            Nodes::Many(leaves) => RowNumbers::Many(leaves),
            Nodes::Mixed(nodes) => RowNumbers::Nodes(nodes),
        }
    }

    /// How many there are.
    #[inline]
    pub fn len(&self) -> usize
        ensures { result ≡ length (numbers_in self.now) }
    {
        match self {
            RowNumbers::Leaves(front, back) => front.len() + back.len(),
            RowNumbers::Many(leaves) => leaves.len(),
            RowNumbers::Nodes(nodes) => nodes.len(),
        }
    }

    /// The number of the node at the place.
    #[inline]
    pub fn at(&self, place: usize) -> u32
        requires { place < length (numbers_in self.now) }
        ensures { result ≡ slice_index (numbers_in self.now) place }
    {
        match self {
            RowNumbers::Leaves(front, back) => leaf_at(front, back, place),
            RowNumbers::Many(leaves) => leaves.at(place),
            RowNumbers::Nodes(nodes) => nodes[place].number(),
        }
    }
}

// The number at the place of two slices, one behind the other.
#[inline]
fn leaf_at(front: &[u32], back: &[u32], place: usize) -> u32
    requires { place < length (front.now ++ back.now) }
    ensures { result ≡ slice_index (front.now ++ back.now) place }
{
    if place < front.len() {
        front[place]
    } else {
        back[place - front.len()]
    }
}
