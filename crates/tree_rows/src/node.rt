//! Nodes of a tree whose paths are partial matches.
ghost use Rattle.std.specs.Prelude.{◌≡◌, ◌≤◌, [], length};
ghost use Rattle.tree_rows.specs.Routes.{rows_routes};
ghost use Rattle.tree_rows.specs.Rows.{leaf, leads_to};

use crate::row::Row;
use std::marker::Model;

/// A node takes a number behind the path to it. For each pattern it has the nodes that go on with a later number there.
#[cycle(nodes)]
#[derive(Drop)]
pub struct Node {
    pub shape: Shape,
}

/// Nodes of the last level have none behind them, so that the rows of the others stand apart, and a node takes two
/// words.
#[cycle(nodes)]
#[derive(Drop)]
pub enum Shape {
    Leaf(u32),
    Inner(u32, Box<Vec<Row>>),
}

// A message that waits costs a node in each row of nodes that it waits in.
const _: () = prove!(size_of::<Node>() <= 16);

impl Model for Node {
    ghost use Rattle.tree_rows.specs.Routes.{Branch};

    ghost Value = { Branch };

    ghost use Rattle.std.specs.Prelude.{◌≤◌, ◌*◌, ◌+◌, length};
    ghost use Rattle.tree_rows.specs.Routes.{rows_routes};
    ghost use Rattle.tree_rows.specs.Shapes.{number_of, rows_behind};

    ghost view = { λ a. record { number = number_of a.shape; routes = rows_routes 0 (rows_behind a.shape) } };

    ghost invariant = { λ a. length (rows_behind a.shape) ≤ 8 };

    ghost size = { λ node. 2 * length node.routes + 1 };

    ghost use Rattle.std.proofs.Common.{arith};
    ghost use Rattle.tree_rows.specs.Smaller.{most_behind};

    ghost size_decreases = { λ a h. Prim.omega (arith, most_behind a.shape) };
}

impl Node {
    /// A node with nothing behind it.
    pub fn leaf(number: u32) -> Node
        ensures { result ≡ leaf number }
    {
        Node {
            shape: Shape::Leaf(number),
        }
    }

    /// The number that the node takes.
    pub fn number(&self) -> u32
        ensures { result ≡ self.now.number }
    {
        match self.shape {
            Shape::Leaf(number) => number,
            Shape::Inner(number, _) => number,
        }
    }

    /// Puts rows behind the node, in place of those that it has.
    pub fn put_behind(&mut self, rows: Box<Vec<Row>>)
        requires few { length rows.value.items ≤ 8 }
        ensures { self.new ≡ leads_to self.old (rows_routes 0 rows.value.items) }
    {
        self.shape = Shape::Inner(self.number(), rows);
    }
}
