//! Leaving out the nodes that a definition no longer sees.
ghost use Rattle.std.specs.Prelude.{◌≡◌, ◌+◌, ◌^◌, ◌<◌, length, map, true, false};
ghost use Rattle.std.specs.List.{remove};
ghost use Rattle.tree_rows.specs.Routes.{row_routes, rows_routes};
ghost use Rattle.tree_rows.specs.Order.{AreSound, IsSoundRow, Rise};
ghost use Rattle.tree_rows.specs.Pruned.{AreShort, seen_nodes};

use crate::prune::remove_at;
use crate::row::Row;

// Whether a row has a node with a number before the oldest: then its first node has one, since the numbers rise.
fn begins_unseen(row: &Row, oldest: u32) -> bool
    requires { Rise (map (λ node. node.number) row.now) }
    ensures none { result ≡ false → seen_nodes oldest row.now ≡ row.now }
    ensures first { result ≡ true → (0 < length row.now) × (seen_nodes oldest (remove row.now 0)
        ≡ seen_nodes oldest row.now) }
{
    if row.len() == 0 {
        return false;
    }
    row.number_at(0) < oldest
}

// Takes the nodes with numbers before the oldest out of a row. The answer is how many routes went with them.
fn drop_front(row: &mut Row, oldest: u32, levels: usize) -> u64
    requires sound { IsSoundRow row.old }
    requires few { length (row_routes 0 row.old) < 2 ^ 64 }
    requires short { AreShort levels (row_routes 0 row.old) }
    ensures left { row.new ≡ seen_nodes oldest row.old }
    ensures gone { result + length (row_routes 0 row.new) ≡ length (row_routes 0 row.old) }
{
    let mut gone = 0;
    for _dropped in 0..row.len() {
        if !begins_unseen(row, oldest) {
            return gone;
        }
        gone += remove_at(row, 0, levels);
    }
    gone
}

/// Takes the nodes with numbers before the oldest out of the rows. The answer is how many routes went with them. No
/// route has more steps than there are levels.
pub fn drop_unseen(rows: &mut [Row], oldest: u32, levels: usize) -> u64
    requires few { length (rows_routes 0 rows.old) < 2 ^ 64 }
    requires sound { AreSound rows.old }
    requires short { AreShort levels (rows_routes 0 rows.old) }
    ensures left { rows.new ≡ map (seen_nodes oldest) rows.old }
    ensures gone { result + length (rows_routes 0 rows.new) ≡ length (rows_routes 0 rows.old) }
{
    let mut gone = 0;
    for row in rows.iter_mut() {
        gone += drop_front(row, oldest, levels);
    }
    gone
}
