//! What readers of the board take. It stands in a file alone, since the words on it import this file.
ghost use Rattle.std.specs.Prelude.{◌≡◌};
ghost use Rattle.live_board.specs.Folding.{board_of};
ghost use Rattle.live_board.specs.History.{front_records};

use crate::front::Front;
use crate::totals::Totals;

/// The beginning of the history that is published, and the totals that it comes to, for as many actors as there may be.
#[derive(Drop)]
pub struct Snapshot {
    pub(crate) totals: [Totals; 32],
    pub(crate) front: Front,
    ghost folded: { totals ≡ board_of 32 (front_records front) },
}
