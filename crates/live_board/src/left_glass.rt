//! A glass over a board that is published. It stands in a file alone, since the words on it import this file.
ghost use Rattle.std.specs.Prelude.{◌≡◌, ◌≤◌};
ghost use Rattle.left_right.specs.Sides.{view};
ghost use Rattle.live_board.specs.History.{front_book};
ghost use Rattle.live_board.specs.BoardRule.{HasSeenOf};

use crate::front::Front;
use crate::shown::{BoardRule, Sights};
use crate::snapshot::Snapshot;
use left_right::reader::Reader;

/// Takes what a writer has published.
pub(crate) type BoardReader = Reader<Snapshot, Sights, BoardRule>;

/// Shows what a `BoardWriter` has published, and refuses where that writer is gone.
///
/// What was learnt by a note is never longer than what the reader shows after that. The reader has no clause that says
/// so, since it did not take in the note itself: a look that showed less would be refused.
#[derive(Drop)]
pub struct LeftGlass {
    pub(crate) reader: BoardReader,
    // What is known.
    pub(crate) front: Front,
    pub(crate) rows: u32,
    pub(crate) refused: u64,
    ghost few: { rows ≤ 32 },
    ghost tied: { HasSeenOf (front_book front) (view reader.place) },
}
