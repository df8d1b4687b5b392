//! A poster. It stands in a file alone, since the words on it import this file.

use actor_cells::Cell;
use turn_lock::TurnSeat;

/// What one feed posts with: the ends of its links, and a seat to flag actors with. It may be sent to another thread.
#[derive(Drop)]
pub struct Poster {
    pub(crate) ends: cell_links::FeedLinks,
    pub(crate) seat: TurnSeat<Cell>,
}
