//! The writer of a board. It stands in a file alone, since the words on it import this file.
ghost use Rattle.std.specs.Prelude.{◌≡◌, ◌≤◌, [], drop, length, slice_get, Some};
ghost use Rattle.left_right.specs.Sides.{view};
ghost use Rattle.live_board.specs.History.{front_book, head_of};

use crate::board::Board;
use crate::front::Head;
use crate::shown::{BoardRule, Sights};
use crate::snapshot::Snapshot;
use left_right::writer::Writer;

/// Publishes records. Contracts see the records that were published (`published`), whose history it is (`writer_book`)
/// and the number of actors (`row_count`).
///
/// It is no `Drop`: `close` ends it.
pub struct BoardWriter {
    pub(crate) writer: Writer<Snapshot, Snapshot, Sights, BoardRule>,
    pub(crate) head: Head,
    // The board that `close` gives.
    pub(crate) room: Board,
    ghost saw: { slice_get (view writer.desk.place) 0 ≡ Some writer.desk.shown.value },
    ghost idle: { drop writer.behind writer.log.items ≡ [] },
    ghost headed: { head.word ≡ head_of (front_book writer.desk.shown.value.front) },
    ghost few: { length room ≤ 32 },
}
