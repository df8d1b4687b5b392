//! What the writer of a board does.
ghost use Rattle.std.specs.Prelude.{◌≡◌, ◌≤◌, ℕ, [], ◌∷◌, ◌++◌, Some, IsOk, MatchResult, OnOk};
ghost use Rattle.std.specs.Prelude.{drop, length, slice_get, take};
ghost use mathlib.Core.List.{IsPrefix};
ghost use Rattle.left_right.specs.Sides.{view};
ghost use Rattle.live_board.specs.Folding.{board_of, records_from};
ghost use Rattle.live_board.specs.BoardRule.{Begins};
ghost use Rattle.live_board.specs.Writers.{published, writer_book, row_count, noted, note_book};

use crate::board::Board;
use crate::note::BoardNote;
use crate::record::Record;
use crate::shown::{BoardRule, Sees, Sights};
use crate::snapshot::Snapshot;
use crate::totals::TotalsList;
use crate::writer::BoardWriter;
use core::mem::replace_with;
use join_base::NoMemory;
use left_right::writer::Writer;
use std::alloc::AllocError;
use std::sync::Wait;

/// The writer of `left_right` below a board.
pub(crate) type Shower = Writer<Snapshot, Snapshot, Sights, BoardRule>;

// Shows readers what was appended.
pub(crate) fn show<R: Wait>(writer: Shower, rt: &R) -> (Shower, Result<(), AllocError>)
    requires next { (next : Snapshot) × (drop writer.behind writer.log.items ≡ next ∷ [])
        × Begins writer.desk.shown.value next }
    ensures shown { IsOk result.1 }
    ensures next { (next : Snapshot) → drop writer.behind writer.log.items ≡ next ∷ []
        → result.0.desk.shown.value ≡ next }
    ensures saw { slice_get (view result.0.desk.place) 0 ≡ Some result.0.desk.shown.value }
    ensures idle { drop result.0.behind result.0.log.items ≡ [] }
{
    writer.publish_as::<Sees, R>(rt)
}

impl BoardWriter {
    /// Publishes a record: it comes behind the records that were published. One whose actor the board doesn't have is
    /// published too, and replaces nothing. At `NoMemory` nothing was published, and later calls may answer so too.
    ///
    /// It waits for monitors that still read the board from before the last call.
    pub fn publish<R: Wait>(&mut self, rt: &R, item: Record) -> Result<(), NoMemory>
        ensures book { writer_book self.new ≡ writer_book self.old }
        ensures rows { row_count self.new ≡ row_count self.old }
        ensures published { MatchResult result (λ _. published self.new ≡ published self.old ++ item ∷ [])
            (λ _. published self.new ≡ published self.old) }
    {
        let Some(next) = self.writer.published().next(&self.head, item) else {
            return Err(NoMemory);
        };
        match self.writer.append(next) {
            Ok(()) => {}
            Err(_) => return Err(NoMemory),
        }
        replace_with(&mut self.writer, rt, show)?;
        Ok(())
    }

    /// Publishes the totals of each actor, in order, of up to 32: one record of each actor, and no other. At `Ok` the
    /// published list comes to just these on a board of so many actors. At `NoMemory` those of some first actors may
    /// have been published.
    pub fn publish_all<R: Wait>(&mut self, rt: &R, totals: &TotalsList) -> Result<(), NoMemory>
        requires few { length totals.now ≤ 32 }
        ensures book { writer_book self.new ≡ writer_book self.old }
        ensures rows { row_count self.new ≡ row_count self.old }
        ensures kept { IsPrefix (published self.old) (published self.new) }
        ensures first { (count : ℕ) × (published self.new ≡ published self.old
            ++ records_from 0 (take count totals.now)) }
        ensures all { OnOk result (published self.new ≡ published self.old ++ records_from 0 totals.now) }
        ensures board { OnOk result (board_of (length totals.now) (published self.new) ≡ totals.now) }
    {
        let count = totals.len() as u32;
        for actor in 0..count {
            let item = Record {
                actor,
                totals: *totals.at(actor as usize),
            };
            self.publish(rt, item)?;
        }
        Ok(())
    }

    /// A note of the list that is published now.
    ///
    /// It takes no memory and does not wait.
    pub fn tell(&self) -> BoardNote
        ensures noted { noted result ≡ published self.now }
        ensures book { note_book result ≡ writer_book self.now }
    {
        BoardNote {
            front: self.writer.published().front.again(),
        }
    }

    /// Ends the board: the totals that all published records come to. Monitors see nothing from then on.
    ///
    /// It waits for monitors that are reading.
    pub fn close<R: Wait>(self, rt: &R) -> Board
        ensures folded { result ≡ board_of (row_count self) (published self) }
    {
        let BoardWriter {
            writer,
            head: _,
            mut room,
        } = self;
        let last = writer.take(rt);
        room.copy_from(&last.totals);
        room
    }

    /// Ends the board as `close` does, and brings the totals into a board of up to 32 actors.
    pub fn close_into<R: Wait>(self, rt: &R, into: &mut Board)
        requires few { length into.old ≤ 32 }
        ensures folded { into.new ≡ board_of (length into.old) (published self) }
    {
        let BoardWriter {
            writer,
            head: _,
            room: _,
        } = self;
        let last = writer.take(rt);
        into.copy_from(&last.totals);
    }
}
