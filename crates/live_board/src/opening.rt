//! Making a board.
ghost use Rattle.std.specs.Prelude.{◌≡◌, ◌<◌, ◌≤◌, [], drop, length, slice_get, Some, All, IfOk};
ghost use Rattle.left_right.specs.Sides.{view};
ghost use Rattle.live_board.specs.Glasses.{IsNewGlass};
ghost use Rattle.live_board.specs.Monitors.{glass_of};
ghost use Rattle.live_board.specs.Writers.{Stays, published, writer_book, row_count};

use crate::board::Board;
use crate::history::open;
use crate::left_glass::{BoardReader, LeftGlass};
use crate::monitor::{Monitor, MonitorList};
use crate::publishing::{Shower, show};
use crate::shown::Tells;
use crate::snapshot::Snapshot;
use crate::writer::BoardWriter;
use join_base::{Items, NoMemory};
use left_right::writer::Writer;
use std::alloc::Global;
use std::sync::Wait;

// Shows the opening board, so that the writer has seen it.
fn show_first<R: Wait>(rt: &R, mut writer: Shower, first: Snapshot) -> Result<Shower, NoMemory>
    requires shown { writer.desk.shown.value ≡ first }
    requires idle { drop writer.behind writer.log.items ≡ [] }
    ensures shown { IfOk result (λ w. w.desk.shown.value ≡ first) }
    ensures saw { IfOk result (λ w. slice_get (view w.desk.place) 0 ≡ Some first) }
    ensures idle { IfOk result (λ w. drop w.behind w.log.items ≡ []) }
{
    match writer.append(first) {
        Ok(()) => {}
        Err(_) => {
            writer.take(rt);
            return Err(NoMemory);
        }
    }
    let (writer, _) = show(writer, rt);
    Ok(writer)
}

impl BoardWriter {
    // A writer that published nothing, with room for so many monitors.
    fn new<R: Wait>(
        rt: &R,
        alloc: Global,
        actors: u32,
        monitors: u32,
    ) -> Result<BoardWriter, NoMemory>
        requires actors { actors ≤ 32 }
        requires monitors { (0 < monitors) × (monitors ≤ 8) }
        ensures rows { IfOk result (λ w. row_count w ≡ actors) }
        ensures published { IfOk result (λ w. published w ≡ []) }
    {
        let room = Board::new(alloc, actors)?;
        let (head, front) = open();
        let first = Snapshot::opening(front);
        let writer: Shower = Writer::new(alloc, first.again(), first.again(), monitors as usize)?;
        let writer = show_first(rt, writer, first)?;
        Ok(BoardWriter { writer, head, room })
    }

    // A glass over the board, of which it has seen what the writer has seen.
    fn glass(&mut self) -> Result<LeftGlass, NoMemory>
        requires new { published self.old ≡ [] }
        ensures same { Stays self.old self.new }
        ensures glass { IfOk result (IsNewGlass (writer_book self.old) (row_count self.old)) }
    {
        let front = self.writer.published().front.again();
        let rows = self.room.len() as u32;
        let mut reader: BoardReader = self.writer.factory().reader()?;
        reader.learn::<Tells>(self.writer.tell::<Tells>());
        Ok(LeftGlass {
            reader,
            front,
            rows,
            refused: 0,
        })
    }
}

// So many monitors of a board that published nothing.
fn monitors_of(alloc: Global, writer: &mut BoardWriter, count: u32) -> Result<MonitorList, NoMemory>
    requires new { published writer.old ≡ [] }
    ensures same { Stays writer.old writer.new }
    ensures count { IfOk result (λ list. length list ≡ count) }
    ensures each { IfOk result (λ list. All (λ m. IsNewGlass (writer_book writer.old) (row_count writer.old)
        (glass_of m)) list) }
{
    let mut monitors = Items::new(alloc);
    for _ in 0..count {
        let glass = writer.glass()?;
        monitors.push(Monitor::new(glass))?;
    }
    Ok(monitors)
}

/// A board of 1 to 32 actors, on which nothing is published: its writer, and 1 to 8 monitors, which know nothing yet.
///
/// It may wait, as each call that publishes: it shows the opening board.
pub fn open_board<R: Wait>(
    rt: &R,
    alloc: Global,
    actors: u32,
    monitors: u32,
) -> Result<(BoardWriter, MonitorList), NoMemory>
    requires actors { (0 < actors) × (actors ≤ 32) }
    requires monitors { (0 < monitors) × (monitors ≤ 8) }
    ensures published { IfOk result (λ made. published made.0 ≡ []) }
    ensures rows { IfOk result (λ made. row_count made.0 ≡ actors) }
    ensures count { IfOk result (λ made. length made.1 ≡ monitors) }
    ensures monitors { IfOk result (λ made. All (λ m. IsNewGlass (writer_book made.0) actors (glass_of m)) made.1) }
{
    let mut writer = BoardWriter::new(rt, alloc, actors, monitors)?;
    match monitors_of(alloc, &mut writer, monitors) {
        Ok(list) => Ok((writer, list)),
        Err(NoMemory) => {
            writer.close(rt);
            Err(NoMemory)
        }
    }
}
