//! What monitors read of a board, and what a publisher keeps, where memory is ample.
ghost use Rattle.std.specs.Prelude.{◌≡◌, ◌<◌, All, IfOk, IfSome, length};
ghost use Rattle.join_base.specs.Late.{HasCount};
ghost use Rattle.join_base.specs.declared.message.Source.TheVariants as source;
ghost use Rattle.live_board.specs.Glasses.{IsNewGlass, left_book, left_rows};
ghost use Rattle.live_board.specs.Monitors.{glass_of};
ghost use Rattle.live_board.specs.Writers.{row_count, writer_book};

use actor_pool::Beside;
use actor_turn::Actor;
use building_load::{load_feed, load_plan};
use fair_semantics::Limits;
use join_base::{NoMemory, Posts, Source, Steps};
use live_board::{
    Board, BoardWriter, LeftGlass, Monitor, MonitorList, Publisher, Record, RecordList,
    SharedWriter, StillGlass, Totals, TotalsList, Unread, open_board,
};
use std::alloc::Global;
use std::marker::Brand;
use std::sync::ledger::{Blank, Ledger};
use std::sync::{Mutex, Wait};
use std::test::Fail;

fn totals(arrivals: u32, firings: u32, posts: u64) -> Totals {
    Totals {
        arrivals,
        firings,
        posts,
    }
}

fn item(actor: u32, arrivals: u32) -> Record
    ensures actor { result.actor ≡ actor }
{
    Record {
        actor,
        totals: totals(arrivals, 1, 2),
    }
}

// Whether a board of two actors has these totals.
fn shows(board: &Board, first: Totals, second: Totals) -> bool {
    board.rows() == [first, second].as_slice()
}

// The last monitor of a board of two actors.
fn last_of(writer: &BoardWriter, monitors: MonitorList) -> Option<Monitor<LeftGlass>>
    requires new { All (λ m. IsNewGlass (writer_book writer.now) 2 (glass_of m)) monitors }
    ensures new { IfSome result (λ m. IsNewGlass (writer_book writer.now) 2 (glass_of m)) }
{
    let _board = writer;
    let mut monitors = monitors.into_vec();
    monitors.pop()
}

// Publishes a record. The answer is whether a monitor that has learnt the note of that reads.
fn reads_what_it_learns<R: Wait>(
    rt: &R,
    writer: &mut BoardWriter,
    monitor: &mut Monitor<LeftGlass>,
    item: Record,
    into: &mut Board,
) -> bool
    requires book { left_book (glass_of monitor.old) ≡ writer_book writer.old }
    requires rows { length into.old ≡ left_rows (glass_of monitor.old) }
{
    if writer.publish(rt, item).is_err() {
        return false;
    }
    monitor.learn(writer.tell());
    monitor.read(into).is_ok()
}

fn is_read_by_its_note<R: Wait>(rt: &R, alloc: Global) -> Result<bool, NoMemory> {
    let mut into = Board::new(alloc, 2)?;
    let (mut writer, monitors) = open_board(rt, alloc, 2, 1)?;
    let read = match last_of(&writer, monitors) {
        Some(mut monitor) => {
            reads_what_it_learns(rt, &mut writer, &mut monitor, item(1, 5), &mut into)
        }
        None => false,
    };
    let last = writer.close(rt);
    let (first, second) = (totals(0, 0, 0), totals(5, 1, 2));
    Ok(read && shows(&into, first, second) && shows(&last, first, second))
}

fn two_totals(alloc: Global) -> Result<TotalsList, NoMemory>
    ensures two { IfOk result (λ list. length list ≡ 2) }
{
    let mut list = TotalsList::new(alloc);
    list.push(totals(7, 1, 2))?;
    list.push(totals(8, 0, 0))?;
    Ok(list)
}

fn is_unread_once_closed<R: Wait>(rt: &R, alloc: Global) -> Result<bool, NoMemory> {
    let mut into = Board::new(alloc, 2)?;
    let all = two_totals(alloc)?;
    let (mut writer, monitors) = open_board(rt, alloc, 2, 1)?;
    let monitor = last_of(&writer, monitors);
    let published = writer.publish_all(rt, &all).is_ok();
    let last = writer.close(rt);
    let read = match monitor {
        Some(mut monitor) => monitor.read(&mut into),
        None => Ok(()),
    };
    Ok(
        published
            && read == Err(Unread)
            && shows(&into, totals(0, 0, 0), totals(0, 0, 0))
            && shows(&last, totals(7, 1, 2), totals(8, 0, 0)),
    )
}

// The records of two actors.
fn three_records(alloc: Global) -> Result<RecordList, NoMemory>
    ensures below { IfOk result (All (λ own. own.actor < 2)) }
{
    let mut records = RecordList::new(alloc);
    records.push(item(0, 3))?;
    records.push(item(1, 4))?;
    records.push(item(0, 5))?;
    Ok(records)
}

fn is_read_from_memory(alloc: Global) -> Result<bool, NoMemory> {
    let mut into = Board::new(alloc, 2)?;
    let mut monitor = Monitor::new(StillGlass::new(2, three_records(alloc)?));
    let read = monitor.read(&mut into).is_ok();
    Ok(read && shows(&into, totals(5, 1, 2), totals(4, 1, 2)))
}

#[test]
fn monitors_read_what_was_published(rt: HostRuntime) -> Result<(), Fail> {
    let alloc = rt.alloc();
    let by_note = is_read_by_its_note(&rt, alloc)?;
    let closed = is_unread_once_closed(&rt, alloc)?;
    let still = is_read_from_memory(alloc)?;
    assert!(rt; by_note && closed && still);
    Ok(())
}

// The first hall of the building, with one feed.
fn first_hall(alloc: Global) -> Result<Actor, NoMemory>
    ensures feed { IfOk result (λ a. HasCount a.state.late (source.Feed 1)) }
{
    let plan = load_plan(alloc)?;
    let limits = Limits {
        arrivals: 100,
        partials: 100,
    };
    let hall = Actor::new(alloc, &plan, 0, limits, 1)?;
    Ok(hall)
}

// Brings the hall the messages of its feed.
fn feed_hall<L: Ledger>(
    alloc: Global,
    hall: &mut Actor,
    rows: &Posts,
    blank: Blank,
) -> Result<(), NoMemory>
    requires name { blank.name ≡ L.name }
    requires parts { blank.parts ≡ L.parts }
    requires some { 0 < L.parts }
    requires feed { HasCount hall.old.state.late (source.Feed 1) }
{
    let mut steps = Steps::<L>::new(blank);
    for (_, message) in rows.as_slice() {
        hall.arrive(alloc, Source::Feed(1), message, 0, &mut steps)?;
    }
    Ok(())
}

// The hall after three rows, of which two fire with a post to the desk.
fn fed_hall(alloc: Global) -> Result<Actor, NoMemory> {
    let feed = load_feed(alloc, 3, 1)?;
    let rows = feed.unpacked(alloc)?;
    let mut hall = first_hall(alloc)?;
    feed_hall::<Brand>(alloc, &mut hall, &rows, Blank::new(1))?;
    Ok(hall)
}

// Whether what is published of the actor leaves a note for it alone, which is handed out once.
fn is_told_once<R: Wait>(
    rt: &R,
    alloc: Global,
    shared: &Mutex<SharedWriter<&R>>,
    state: &Actor,
) -> Result<bool, NoMemory> {
    let mut publisher = Publisher::new(alloc, shared)?;
    let seen = publisher.seen(rt, alloc, 1, state).is_ok();
    let other = publisher.note(0).is_some();
    let told = publisher.note(1).is_some();
    let again = publisher.note(1).is_some();
    Ok(seen && told && !other && !again)
}

fn is_published<R: Wait>(rt: &R, alloc: Global, state: &Actor) -> Result<bool, NoMemory> {
    let (writer, _monitors) = open_board(rt, alloc, 2, 1)?;
    let shared = Mutex::new(SharedWriter::new(writer, rt));
    let told = is_told_once(rt, alloc, &shared, state)?;
    let last = shared.into_inner().into_writer().close(rt);
    Ok(told && shows(&last, totals(0, 0, 0), totals(3, 1, 1)))
}

#[test]
fn a_publisher_publishes_what_it_is_shown(rt: HostRuntime) -> Result<(), Fail> {
    let alloc = rt.alloc();
    let hall = fed_hall(alloc)?;
    let published = is_published(&rt, alloc, &hall)?;
    assert!(rt; published);
    Ok(())
}
