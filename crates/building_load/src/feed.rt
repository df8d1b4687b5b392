//! The posts of a hall.
ghost use Rattle.std.specs.Prelude.{◌≡◌, ◌≤◌, ◌<◌, ◌∷◌, [], ◌++◌, length, map, IfOk, OnOk};
ghost use Rattle.std.specs.List.{AllByRecursion};
ghost use Rattle.fair_semantics.specs.Fits.{PostFits};
ghost use Rattle.building_load.specs.Building.{load_plan};
ghost use Rattle.building_load.specs.Rows.{int, load_feed, load_feeds, row_at};

use crate::plan::{CONTACT, LIGHT, MOTION};
use feed_store::{Feed, Feeds};
use join_base::{Fields, Message, NoMemory, PushFault, Value};
use std::alloc::Global;

// Pushes an integer into the values of a message that may have one more.
fn push_int(fields: &mut Fields, integer: u32) -> Result<(), NoMemory>
    requires few { length fields.old < 8 }
    ensures { OnOk result (fields.new ≡ fields.old ++ int integer ∷ []) }
{
    match fields.push(Value::Int(i64::from(integer))) {
        Ok(()) => Ok(()),
        Err(PushFault::NoMemory(_)) => Err(NoMemory),
        Err(PushFault::Full(_)) => unreachable!(),
    }
}

// Pushes integers into the values of a message, which has none.
fn push_ints(fields: &mut Fields, integers: &[u32]) -> Result<(), NoMemory>
    requires empty { fields.old ≡ [] }
    requires few { length integers.now ≤ 8 }
    ensures { OnOk result (fields.new ≡ map int integers.now) }
{
    for integer in integers {
        push_int(fields, *integer)?;
    }
    Ok(())
}

// The message of a kind with these integers.
fn message_of(alloc: Global, kind: u32, integers: &[u32]) -> Result<Message, NoMemory>
    requires few { length integers.now ≤ 8 }
    ensures { IfOk result (λ message. message ≡ record { kind = kind; fields = map int integers.now }) }
{
    let mut fields = Fields::with_room(alloc, integers.len(), false)?;
    push_ints(&mut fields, integers)?;
    Ok(Message { kind, fields })
}

// The row at a place, for an actor.
fn row_at(alloc: Global, actor: u32, place: u32) -> Result<(u32, Message), NoMemory>
    requires few { place < 20000 }
    ensures { IfOk result (λ row. row ≡ row_at actor place) }
{
    let group = place / 3;
    let room = group % 7;
    let lux = 10 * (group % 8);
    let time = 10 * place;
    let message = match place % 3 {
        0 => message_of(alloc, MOTION, &[room, time])?,
        1 => message_of(alloc, LIGHT, &[room, lux, time])?,
        _ => message_of(alloc, CONTACT, &[room, time])?,
    };
    Ok((actor, message))
}

/// The posts of a hall of `load_plan`, which is the actor of the number before: a motion, a light and a contact in
/// turn, each 10 later than the row before. Three rows are of one room, of seven in turn, and the light of four
/// groups out of eight is below 40.
pub fn load_feed(alloc: Global, rows: u32, hall: u32) -> Result<Feed, NoMemory>
    requires rows { (1 ≤ rows) × (rows ≤ 20000) }
    requires hall { (1 ≤ hall) × (hall ≤ 4) }
    ensures posts { IfOk result (λ posts. posts ≡ load_feed rows hall) }
    ensures fits { IfOk result (AllByRecursion (PostFits load_plan)) }
{
    let mut posts = Feed::new(alloc);
    for place in 0..rows {
        let row = row_at(alloc, hall - 1, place)?;
        let (target, message) = row;
        posts.push(target, message)?;
    }
    Ok(posts)
}

// Pushes the posts of the four halls into an empty list.
fn push_feeds(alloc: Global, feeds: &mut Feeds, rows: u32) -> Result<(), NoMemory>
    requires empty { feeds.old ≡ [] }
    requires rows { (1 ≤ rows) × (rows ≤ 20000) }
    ensures { OnOk result (feeds.new ≡ load_feeds rows) }
{
    feeds.push(load_feed(alloc, rows, 1)?)?;
    feeds.push(load_feed(alloc, rows, 2)?)?;
    feeds.push(load_feed(alloc, rows, 3)?)?;
    feeds.push(load_feed(alloc, rows, 4)?)?;
    Ok(())
}

/// The posts of the four halls, in order.
pub fn load_feeds(alloc: Global, rows: u32) -> Result<Feeds, NoMemory>
    requires rows { (1 ≤ rows) × (rows ≤ 20000) }
    ensures feeds { IfOk result (λ feeds. feeds ≡ load_feeds rows) }
{
    let mut feeds = Feeds::new(alloc);
    push_feeds(alloc, &mut feeds, rows)?;
    Ok(feeds)
}
