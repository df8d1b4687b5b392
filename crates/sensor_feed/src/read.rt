//! The posts of a feed.
ghost use Rattle.std.specs.Prelude.{◌≡◌, ◌∷◌, [], ◌++◌, IfOk, OnOk};
ghost use Rattle.std.specs.List.{AllByRecursion};
ghost use Rattle.script_types.specs.Typed.{IsTyped};
ghost use Rattle.fair_semantics.specs.Fits.{PostFits};
ghost use Rattle.sensor_feed.specs.Feed.{feed_of};
ghost use Rattle.sensor_feed.specs.Gives.{GivesPosts, fault_at};
ghost use Rattle.sensor_feed.specs.Line.{IsPlain};

use crate::fault::{FeedFault, Refusal};
use crate::line::{is_plain, take_line};
use crate::names::Names;
use crate::post::post_of;
use crate::record::{reader_of, take_record};
use crate::row::Row;
use csv::ByteRecord;
use feed_store::Feed;
use join_base::{Message, NoMemory};
use script_types::Plan;
use std::alloc::Global;

// A feed without a post, with room for as many as there may be in a file of this size, up to a number.
fn feed_with_room(alloc: Global, size: usize) -> Result<Feed, NoMemory>
    ensures { IfOk result (λ posts. posts ≡ []) }
{
    Feed::with_room(alloc, (size / 4 + 1).min(4096))
}

// Appends a post.
#[inline(always)]
fn push_post(posts: &mut Feed, post: (u32, Message)) -> Result<(), NoMemory>
    ensures { OnOk result (posts.new ≡ posts.old ++ post ∷ []) }
{
    let (target, message) = post;
    posts.push(target, message)
}

// The fault of the record of this number.
fn fault_at(row: u64, refusal: Refusal) -> FeedFault
    ensures { result ≡ fault_at row refusal }
{
    match refusal {
        Refusal::Bad(cause) => FeedFault::Bad { row, cause },
        Refusal::NoMemory => FeedFault::NoMemory,
    }
}

// The posts of a feed whose lines are its records.
fn posts_of_lines(alloc: Global, names: &Names<'_>, bytes: &[u8]) -> Result<Feed, FeedFault>
    requires typed { IsTyped names.now.plan.now }
    requires plain { IsPlain bytes.now }
    ensures { GivesPosts result (feed_of names.now.plan.now bytes.now) }
{
    let mut posts = feed_with_room(alloc, bytes.len())?;
    let mut fields = Vec::new(alloc);
    let mut rest = bytes;
    for row in 1..u64::MAX {
        match take_line(rest, &mut fields)? {
            Some(others) => rest = others,
            None => return Ok(posts),
        }
        match post_of(alloc, names, Row::Line(fields.as_slice())) {
            Ok(post) => push_post(&mut posts, post)?,
            Err(refusal) => return Err(fault_at(row, refusal)),
        }
    }
    // No memory holds so many records.
    Err(FeedFault::NoMemory)
}

// The posts of a feed that csv reads.
fn posts_of_records(alloc: Global, names: &Names<'_>, bytes: &[u8]) -> Result<Feed, FeedFault>
    requires typed { IsTyped names.now.plan.now }
    ensures { GivesPosts result (feed_of names.now.plan.now bytes.now) }
{
    let mut reader = reader_of(alloc, bytes)?;
    let mut record = ByteRecord::new(alloc);
    let mut posts = feed_with_room(alloc, bytes.len())?;
    for row in 1..u64::MAX {
        let found = take_record(&mut reader, &mut record)?;
        if !found {
            return Ok(posts);
        }
        match post_of(alloc, names, Row::Read(&record)) {
            Ok(post) => push_post(&mut posts, post)?,
            Err(refusal) => return Err(fault_at(row, refusal)),
        }
    }
    // No memory holds so many records.
    Err(FeedFault::NoMemory)
}

// What `read_feed` gives.
fn posts_of(alloc: Global, plan: &Plan, bytes: &[u8]) -> Result<Feed, FeedFault>
    requires typed { IsTyped plan.now }
    ensures { GivesPosts result (feed_of plan.now bytes.now) }
{
    let names = Names::new(alloc, plan)?;
    if is_plain(bytes) {
        posts_of_lines(alloc, &names, bytes)
    } else {
        posts_of_records(alloc, &names, bytes)
    }
}

/// The posts of a feed, in order: for each record the number of the actor and the message, whose fields fit its kind. A
/// record has an actor's name, a kind's name and a field for each field of the kind; a name stands for its first
/// declaration.
///
/// `Bad` comes exactly where a record is in fault. It is the first one, counted from 1, with the first cause that
/// applies: the actor, that there is a second field, the kind, the number of further fields, and then field by field.
/// What a record is, is what csv reads as one, with commas, double quotes and line ends by CR or LF, and without a
/// header row.
pub fn read_feed(alloc: Global, plan: &Plan, bytes: &[u8]) -> Result<Feed, FeedFault>
    requires typed { IsTyped plan.now }
    ensures feed { GivesPosts result (feed_of plan.now bytes.now) }
    ensures fits { IfOk result (AllByRecursion (PostFits plan.now)) }
{
    posts_of(alloc, plan, bytes)
}
