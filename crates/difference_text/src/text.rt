//! The text of a difference. Each function that writes appends what its name says. Without memory some of it may be
//! appended.
ghost use Rattle.std.specs.Prelude.{◌≡◌, ◌++◌, Some, slice_get, IfOk, OnOk};
ghost use Rattle.std.specs.Option.{option_map};
ghost use Rattle.log_reader.specs.Places.{whole_lines};
ghost use Rattle.difference_text.specs.Text.{difference_text, post_at, post_in, stands_text, wanted_text};

use arrival_log::write_message;
use join_base::{Bytes, FeedList, Message, NoMemory};
use log_audit::Difference;
use log_reader::line_at;
use script_types::{Plan, write_actor_name};
use std::alloc::Global;

fn write_stands(text: &mut Bytes, bytes: &[u8], place: u64) -> Result<(), NoMemory>
    ensures { OnOk result (text.new ≡ text.old ++ stands_text (slice_get (whole_lines bytes.now) place)) }
{
    match line_at(bytes, place) {
        Some(line) => {
            text.push_all(b"log ")?;
            text.push_all(line)?;
            text.push_all(b"\n")
        }
        None => Ok(()),
    }
}

fn write_post(text: &mut Bytes, plan: &Plan, post: &(u32, Message)) -> Result<(), NoMemory>
    ensures { OnOk result (text.new ≡ text.old ++ wanted_text plan.now (Some post.now)) }
{
    text.push_all(b"row ")?;
    write_actor_name(text, plan, post.0)?;
    text.push_all(b" ")?;
    write_message(text, plan, &post.1)?;
    text.push_all(b"\n")
}

fn write_wanted(
    text: &mut Bytes,
    plan: &Plan,
    post: Option<&(u32, Message)>,
) -> Result<(), NoMemory>
    ensures { OnOk result (text.new ≡ text.old ++ wanted_text plan.now (option_map post_in post.entry)) }
{
    match post {
        Some(post) => write_post(text, plan, post),
        None => Ok(()),
    }
}

// The post of a row of a feed, both counted from 1, if there is one.
fn post_at(feeds: &FeedList, feed: u32, row: Option<u64>) -> Option<&(u32, Message)>
    ensures { option_map post_in result ≡ post_at feeds.now feed row }
{
    let Some(row) = row else {
        return None;
    };
    match feeds.as_slice().get(feed.saturating_sub(1) as usize) {
        Some(posts) => posts.as_slice().get(row.saturating_sub(1) as usize),
        None => None,
    }
}

/// What stands in a log at its first difference from some feeds, and what should have come there: a line `log LINE`
/// with that line of the log, and a line `row ACTOR KIND(VALUES)` with the row of the feed, where one is left.
pub fn print_difference(
    alloc: Global,
    plan: &Plan,
    bytes: &[u8],
    feeds: &FeedList,
    difference: Difference,
) -> Result<Bytes, NoMemory>
    ensures text { IfOk result (λ text. text ≡ difference_text plan.now bytes.now feeds.now difference) }
{
    let mut text = Bytes::new(alloc);
    write_stands(&mut text, bytes, difference.line.saturating_sub(1))?;
    let post = post_at(feeds, difference.feed, difference.row);
    write_wanted(&mut text, plan, post)?;
    Ok(text)
}
