//! The search for the first line that is not that of the feeds.
ghost use Rattle.std.specs.Prelude.{◌≡◌, ◌+◌, ◌^◌, ◌<◌, ◌≤◌, length};
ghost use Rattle.join_base.specs.declared.message.Source.TheVariants.{Feed};
ghost use Rattle.fair_semantics.specs.Linked.{count_of, same_source};
ghost use Rattle.log_replay.specs.Kept.{entries_size, entry_size, section_size, sections_size};
ghost use Rattle.log_audit.specs.Wrong.{arrival_wrong, end_wrong, refused};
ghost use Rattle.log_audit.specs.Search.{earlier, left_behind, link_wrong, run_wrong, section_wrong};

use crate::refusal::Difference;
use crate::rows::{Rows, SeenRow, number_of, row_count};
use fair_semantics::{ActorRun, Entry, Run};
use join_base::{Message, Posts, Source};
use log_posts::same_message;
use log_replay::{entry_size, section_size};

// Whether the source is this feed.
fn is_feed(source: Source, feed: u32) -> bool
    ensures { result ≡ same_source source (Feed feed) }
{
    source == Source::Feed(feed)
}

// How many messages of a feed were late.
fn late_count(late: &[(Source, u64)], feed: u32) -> u64
    ensures { result ≡ count_of (Feed feed) late.now }
{
    for (of, count) in late {
        if is_feed(*of, feed) {
            return *count;
        }
    }
    0
}

// What is wrong where this message arrives in place of the next row.
fn refused(line: u64, feed: u32, row: Option<SeenRow>, message: &Message) -> Option<Difference>
    ensures { result ≡ refused line feed row.entry message.now }
{
    let Some(row) = row else {
        return Some(Difference {
            line,
            feed,
            row: None,
        });
    };
    if same_message(row.message(), message) {
        None
    } else {
        Some(Difference {
            line,
            feed,
            row: Some(row.number()),
        })
    }
}

// What is wrong at an arrival, where these rows of the feed are left. Where it is from that feed, it takes one of them.
fn arrival_wrong(line: u64, feed: u32, left: &mut Rows<'_>, entry: &Entry) -> Option<Difference>
    ensures wrong { result ≡ arrival_wrong line feed left.old entry.now }
    ensures left { left.new ≡ left_behind feed left.old entry.now }
{
    if is_feed(entry.source, feed) {
        refused(line, feed, left.next(), &entry.message)
    } else {
        None
    }
}

// What is wrong at the end of a section, where these rows of the feed are left and so many messages of it were late.
fn end_wrong(line: u64, feed: u32, left: Rows<'_>, late: u64) -> Option<Difference>
    ensures { result ≡ end_wrong line feed left.entry late }
{
    if late == row_count(left.again()) {
        return None;
    }
    let mut rest = left;
    Some(Difference {
        line,
        feed,
        row: number_of(rest.next()),
    })
}

// The first line that is wrong by these rows of a feed: of the entries, the first at this line, or the end line behind
// them and the late ones.
fn link_wrong(
    rows: Rows<'_>,
    feed: u32,
    late: u64,
    lates: u64,
    first: u64,
    entries: &[Entry],
) -> Option<Difference>
    requires { first + entries_size entries.now + lates < 2 ^ 64 }
    ensures { result ≡ link_wrong feed late lates first rows.entry entries.now }
{
    let mut left = rows;
    let mut line = first;
    for entry in entries {
        if let Some(difference) = arrival_wrong(line, feed, &mut left, entry) {
            return Some(difference);
        }
        line += entry_size(entry);
    }
    end_wrong(line + lates, feed, left, late)
}

// The one with the lesser line, of two of which each may be missing.
fn earlier(first: Option<Difference>, second: Option<Difference>) -> Option<Difference>
    ensures { result ≡ earlier first second }
{
    match first {
        None => second,
        Some(one) => match second {
            None => Some(one),
            Some(other) => {
                if other.line < one.line {
                    Some(other)
                } else {
                    Some(one)
                }
            }
        },
    }
}

// The first line that is wrong in the section of an actor, which begins at this line.
fn section_wrong(feeds: &[Posts], actor: u32, line: u64, own: &ActorRun) -> Option<Difference>
    requires few { length feeds.now ≤ 16 }
    requires small { line + section_size own.now < 2 ^ 64 }
    ensures { result ≡ section_wrong feeds.now actor line own.now }
{
    let lates = own.late.len() as u64;
    let mut first = None;
    for (place, posts) in feeds.iter().enumerate() {
        let feed = place as u32 + 1;
        let late = late_count(own.late.as_slice(), feed);
        let rows = Rows::new(actor, posts.as_slice());
        let wrong = link_wrong(rows, feed, late, lates, line + 1, own.entries.as_slice());
        first = earlier(first, wrong);
    }
    first
}

/// The first line of a run that is not that of the feeds.
pub(crate) fn run_wrong(feeds: &[Posts], run: &Run) -> Option<Difference>
    requires few { length feeds.now ≤ 16 }
    requires actors { length run.now.actors ≤ 32 }
    requires small { 2 + sections_size run.now.actors < 2 ^ 64 }
    ensures { result ≡ run_wrong feeds.now run.now }
{
    let mut line: u64 = 2;
    for (actor, own) in run.actors.as_slice().iter().enumerate() {
        if let Some(difference) = section_wrong(feeds, actor as u32, line, own) {
            return Some(difference);
        }
        line += section_size(own);
    }
    None
}
