//! The answers as text.
ghost use Rattle.std.specs.Prelude.{◌≡◌, ◌++◌, ◌≤◌, IfOk, OnOk, OnErr, Some, length, map};
ghost use Rattle.std.specs.Fmt.{decimal};
ghost use Rattle.std.specs.List.{AllByRecursion};
ghost use Rattle.std.specs.Option.{option_copied};
ghost use Rattle.feed_answers.specs.Answers.{targets_of};
ghost use Rattle.feed_answers.specs.AnswersText.{answer_line, lines_from, row_text, value_text};
ghost use Rattle.feed_answers.specs.Queues.{HasNumbers, lines_by};

use crate::queues::{Queue, next_answer, queues_of, replies_to_all};
use fair_semantics::Run;
use feed_store::{Feed, Feeds};
use join_base::{Bytes, Items, NoMemory, Value, write_number, write_quoted};
use std::alloc::Global;

/// For each row of a feed the actor that it is for.
pub type Targets = Items<u32>;

// The actors of a feed's rows.
fn targets_of(alloc: Global, posts: &Feed) -> Result<Targets, NoMemory>
    ensures same { IfOk result (λ targets. targets ≡ targets_of posts.now) }
{
    let mut targets = Items::new(alloc);
    let mut rest = posts.reader();
    while let Some(target) = rest.next_target() {
        targets.push(target)?;
    }
    Ok(targets)
}

/// The actors of the rows of each feed: all that is needed of the feeds once they have been run.
pub fn all_targets(alloc: Global, feeds: &Feeds) -> Result<Items<Targets>, NoMemory>
    ensures same { IfOk result (λ targets. targets ≡ map targets_of feeds.now) }
{
    let mut targets = Items::new(alloc);
    for posts in feeds.as_slice() {
        targets.push(targets_of(alloc, posts)?)?;
    }
    Ok(targets)
}

fn write_value(text: &mut Bytes, value: &Value) -> Result<(), NoMemory>
    ensures { OnOk result (text.new ≡ text.old ++ value_text value.now) }
{
    match value {
        Value::Int(number) => write_number(text, i128::from(*number)),
        Value::Words(words) => write_quoted(text, words.bytes()),
    }
}

// Words and a number behind them.
fn write_labelled(text: &mut Bytes, label: &[u8], number: u64) -> Result<(), NoMemory>
    ensures { OnOk result (text.new ≡ text.old ++ (label.now ++ decimal number)) }
{
    text.push_all(label)?;
    write_number(text, i128::from(number))
}

// The line of a row up to its answer.
fn write_row(text: &mut Bytes, feed: u64, row: u64) -> Result<(), NoMemory>
    ensures { OnOk result (text.new ≡ text.old ++ row_text feed row) }
{
    write_labelled(text, b"answer feed ", feed)?;
    write_labelled(text, b" row ", row)
}

// The line of a row that has an answer.
fn write_line(text: &mut Bytes, feed: u64, row: u64, value: &Value) -> Result<(), NoMemory>
    ensures { OnOk result (text.new ≡ text.old ++ answer_line feed row (Some value.now)) }
{
    write_row(text, feed, row)?;
    text.push_all(b" ")?;
    write_value(text, value)?;
    text.push_all(b"\n")
}

// The line of a row, where it has an answer.
fn write_answer(
    text: &mut Bytes,
    feed: u64,
    row: u64,
    answer: Option<&Value>,
) -> Result<(), NoMemory>
    ensures { OnOk result (text.new ≡ text.old ++ answer_line feed row (option_copied answer.entry)) }
{
    match answer {
        None => Ok(()),
        Some(value) => write_line(text, feed, row, value),
    }
}

/// Appends the lines of a feed, where the queues have the answers of its rows. They are used up.
pub fn write_feed(
    text: &mut Bytes,
    queues: &mut [Queue<'_>],
    feed: u64,
    targets: &[u32],
) -> Result<(), NoMemory>
    ensures { OnOk result (text.new ≡ text.old ++ lines_by feed queues.old 1 targets.now) }
{
    for (place, actor) in targets.iter().enumerate() {
        let answer = next_answer(queues, *actor);
        write_answer(text, feed, place as u64 + 1, answer)?;
    }
    Ok(())
}

// The lines of all feeds.
fn write_feeds(
    alloc: Global,
    text: &mut Bytes,
    run: &Run,
    feeds: &[Targets],
) -> Result<(), NoMemory>
    requires numbered { AllByRecursion HasNumbers run.now.actors }
    requires few { length feeds.now ≤ 16 }
    ensures { OnOk result (text.new ≡ text.old ++ lines_from run.now.actors 1 feeds.now) }
{
    let runs = run.actors.as_slice();
    let replies = replies_to_all(alloc, runs)?;
    for (place, targets) in feeds.iter().enumerate() {
        let mut queues = queues_of(alloc, runs, replies.as_slice(), place as u32 + 1)?;
        let feed = place as u64 + 1;
        write_feed(text, queues.as_mut_slice(), feed, targets.as_slice())?;
    }
    Ok(())
}

/// Appends the answers of the rows of the feeds, of which the actors are given: feed by feed and row by row a line
/// `answer feed K row R VALUE` for each row that has an answer, which is what the run replied to the arrival that the
/// row became. After `NoMemory` nothing was appended.
pub fn print_answers(
    alloc: Global,
    run: &Run,
    feeds: &Items<Targets>,
    out: &mut Bytes,
) -> Result<(), NoMemory>
    requires numbered { AllByRecursion HasNumbers run.now.actors }
    requires few { length feeds.now ≤ 16 }
    ensures ok { OnOk result (out.new ≡ out.old ++ lines_from run.now.actors 1 feeds.now) }
    ensures err { OnErr result (out.new ≡ out.old) }
{
    let mut text = Bytes::new(alloc);
    write_feeds(alloc, &mut text, run, feeds.as_slice())?;
    out.push_all(text.bytes())
}
