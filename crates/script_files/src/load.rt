//! Fetching and reading the files of a command.
ghost use Rattle.std.specs.Prelude.{◌≡◌, ◌≢◌, ◌≤◌, length, Err, IfOk};
ghost use Rattle.std.specs.List.{AllByRecursion};
ghost use Rattle.plan_text.specs.PlanText.{plan_text};
ghost use Rattle.script_lint.specs.LintText.{lint_text};
ghost use Rattle.script_types.specs.Typed.{IsTyped};
ghost use Rattle.fair_semantics.specs.Fits.{PostFits};
ghost use Rattle.sensor_feed.specs.Feed.{feed_of};
ghost use Rattle.command_words.specs.Views.{words_in};
ghost use Rattle.script_files.specs.Files.{Holds};
ghost use Rattle.script_files.specs.Loading.{LoadCause, LoadsFeed, LoadsFeeds, LoadsScript, LoadsText, ReadsFeed, ReadsScript, Tells, fetch_stop};
ghost use Rattle.script_files.specs.Verdict.{ScriptGives, TextGives, posts_or};

use crate::stop::{Refusal, Stop};
use feed_store::{Feed, Feeds};
use join_base::{Bytes, FetchFault, Inputs, Word};
use script_types::Plan;
use sensor_feed::{FeedFault, read_feed};
use std::alloc::Global;

/// The most bytes of a script and of a feed.
pub const MAX_FILE: u64 = 16_777_216;

/// Why the file of this number gave no bytes.
pub fn fetch_stop(file: u32, fault: FetchFault) -> Stop
    ensures { result ≡ fetch_stop file fault }
{
    match fault {
        FetchFault::Failed => Stop::ReadFault,
        FetchFault::TooLong => Stop::Refused(Refusal::TooLong(file)),
        FetchFault::NoMemory => Stop::NoMemory,
    }
}

// The plan of a script's bytes.
fn read_plan(alloc: Global, bytes: &[u8]) -> Result<Plan, Stop>
    ensures plan { ReadsScript ScriptGives (Holds bytes.now) result }
    ensures read { result ≢ Err Stop.ReadFault }
    ensures typed { IfOk result IsTyped }
{
    Ok(script_check::read_plan(alloc, bytes)?)
}

/// Fetches a script and reads its plan, which is well typed.
pub fn load_script<I: Inputs>(alloc: Global, inputs: &mut I, name: &Word) -> Result<Plan, Stop>
    ensures told { Tells (I.tells inputs.old) (I.tells inputs.new) (λ before now. LoadsScript before now
        name.now result) }
    ensures cause { LoadCause (I.faults inputs.old) (I.faults inputs.new) result }
    ensures typed { IfOk result IsTyped }
{
    match inputs.fetch(alloc, name.as_str(), MAX_FILE) {
        Ok(file) => read_plan(alloc, file.bytes()),
        Err(fault) => Err(fetch_stop(1, fault)),
    }
}

// The text of the plan of a script's bytes.
fn read_plan_text(alloc: Global, bytes: &[u8]) -> Result<Bytes, Stop>
    ensures text { ReadsScript (TextGives plan_text) (Holds bytes.now) result }
    ensures read { result ≢ Err Stop.ReadFault }
{
    Ok(script_check::read_plan_text(alloc, bytes)?)
}

/// Fetches a script and gives the text of its plan. No more than one definition of the plan is held at a time.
pub fn load_plan_text<I: Inputs>(alloc: Global, inputs: &mut I, name: &Word) -> Result<Bytes, Stop>
    ensures told { Tells (I.tells inputs.old) (I.tells inputs.new) (λ before now. LoadsText plan_text before now
        name.now result) }
    ensures cause { LoadCause (I.faults inputs.old) (I.faults inputs.new) result }
{
    match inputs.fetch(alloc, name.as_str(), MAX_FILE) {
        Ok(file) => read_plan_text(alloc, file.bytes()),
        Err(fault) => Err(fetch_stop(1, fault)),
    }
}

// The text of the findings of the plan of a script's bytes.
fn read_lint_text(alloc: Global, bytes: &[u8]) -> Result<Bytes, Stop>
    ensures text { ReadsScript (TextGives lint_text) (Holds bytes.now) result }
    ensures read { result ≢ Err Stop.ReadFault }
{
    Ok(script_check::read_lint_text(alloc, bytes)?)
}

/// Fetches a script and gives the text of its plan's findings. The definitions of no more than one actor are held at a
/// time.
pub fn load_lint_text<I: Inputs>(alloc: Global, inputs: &mut I, name: &Word) -> Result<Bytes, Stop>
    ensures told { Tells (I.tells inputs.old) (I.tells inputs.new) (λ before now. LoadsText lint_text before now
        name.now result) }
    ensures cause { LoadCause (I.faults inputs.old) (I.faults inputs.new) result }
{
    match inputs.fetch(alloc, name.as_str(), MAX_FILE) {
        Ok(file) => read_lint_text(alloc, file.bytes()),
        Err(fault) => Err(fetch_stop(1, fault)),
    }
}

// The posts of the bytes of the feed of this number.
fn read_posts(alloc: Global, plan: &Plan, feed: u32, bytes: &[u8]) -> Result<Feed, Stop>
    requires typed { IsTyped plan.now }
    ensures posts { ReadsFeed (posts_or feed (feed_of plan.now bytes.now)) result }
    ensures read { result ≢ Err Stop.ReadFault }
    ensures fits { IfOk result (AllByRecursion (PostFits plan.now)) }
{
    match read_feed(alloc, plan, bytes) {
        Ok(posts) => Ok(posts),
        Err(FeedFault::Bad { row, cause }) => {
            Err(Stop::Refused(Refusal::Feed { feed, row, cause }))
        }
        Err(FeedFault::NoMemory) => Err(Stop::NoMemory),
    }
}

// Fetches the feed of this number and reads its posts.
fn load_feed<I: Inputs>(
    alloc: Global,
    inputs: &mut I,
    plan: &Plan,
    feed: u32,
    name: &Word,
) -> Result<Feed, Stop>
    requires typed { IsTyped plan.now }
    requires few { feed ≤ 16 }
    ensures told { Tells (I.tells inputs.old) (I.tells inputs.new) (λ before now. LoadsFeed before now plan.now feed
        name.now result) }
    ensures cause { LoadCause (I.faults inputs.old) (I.faults inputs.new) result }
    ensures fits { IfOk result (AllByRecursion (PostFits plan.now)) }
{
    match inputs.fetch(alloc, name.as_str(), MAX_FILE) {
        Ok(file) => read_posts(alloc, plan, feed, file.bytes()),
        Err(fault) => Err(fetch_stop(feed + 1, fault)),
    }
}

/// Fetches feeds in order and reads their posts, up to the first that gives none.
pub fn load_feeds<I: Inputs>(
    alloc: Global,
    inputs: &mut I,
    plan: &Plan,
    names: &[&Word],
) -> Result<Feeds, Stop>
    requires typed { IsTyped plan.now }
    requires few { length names.now ≤ 16 }
    ensures told { Tells (I.tells inputs.old) (I.tells inputs.new) (λ before now. LoadsFeeds before now plan.now
        (words_in names.now) result) }
    ensures cause { LoadCause (I.faults inputs.old) (I.faults inputs.new) result }
    ensures fits { IfOk result (AllByRecursion (AllByRecursion (PostFits plan.now))) }
    ensures count { IfOk result (λ feeds. length feeds ≡ length names.now) }
{
    let mut feeds = Feeds::new(alloc);
    for name in names {
        let number = feeds.len() as u32 + 1;
        match load_feed(alloc, inputs, plan, number, name) {
            Ok(posts) => feeds.push(posts)?,
            Err(stop) => return Err(stop),
        }
    }
    Ok(feeds)
}
