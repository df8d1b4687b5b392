//! What `audit` and its files come to.
ghost use Rattle.std.specs.Prelude.{◌≡◌, ◌≢◌, ◌<◌, ◌≤◌, length, Err, IfOk};
ghost use Rattle.script_types.specs.Typed.{IsTyped};
ghost use Rattle.command_words.specs.Views.{words_in};
ghost use Rattle.script_files.specs.Loading.{LoadCause, Tells};
ghost use Rattle.script_files.specs.Verdict.{Given};
ghost use Rattle.look_command.specs.Replying.{AuditsFeeds, IsReplied, IsShowable, LoadsBytes, ReadsFeeds, Replies, replied_with, stop_behind};
ghost use Rattle.look_command.specs.Request.{audit_in};
ghost use Rattle.look_command.specs.Verdict.{audited_as};

use crate::reply::Reply;
use crate::request::AuditWords;
use crate::runs::refused;
use difference_text::print_difference;
use feed_store::{Feeds, unpacked_all};
use join_base::{Bytes, FeedList, Inputs, NoMemory, Steps, Word};
use join_command::{LogCause, MAX_LOG, Refusal, Stop, fetch_stop, load_feeds, load_script};
use log_audit::{AuditRefusal, Difference, audit};
use log_replay::LogRefusal;
use script_types::Plan;
use std::alloc::Global;
use std::marker::Brand;
use std::sync::ledger::{Blank, Ledger};

// A stop of feeds, where a log stands in front of them: a file that is too long is one file later.
fn stop_behind(stop: Stop) -> Stop
    ensures { result ≡ stop_behind stop }
{
    match stop {
        Stop::Refused(Refusal::TooLong(file)) => {
            Stop::Refused(Refusal::TooLong(file.saturating_add(1)))
        }
        Stop::Refused(Refusal::Script { place, cause }) => {
            Stop::Refused(Refusal::Script { place, cause })
        }
        Stop::Refused(Refusal::Feed { feed, row, cause }) => {
            Stop::Refused(Refusal::Feed { feed, row, cause })
        }
        Stop::Refused(Refusal::Log { line, cause }) => {
            Stop::Refused(Refusal::Log { line, cause })
        }
        Stop::ReadFault => Stop::ReadFault,
        Stop::NoMemory => Stop::NoMemory,
    }
}

// Where the log of these bytes is not that of its feeds.
fn other_row(
    alloc: Global,
    plan: &Plan,
    bytes: &[u8],
    feeds: &FeedList,
    difference: Difference,
) -> Result<Reply, Stop>
    ensures reply { IsReplied (audited_as plan.now bytes.now feeds.now (Err (AuditRefusal.Row difference)))
        (replied_with result) }
    ensures read { result ≢ Err Stop.ReadFault }
    ensures showable { IfOk result IsShowable }
{
    match print_difference(alloc, plan, bytes, feeds, difference) {
        Ok(shown) => Ok(Reply::OtherRow { difference, shown }),
        Err(NoMemory) => Err(Stop::NoMemory),
    }
}

// What an audit comes to.
fn audited(
    alloc: Global,
    plan: &Plan,
    bytes: &[u8],
    feeds: &FeedList,
    answer: Result<u64, AuditRefusal>,
) -> Result<Reply, Stop>
    ensures reply { IsReplied (audited_as plan.now bytes.now feeds.now answer) (replied_with result) }
    ensures read { result ≢ Err Stop.ReadFault }
    ensures showable { IfOk result IsShowable }
{
    match answer {
        Ok(arrivals) => Ok(Reply::Accepted(arrivals)),
        Err(AuditRefusal::Log(LogRefusal::Bad { line })) => Err(refused(line, LogCause::Bad)),
        Err(AuditRefusal::Log(LogRefusal::Differs { line })) => Err(refused(
            line,
            LogCause::Differs,
        )),
        Err(AuditRefusal::Log(LogRefusal::NoMemory)) => Err(Stop::NoMemory),
        Err(AuditRefusal::Feeds(count)) => Ok(Reply::OtherFeeds(count)),
        Err(AuditRefusal::Row(difference)) => other_row(alloc, plan, bytes, feeds, difference),
    }
}

// What the log of these bytes comes to by the posts of its feeds.
fn audit_counted<L: Ledger>(
    alloc: Global,
    plan: &Plan,
    bytes: &[u8],
    feeds: &FeedList,
    blank: Blank,
) -> Result<Reply, Stop>
    requires typed { IsTyped plan.now }
    requires name { blank.name ≡ L.name }
    requires blank_parts { blank.parts ≡ L.parts }
    requires some { 0 < L.parts }
    ensures answer { ReadsFeeds plan.now bytes.now (Given feeds.now) (replied_with result) }
    ensures read { result ≢ Err Stop.ReadFault }
    ensures showable { IfOk result IsShowable }
{
    let mut steps = Steps::<L>::new(blank);
    let answer = audit(alloc, plan, bytes, feeds, &mut steps);
    audited(alloc, plan, bytes, feeds, answer)
}

fn audit_lists(alloc: Global, plan: &Plan, bytes: &[u8], feeds: &FeedList) -> Result<Reply, Stop>
    requires typed { IsTyped plan.now }
    ensures answer { ReadsFeeds plan.now bytes.now (Given feeds.now) (replied_with result) }
    ensures read { result ≢ Err Stop.ReadFault }
    ensures showable { IfOk result IsShowable }
{
    audit_counted::<Brand>(alloc, plan, bytes, feeds, Blank::new(1))
}

fn audit_bytes(alloc: Global, plan: &Plan, bytes: &[u8], feeds: &Feeds) -> Result<Reply, Stop>
    requires typed { IsTyped plan.now }
    ensures answer { ReadsFeeds plan.now bytes.now (Given feeds.now) (replied_with result) }
    ensures read { result ≢ Err Stop.ReadFault }
    ensures showable { IfOk result IsShowable }
{
    match unpacked_all(alloc, feeds) {
        Ok(lists) => audit_lists(alloc, plan, bytes, &lists),
        Err(NoMemory) => Err(Stop::NoMemory),
    }
}

// Fetches a log.
fn load_bytes<I: Inputs>(alloc: Global, inputs: &mut I, name: &Word) -> Result<Bytes, Stop>
    ensures told { Tells (I.tells inputs.old) (I.tells inputs.new) (λ before now. LoadsBytes before now
        name.now result) }
    ensures cause { LoadCause (I.faults inputs.old) (I.faults inputs.new) result }
{
    match inputs.fetch(alloc, name.as_str(), MAX_LOG) {
        Ok(file) => Ok(file),
        Err(fault) => Err(fetch_stop(2, fault)),
    }
}

// Fetches the feeds, and audits the log of these bytes.
fn audit_feeds<I: Inputs>(
    alloc: Global,
    inputs: &mut I,
    plan: &Plan,
    bytes: &[u8],
    names: &[&Word],
) -> Result<Reply, Stop>
    requires typed { IsTyped plan.now }
    requires few { length names.now ≤ 16 }
    ensures told { Tells (I.tells inputs.old) (I.tells inputs.new) (λ before now. AuditsFeeds plan.now bytes.now
        (words_in names.now) before now result) }
    ensures cause { LoadCause (I.faults inputs.old) (I.faults inputs.new) result }
    ensures showable { IfOk result IsShowable }
{
    match load_feeds(alloc, inputs, plan, names) {
        Err(stop) => Err(stop_behind(stop)),
        Ok(feeds) => audit_bytes(alloc, plan, bytes, &feeds),
    }
}

/// What `audit SCRIPT LOG FEED..` comes to: the script is fetched, the log, and then the feeds in order, and the log is
/// audited.
pub(crate) fn audit_reply<I: Inputs>(
    alloc: Global,
    inputs: &mut I,
    words: &AuditWords<'_>,
) -> Result<Reply, Stop>
    requires few { length (words_in words.now.feeds.items) ≤ 16 }
    ensures told { Tells (I.tells inputs.old) (I.tells inputs.new) (λ before now. Replies (audit_in words.now)
        before now result) }
    ensures cause { LoadCause (I.faults inputs.old) (I.faults inputs.new) result }
    ensures showable { IfOk result IsShowable }
{
    match load_script(alloc, inputs, words.script) {
        Err(stop) => Err(stop),
        Ok(plan) => match load_bytes(alloc, inputs, words.log) {
            Err(stop) => Err(stop),
            Ok(log) => audit_feeds(alloc, inputs, &plan, log.bytes(), words.feeds.as_slice()),
        },
    }
}
