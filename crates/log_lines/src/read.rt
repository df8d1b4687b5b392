//! A line as its parts.
ghost use Rattle.std.specs.Prelude.{◌≡◌, ◌-◌, ◌^◌, ◌<◌, ◌≤◌, length, IfSome, IsNone, IfOk, Err};
ghost use Rattle.std.specs.Char.{is_ascii_digit};
ghost use Rattle.script_types.specs.Typed.{IsTyped};
ghost use Rattle.log_lines.specs.Gives.{Gives, GivesFront};
ghost use Rattle.log_lines.specs.declared.line.Head.{Head};
ghost use Rattle.log_lines.specs.declared.line.LogLine.{LogLine};
ghost use Rattle.log_lines.specs.Forms.{HeadFits, IsHead, IsLine, TextsAreOneLine};
ghost use Rattle.log_lines.specs.Lines.{arrival_of, count_at, end_of, ending_at, ending_of, firing_of, first_line, head_of, heading_of, late_of, line_of, number_at, partials_of, post_of, print_of, reply_of, rule_at, sent_at, stamp_at, worded_line};

use crate::fault::LineFault;
use crate::line::{Arrival, Head, LogLine};
use crate::list::{is, left_of, numbers_of, taken_of};
use crate::message::{actor_of, message_of, source_at};
use crate::number::{count_of, number_of};
use crate::parts::{after, cut};
use crate::replies::has_reply;
use crate::value::{printed_of, value_of};
use fair_semantics::{Effect, Ending, Limits, LogVersion};
use join_base::{Source, Stamped, byte_at};
use script_types::Plan;
use std::alloc::Global;

// A number with a space behind it.
#[tactic(auto, unfolding(crate::specs::Lines::number_at))]
fn number_at(text: &[u8], max: u64) -> Option<(u64, &[u8])>
    ensures value { GivesFront result (number_at max text.now) }
    ensures small { IfSome result (λ p. p.0 ≤ max) }
{
    let (number, rest) = cut(text, b' ')?;
    let number = number_of(number, max)?;
    Some((number, rest))
}

// The same of a number from 1 on.
#[tactic(auto, unfolding(crate::specs::Lines::count_at))]
fn count_at(text: &[u8], max: u64) -> Option<(u64, &[u8])>
    ensures value { GivesFront result (count_at max text.now) }
    ensures small { IfSome result (λ p. p.0 ≤ max) }
{
    let (number, rest) = cut(text, b' ')?;
    let number = count_of(number, max)?;
    Some((number, rest))
}

// The first line: `joinlog VERSION arrivals A partials P feeds F`.
#[tactic(auto, unfolding(crate::specs::Lines::head_of))]
fn head_of(text: &[u8]) -> Option<Head>
    ensures { result ≡ head_of text.now }
{
    let rest = after(text, b"joinlog ")?;
    let (version, rest) = count_at(rest, 2)?;
    let rest = after(rest, b"arrivals ")?;
    let (arrivals, rest) = count_at(rest, 1_000_000)?;
    let rest = after(rest, b"partials ")?;
    let (partials, rest) = count_at(rest, 1_000_000)?;
    let rest = after(rest, b"feeds ")?;
    let feeds = count_of(rest, 16)?;
    Some(Head {
        version: LogVersion::numbered(version as u32),
        limits: Limits {
            arrivals: arrivals as u32,
            partials,
        },
        feeds: feeds as u32,
    })
}

// Behind `actor `.
#[tactic(auto, unfolding(crate::specs::Lines::heading_of))]
fn heading_of(plan: &Plan, text: &[u8]) -> Result<LogLine, LineFault>
    requires typed { IsTyped plan.now }
    ensures { Gives result (heading_of plan.now text.now) }
{
    match actor_of(plan, text) {
        Some(actor) => Ok(LogLine::Heading(actor)),
        None => Err(LineFault::NoLine),
    }
}

// The stamp of an arrival, which a plain log lacks.
#[tactic(auto, unfolding(crate::specs::Lines::stamp_at))]
fn stamp_at(version: LogVersion, text: &[u8]) -> Option<(u64, &[u8])>
    ensures value { GivesFront result (stamp_at version text.now) }
{
    if !version.has_stamps() {
        return Some((0, text));
    }
    let rest = after(text, b"at ")?;
    count_at(rest, Stamped::GREATEST)
}

// Where an arrival came from, with its number and stamp, and what stands behind it.
#[tactic(auto, unfolding(crate::specs::Lines::sent_at))]
fn sent_at<'a>(plan: &Plan, head: &Head, text: &'a [u8]) -> Option<((u32, u64, Source), &'a [u8])>
    requires typed { IsTyped plan.now }
    ensures { GivesFront result (sent_at plan.now head.now text.now) }
{
    let (number, rest) = number_at(text, u64::from(u32::MAX))?;
    let (stamp, rest) = stamp_at(head.version, rest)?;
    let rest = after(rest, b"from ")?;
    let (source, rest) = source_at(plan, head.feeds, rest)?;
    Some(((number as u32, stamp, source), rest))
}

// `N from SOURCE MESSAGE`, or `N at S from SOURCE MESSAGE`.
#[tactic(auto, unfolding(crate::specs::Lines::arrival_of))]
fn arrival_of(alloc: Global, plan: &Plan, head: &Head, text: &[u8]) -> Result<LogLine, LineFault>
    requires typed { IsTyped plan.now }
    ensures { Gives result (arrival_of plan.now head.now text.now) }
{
    let Some(((number, stamp, source), rest)) = sent_at(plan, head, text) else {
        return Err(LineFault::NoLine);
    };
    let message = message_of(alloc, plan, rest)?;
    Ok(LogLine::Arrives(Arrival {
        number,
        stamp,
        source,
        message,
    }))
}

// The rule that fired, and what stands behind `take `.
#[tactic(auto, unfolding(crate::specs::Lines::rule_at))]
fn rule_at(text: &[u8]) -> Option<(u32, &[u8])>
    ensures { GivesFront result (rule_at text.now) }
{
    let (rule, rest) = number_at(text, u64::from(u32::MAX))?;
    let rest = after(rest, b"take ")?;
    Some((rule as u32, rest))
}

// Behind `fire rule `.
#[tactic(auto, unfolding(crate::specs::Lines::firing_of))]
fn firing_of(alloc: Global, text: &[u8]) -> Result<LogLine, LineFault>
    ensures { Gives result (firing_of text.now) }
{
    let Some((rule, rest)) = rule_at(text) else {
        return Err(LineFault::NoLine);
    };
    let numbers = numbers_of(alloc, rest)?;
    if numbers.len() > 8 {
        return Err(LineFault::NoLine);
    }
    let taken = taken_of(numbers.as_slice());
    Ok(LogLine::Fires { rule, taken })
}

// Behind `print `.
#[tactic(auto, unfolding(crate::specs::Lines::print_of))]
fn print_of(alloc: Global, text: &[u8]) -> Result<LogLine, LineFault>
    ensures { Gives result (print_of text.now) }
{
    let printed = printed_of(alloc, text)?;
    Ok(LogLine::Does(Effect::Print(printed)))
}

// Behind `post `.
#[tactic(auto, unfolding(crate::specs::Lines::post_of))]
fn post_of(alloc: Global, plan: &Plan, text: &[u8]) -> Result<LogLine, LineFault>
    requires typed { IsTyped plan.now }
    ensures { Gives result (post_of plan.now text.now) }
{
    let Some((name, rest)) = cut(text, b' ') else {
        return Err(LineFault::NoLine);
    };
    let Some(target) = actor_of(plan, name) else {
        return Err(LineFault::NoLine);
    };
    let message = message_of(alloc, plan, rest)?;
    Ok(LogLine::Does(Effect::Post { target, message }))
}

// Behind `reply `, which a plain log lacks.
#[tactic(auto, unfolding(crate::specs::Lines::reply_of))]
fn reply_of(alloc: Global, head: &Head, text: &[u8]) -> Result<LogLine, LineFault>
    ensures { Gives result (reply_of head.now text.now) }
{
    if !head.version.has_replies() {
        return Err(LineFault::NoLine);
    }
    let Some((number, rest)) = number_at(text, u64::from(u32::MAX)) else {
        return Err(LineFault::NoLine);
    };
    let value = value_of(alloc, rest)?;
    let number = number as u32;
    Ok(LogLine::Does(Effect::Reply { number, value }))
}

// Behind `late `.
#[tactic(auto, unfolding(crate::specs::Lines::late_of))]
fn late_of(plan: &Plan, head: &Head, text: &[u8]) -> Result<LogLine, LineFault>
    requires typed { IsTyped plan.now }
    ensures { Gives result (late_of plan.now head.now text.now) }
{
    let Some((source, rest)) = source_at(plan, head.feeds, text) else {
        return Err(LineFault::NoLine);
    };
    match count_of(rest, u64::MAX) {
        Some(count) => Ok(LogLine::IsLate(source, count)),
        None => Err(LineFault::NoLine),
    }
}

#[tactic(auto, unfolding(crate::specs::Lines::ending_of))]
fn ending_of(text: &[u8]) -> Option<Ending>
    ensures { result ≡ ending_of text.now }
{
    if is(text, b"running") {
        Some(Ending::Running)
    } else if is(text, b"stopped") {
        Some(Ending::Stopped)
    } else if is(text, b"jammed") {
        Some(Ending::Jammed)
    } else if is(text, b"spent") {
        Some(Ending::Spent)
    } else {
        None
    }
}

// How an actor ended, and what stands behind `left `.
#[tactic(auto, unfolding(crate::specs::Lines::ending_at))]
fn ending_at(text: &[u8]) -> Option<(Ending, &[u8])>
    ensures { GivesFront result (ending_at text.now) }
{
    let (ending, rest) = cut(text, b' ')?;
    let ending = ending_of(ending)?;
    let rest = after(rest, b"left ")?;
    Some((ending, rest))
}

// Behind `end `.
#[tactic(auto, unfolding(crate::specs::Lines::end_of))]
fn end_of(alloc: Global, text: &[u8]) -> Result<LogLine, LineFault>
    ensures { Gives result (end_of text.now) }
{
    let Some((ending, rest)) = ending_at(text) else {
        return Err(LineFault::NoLine);
    };
    let Some((numbers, rest)) = cut(rest, b' ') else {
        return Err(LineFault::NoLine);
    };
    let Some(partials) = partials_of(rest) else {
        return Err(LineFault::NoLine);
    };
    let left = left_of(alloc, numbers)?;
    Ok(LogLine::Ends {
        ending,
        left,
        partials,
    })
}

#[tactic(auto, unfolding(crate::specs::Lines::partials_of))]
fn partials_of(text: &[u8]) -> Option<u64>
    ensures { result ≡ partials_of text.now }
{
    let rest = after(text, b"partials ")?;
    number_of(rest, u64::MAX)
}

// The line that begins with a word.
#[tactic(auto, unfolding(crate::specs::Lines::worded_line))]
fn worded_line(alloc: Global, plan: &Plan, head: &Head, text: &[u8]) -> Result<LogLine, LineFault>
    requires typed { IsTyped plan.now }
    ensures { Gives result (worded_line plan.now head.now text.now) }
{
    if let Some(rest) = after(text, b"actor ") {
        return heading_of(plan, rest);
    }
    if let Some(rest) = after(text, b"fire rule ") {
        return firing_of(alloc, rest);
    }
    if let Some(rest) = after(text, b"print ") {
        return print_of(alloc, rest);
    }
    if let Some(rest) = after(text, b"post ") {
        return post_of(alloc, plan, rest);
    }
    if let Some(rest) = after(text, b"reply ") {
        return reply_of(alloc, head, rest);
    }
    if let Some(rest) = after(text, b"late ") {
        return late_of(plan, head, rest);
    }
    if let Some(rest) = after(text, b"end ") {
        return end_of(alloc, rest);
    }
    Err(LineFault::NoLine)
}

// The line behind the first one.
#[tactic(auto, unfolding(crate::specs::Lines::line_of))]
fn line_of(alloc: Global, plan: &Plan, head: &Head, text: &[u8]) -> Result<LogLine, LineFault>
    requires typed { IsTyped plan.now }
    ensures { Gives result (line_of plan.now head.now text.now) }
{
    if byte_at(text, 0).is_ascii_digit() {
        arrival_of(alloc, plan, head, text)
    } else {
        worded_line(alloc, plan, head, text)
    }
}

// The first line, of a version that a run of the plan can have.
#[tactic(auto, unfolding(crate::specs::Lines::first_line))]
fn first_line(plan: &Plan, text: &[u8]) -> Option<Head>
    ensures { result ≡ first_line plan.now text.now }
{
    let head = head_of(text)?;
    let may_reply = head.version.has_replies();
    if has_reply(plan) && !may_reply {
        return None;
    }
    Some(head)
}

/// The first line that the text is, which lacks its LF: it tells the version of a log, the limits of each actor and the
/// number of feeds. `None` exactly where the text is none that a run of the plan can have.
pub fn read_head(plan: &Plan, text: &[u8]) -> Option<Head>
    ensures found { IfSome result (IsHead plan.now text.now) }
    ensures none { IsNone result → (head : Head) → IsHead plan.now text.now head → ⊥ }
{
    first_line(plan, text)
}

/// The line behind the first one that the text is, which lacks its LF. `NoLine` exactly where it is none of a log with
/// that first line.
pub fn read_line(alloc: Global, plan: &Plan, head: &Head, text: &[u8]) -> Result<LogLine, LineFault>
    requires typed { IsTyped plan.now }
    requires head { HeadFits plan.now head.now }
    ensures found { IfOk result (IsLine plan.now head.now text.now) }
    ensures none { result ≡ Err LineFault.NoLine → (line : LogLine) → IsLine plan.now head.now text.now line → ⊥ }
{
    line_of(alloc, plan, head, text)
}

/// A text is one line at most.
pub fn one_line()
    ensures { TextsAreOneLine }
{}
