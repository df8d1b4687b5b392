//! Small scripts against a plain listing of their matches.
ghost use Rattle.std.specs.Prelude.{◌≡◌, ◌<◌, IfOk};
ghost use Rattle.join_base.specs.Late.{HasCount};
ghost use Rattle.join_base.specs.declared.message.Source.TheVariants as source;
ghost use Rattle.script_types.specs.Typed.{IsTyped};

use crate::fed::{first_actor, limits_of, outcomes};
use actor_turn::Actor;
use fair_semantics::Fired;
use join_base::{Posts, Steps};
use script_check::read_plan;
use script_types::Plan;
use sensor_feed::read_feed;
use std::alloc::Global;
use std::marker::Brand;
use std::sync::ledger::{Blank, Ledger};
use std::test::Fail;

// What a definition asks of the values x and y of its first two messages.
#[derive(Clone, Copy)]
enum Guard {
    Any,
    One,
    Equal,
    Less,
}

// A definition by the kinds of its patterns, of which there may be fewer.
#[derive(Clone, Copy)]
struct Rule {
    kinds: [Option<u32>; 3],
    guard: Guard,
}

// A message, and whether it was brought and not yet taken.
#[derive(Clone, Copy)]
struct TestMessage {
    kind: u32,
    value: i64,
    waits: bool,
}

// A match, whose fields are its key: the lesser of two is taken. A number is 0 where there is no pattern.
#[derive(Clone, Copy, PartialEq, Eq, PartialOrd, Ord)]
struct Match {
    ascending: [u32; 3],
    rule: u32,
    taken: [u32; 3],
}

// The next number by the seed, below `sides`.
fn roll(state: &mut u32, sides: u32) -> u32
    requires { 0 < sides }
{
    *state = state.wrapping_mul(1664525).wrapping_add(1013904223);
    (*state >> 16) % sides
}

// The kind of a pattern, where there is one.
fn kind_by(state: &mut u32, there: bool) -> Option<u32> {
    let kind = roll(state, 2);
    if there { Some(kind) } else { None }
}

fn rule_by(state: &mut u32) -> Rule {
    let last = roll(state, 3);
    let first = kind_by(state, true);
    let second = kind_by(state, last > 0);
    let third = kind_by(state, last > 1);
    let guard = match roll(state, 4) {
        _ if last == 0 => Guard::One,
        0 => Guard::Any,
        1 => Guard::One,
        2 => Guard::Equal,
        _ => Guard::Less,
    };
    Rule {
        kinds: [first, second, third],
        guard,
    }
}

// No message, and then eight.
fn messages_by(state: &mut u32) -> [TestMessage; 9] {
    let mut messages = [TestMessage {
        kind: 0,
        value: 0,
        waits: false,
    }; 9];
    for number in 1..9 {
        messages[number].kind = roll(state, 2);
        messages[number].value = roll(state, 3) as i64;
    }
    messages
}

// The text of a pattern of the first kind or of the second.
fn pattern(kind: Option<u32>, first: &'static str, second: &'static str) -> &'static str {
    match kind {
        None => "",
        Some(0) => first,
        Some(_) => second,
    }
}

fn condition(guard: Guard) -> &'static str {
    match guard {
        Guard::Any => "",
        Guard::One => " if x == 1",
        Guard::Equal => " if x == y",
        Guard::Less => " if x < y",
    }
}

fn push_rule(text: &mut String, rule: &Rule) -> Result<(), Fail> {
    text.push_str(pattern(rule.kinds[0], " when a(x)", " when b(x)"))?;
    text.push_str(pattern(rule.kinds[1], " & a(y)", " & b(y)"))?;
    text.push_str(pattern(rule.kinds[2], " & a(z)", " & b(z)"))?;
    text.push_str(condition(rule.guard))?;
    text.push_str(" { }")?;
    Ok(())
}

fn push_script(text: &mut String, rules: &[Rule; 2]) -> Result<(), Fail> {
    text.push_str("message a(x: int) message b(x: int) actor m {")?;
    push_rule(text, &rules[0])?;
    push_rule(text, &rules[1])?;
    text.push_str(" }")?;
    Ok(())
}

fn script_of(alloc: Global, rules: &[Rule; 2]) -> Result<String, Fail> {
    let mut text = String::new(alloc);
    push_script(&mut text, rules)?;
    Ok(text)
}

fn row_of(message: &TestMessage) -> &'static str {
    match (message.kind, message.value) {
        (0, 0) => "m,a,0\n",
        (0, 1) => "m,a,1\n",
        (0, _) => "m,a,2\n",
        (_, 0) => "m,b,0\n",
        (_, 1) => "m,b,1\n",
        (_, _) => "m,b,2\n",
    }
}

fn feed_of(alloc: Global, messages: &[TestMessage]) -> Result<String, Fail> {
    let mut text = String::new(alloc);
    for message in messages {
        text.push_str(row_of(message))?;
    }
    Ok(text)
}

// Whether the number is that of a waiting message of the kind, and 0 where there is no pattern.
fn may_stand(messages: &[TestMessage], kind: Option<u32>, number: u32) -> bool {
    match (kind, messages.get(number as usize)) {
        (None, _) => number == 0,
        (Some(kind), Some(message)) => message.waits && message.kind == kind,
        (Some(_), None) => false,
    }
}

fn value(messages: &[TestMessage], number: u32) -> i64 {
    match messages.get(number as usize) {
        Some(message) => message.value,
        None => 0,
    }
}

fn holds(guard: Guard, x: i64, y: i64) -> bool {
    match guard {
        Guard::Any => true,
        Guard::One => x == 1,
        Guard::Equal => x == y,
        Guard::Less => x < y,
    }
}

fn is_match(messages: &[TestMessage], rule: &Rule, taken: [u32; 3]) -> bool {
    let [first, second, third] = taken;
    may_stand(messages, rule.kinds[0], first)
        && may_stand(messages, rule.kinds[1], second)
        && may_stand(messages, rule.kinds[2], third)
        && first != second
        && first != third
        && (third == 0 || second != third)
        && holds(rule.guard, value(messages, first), value(messages, second))
}

// The match with its numbers in ascending order, and 0 behind them.
fn match_of(rule: u32, taken: [u32; 3]) -> Match {
    let mut ascending = [0; 3];
    let mut place = 0;
    for number in 1..9 {
        if taken.contains(&number) && place < 3 {
            ascending[place] = number;
            place += 1;
        }
    }
    Match {
        ascending,
        rule,
        taken,
    }
}

fn lesser(best: Option<Match>, found: Match) -> Option<Match> {
    match best {
        Some(old) if old < found => Some(old),
        _ => Some(found),
    }
}

// The least of a match and those of the definition.
fn least(messages: &[TestMessage], rule: &Rule, number: u32, best: Option<Match>) -> Option<Match> {
    let mut best = best;
    for first in 1..9 {
        for second in 0..9 {
            for third in 0..9 {
                let taken = [first, second, third];
                if is_match(messages, rule, taken) {
                    best = lesser(best, match_of(number, taken));
                }
            }
        }
    }
    best
}

fn take_out(messages: &mut [TestMessage], taken: [u32; 3]) {
    for number in taken {
        if let Some(message) = messages.get_mut(number as usize) {
            message.waits = false;
        }
    }
}

// What an arrival fired, as a match.
fn match_in(fired: &Fired) -> Option<Match> {
    let Some(firing) = fired.get() else {
        return None;
    };
    let mut taken = [0; 3];
    for place in 0..3 {
        if let Some(number) = firing.taken.as_slice().get(place) {
            taken[place] = *number;
        }
    }
    Some(match_of(firing.rule, taken))
}

// Whether each arrival fired the least match of those that waited.
fn are_least(rules: &[Rule; 2], messages: [TestMessage; 9], firings: &[Fired]) -> bool {
    let mut messages = messages;
    let mut same = firings.len() == 8;
    for place in 0..8 {
        messages[place + 1].waits = true;
        let first = least(&messages, &rules[0], 1, None);
        let best = least(&messages, &rules[1], 2, first);
        same &= firings.get(place).map(match_in) == Some(best);
        if let Some(found) = best {
            take_out(&mut messages, found.taken);
        }
    }
    same
}

fn plan_by(alloc: Global, rules: &[Rule; 2]) -> Result<Plan, Fail>
    ensures { IfOk result IsTyped }
{
    let script = script_of(alloc, rules)?;
    let plan = read_plan(alloc, script.as_bytes())?;
    Ok(plan)
}

fn posts_by(alloc: Global, plan: &Plan, messages: &[TestMessage]) -> Result<Posts, Fail>
    requires { IsTyped plan.now }
{
    let feed = feed_of(alloc, messages)?;
    let rows = read_feed(alloc, plan, feed.as_bytes())?;
    let posts = rows.unpacked(alloc)?;
    Ok(posts)
}

// Whether the actor fires the least match at each of the posts, which are those messages.
fn fires<L: Ledger>(
    alloc: Global,
    actor: &mut Actor,
    posts: &Posts,
    rules: &[Rule; 2],
    messages: [TestMessage; 9],
    steps: &mut Steps<L>,
) -> Result<bool, Fail>
    requires { HasCount actor.old.state.late (source.Feed 1) }
{
    outcomes(alloc, actor, posts, steps)?;
    Ok(are_least(rules, messages, actor.firings()))
}

fn fires_the_least<L: Ledger>(alloc: Global, seed: u32, blank: Blank) -> Result<bool, Fail>
    requires name { blank.name ≡ L.name }
    requires parts { blank.parts ≡ L.parts }
    requires some { 0 < L.parts }
{
    let mut state = seed;
    let rules = [rule_by(&mut state), rule_by(&mut state)];
    let messages = messages_by(&mut state);
    let mut steps = Steps::<L>::new(blank);
    let plan = plan_by(alloc, &rules)?;
    let posts = posts_by(alloc, &plan, &messages[1..])?;
    let mut actor = first_actor(alloc, &plan, limits_of(8, 1000))?;
    fires(alloc, &mut actor, &posts, &rules, messages, &mut steps)
}

#[test]
fn each_arrival_fires_the_least_match(rt: HostRuntime) -> Result<(), Fail> {
    for seed in 0..60 {
        assert!(rt; fires_the_least::<Brand>(rt.alloc(), seed, Blank::new(1))?);
    }
    Ok(())
}
