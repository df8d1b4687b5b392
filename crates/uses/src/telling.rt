//! What the callers answer to a script of a tank, as it is printed.
ghost use Rattle.script_types.specs.Typed.{IsTyped};

use crate::one_actor::{number_message, rules_fired};
use crate::own_log::firing_counts;
use crate::posted::{NoRun, run_posted};
use crate::script::{NoPlan, plan_of};
use arrival_log::print_log;
use fair_semantics::Limits;
use join_base::{Bytes, Items, Message, NoMemory};
use log_replay::LogRefusal;
use script_types::Plan;
use sensor_feed::read_feed;
use std::alloc::Global;
use std::io;

// The tank posts its level where that is above a height that is watched, once for each watch.
const SCRIPT: &[u8] = b"message level(height: int)
message watch(height: int)
message alarm(height: int)

actor tank {
  when level(now) & watch(height) if now > height {
    post desk alarm(now);
  }
}
actor desk {
  when alarm(height) {
    print \"the tank is at \" height;
  }
}
";

// Another one, with a name that it does not declare.
const WRONG: &[u8] = b"message level(height: int)

actor tank {
  when level(now) if now > most {
  }
}
";

// Kinds of the script.
const LEVEL: u32 = 0;

const WATCH: u32 = 1;

const ROWS: &[u8] = b"tank,watch,80\ntank,level,60\ntank,level,85\ntank,watch,50\n";

const LIMITS: Limits = Limits {
    arrivals: 50_000,
    partials: 65_536,
};

// So little room that the tank gets a turn between posts.
const RING: u32 = 2;

fn tell_no_memory<R: Print>(rt: &R) -> io::Result<()> {
    println!(rt; "there was no memory")
}

fn tell_text<R: Print>(rt: &R, text: &[u8]) -> io::Result<()> {
    match std::str::from_utf8(text) {
        Ok(text) => print!(rt; "{text}"),
        Err(_) => println!(rt; "this is not UTF-8"),
    }
}

/// Prints where a script has its fault.
pub fn tell_fault<R: Print>(rt: &R, alloc: Global) -> io::Result<()> {
    match plan_of(alloc, "tank.join", WRONG) {
        Ok(_) => println!(rt; "the script has a plan"),
        Err(NoPlan::Fault { place, note }) => {
            println!(rt; "a fault at line {}, column {}", place.line, place.column)?;
            tell_text(rt, note.bytes())
        }
        Err(NoPlan::NoMemory) => tell_no_memory(rt),
    }
}

// A watch, two levels, and another watch.
fn tank_messages(alloc: Global) -> Result<Items<Message>, NoMemory> {
    let mut messages = Items::new(alloc);
    for (kind, height) in [(WATCH, 80), (LEVEL, 60), (LEVEL, 85), (WATCH, 50)] {
        messages.push(number_message(alloc, kind, height)?)?;
    }
    Ok(messages)
}

fn tank_rules(alloc: Global, plan: &Plan) -> Result<Vec<Option<u32>>, NoMemory>
    requires typed { IsTyped plan.now }
{
    let messages = tank_messages(alloc)?;
    rules_fired(alloc, plan, 0, LIMITS, messages.as_slice())
}

fn tell_rule<R: Print>(rt: &R, place: usize, rule: Option<u32>) -> io::Result<()> {
    let number = place.saturating_add(1);
    match rule {
        Some(rule) => println!(rt; "message {number} fires rule {rule}"),
        None => println!(rt; "message {number} waits"),
    }
}

fn tell_rules<R: Print>(rt: &R, alloc: Global, plan: &Plan) -> io::Result<()>
    requires typed { IsTyped plan.now }
{
    match tank_rules(alloc, plan) {
        Ok(rules) => {
            for (place, rule) in rules.iter().enumerate() {
                tell_rule(rt, place, *rule)?;
            }
            Ok(())
        }
        Err(NoMemory) => tell_no_memory(rt),
    }
}

// The log of the run of the rows.
fn tank_log(alloc: Global, plan: &Plan) -> Result<Bytes, NoRun>
    requires typed { IsTyped plan.now }
{
    let Ok(feed) = read_feed(alloc, plan, ROWS) else {
        return Err(NoRun::NoMemory);
    };
    let posts = feed.unpacked(alloc)?;
    let run = run_posted(alloc, plan, LIMITS, RING, posts.as_slice())?;
    let mut log = Bytes::new(alloc);
    print_log(alloc, plan, &run, &mut log)?;
    Ok(log)
}

fn tell_count<R: Print>(rt: &R, actor: usize, count: usize) -> io::Result<()> {
    println!(rt; "actor {actor} fired {count} times")
}

// Prints how often each actor fired by the log, or why it is refused.
fn tell_counts<R: Print>(rt: &R, alloc: Global, plan: &Plan, log: &[u8]) -> io::Result<()>
    requires typed { IsTyped plan.now }
{
    match firing_counts(alloc, plan, log) {
        Ok(counts) => {
            for (actor, count) in counts.as_slice().iter().enumerate() {
                tell_count(rt, actor, *count)?;
            }
            Ok(())
        }
        Err(LogRefusal::Bad { line }) => println!(rt; "line {line} may not stand there"),
        Err(LogRefusal::Differs { line }) => println!(rt; "line {line} differs"),
        Err(LogRefusal::NoMemory) => tell_no_memory(rt),
    }
}

// The log without its end.
fn front_of(log: &[u8]) -> &[u8] {
    match log.split_last() {
        Some((_, front)) => front,
        None => log,
    }
}

// Prints the log of the rows, what it shows, and why it is none without its end.
fn tell_log<R: Print>(rt: &R, alloc: Global, plan: &Plan) -> io::Result<()>
    requires typed { IsTyped plan.now }
{
    match tank_log(alloc, plan) {
        Ok(log) => {
            tell_text(rt, log.bytes())?;
            tell_counts(rt, alloc, plan, log.bytes())?;
            tell_counts(rt, alloc, plan, front_of(log.bytes()))
        }
        Err(NoRun::Full) => println!(rt; "a link was full"),
        Err(NoRun::NoMemory) => tell_no_memory(rt),
    }
}

/// Prints what the messages of the tank fire, and what its log shows.
pub fn tell_tank<R: Print>(rt: &R, alloc: Global) -> io::Result<()> {
    match plan_of(alloc, "tank.join", SCRIPT) {
        Ok(plan) => {
            tell_rules(rt, alloc, &plan)?;
            tell_log(rt, alloc, &plan)
        }
        Err(_) => println!(rt; "the script has no plan"),
    }
}
