ghost use Rattle.std.specs.Prelude.{◌≡◌, ◌<◌};
ghost use Rattle.join_base.specs.Late.{HasCount};
ghost use Rattle.join_base.specs.declared.message.Source.TheVariants as source;

use crate::cases::STOPS;
use crate::fed::{first_actor, limits_of, outcomes};
use actor_turn::{Actor, give_room_back};
use fair_semantics::{Ending, Outcome};
use join_base::{Fields, Message, Posts, Source, Steps};
use script_check::read_plan;
use sensor_feed::read_feed;
use std::alloc::Global;
use std::marker::Brand;
use std::sync::ledger::{Blank, Ledger};
use std::test::Fail;

// An actor that joins three kinds.
const THREE: &[u8] =
    b"message a(x: int) message b(x: int) message c(x: int) actor m { when a(x) & b(y) & c(z) { } }";

// A script, the most arrivals and partial matches of its first actor, a feed, and what the actor comes to: how each
// message comes out, how the actor ends, and how many arrivals and partial matches it has.
#[derive(Clone, Copy)]
struct Case<'a> {
    script: &'a [u8],
    most: (u32, u64),
    feed: &'a [u8],
    outcomes: &'a [Outcome],
    ending: Ending,
    arrivals: u32,
    partials: u64,
}

// Three messages make four partial matches.
const FOUR_PARTIAL_MATCHES: Case<'static> = Case {
    script: THREE,
    most: (9, 4),
    feed: b"m,a,1\nm,a,2\nm,a,3\n",
    outcomes: &[Outcome::Kept, Outcome::Kept, Outcome::Kept],
    ending: Ending::Running,
    arrivals: 3,
    partials: 4,
};

// The fourth message makes five, where four are allowed.
const ONE_TOO_MANY: Case<'static> = Case {
    script: THREE,
    most: (9, 4),
    feed: b"m,a,1\nm,a,2\nm,a,3\nm,a,4\n",
    outcomes: &[Outcome::Kept, Outcome::Kept, Outcome::Kept, Outcome::Jammed],
    ending: Ending::Jammed,
    arrivals: 4,
    partials: 1,
};

// There is no place for a third message, and the fourth is late.
const FULL: Case<'static> = Case {
    script: THREE,
    most: (2, 9),
    feed: b"m,a,1\nm,a,2\nm,a,3\nm,a,4\n",
    outcomes: &[Outcome::Kept, Outcome::Kept, Outcome::Spent, Outcome::Late],
    ending: Ending::Spent,
    arrivals: 2,
    partials: 1,
};

// The body stops the actor, and two messages are late.
const STOPPED: Case<'static> = Case {
    script: STOPS,
    most: (9, 9),
    feed: b"m,a,1\nm,a,2\nm,b,3\n",
    outcomes: &[Outcome::Fired, Outcome::Late, Outcome::Late],
    ending: Ending::Stopped,
    arrivals: 1,
    partials: 1,
};

// Whether the actor and its outcomes are as the case says.
fn is_so(actor: &Actor, outcomes: &[Outcome], case: Case<'_>) -> bool {
    outcomes == case.outcomes
        && actor.ending() == case.ending
        && actor.arrivals() == case.arrivals
        && actor.partials() == case.partials
}

// Whether the actor comes to what the case says.
fn comes_to<L: Ledger>(
    alloc: Global,
    actor: &mut Actor,
    posts: &Posts,
    case: Case<'_>,
    steps: &mut Steps<L>,
) -> Result<bool, Fail>
    requires { HasCount actor.old.state.late (source.Feed 1) }
{
    let found = outcomes(alloc, actor, posts, steps)?;
    Ok(is_so(actor, found.as_slice(), case))
}

fn plays_with<L: Ledger>(alloc: Global, case: Case<'_>, blank: Blank) -> Result<bool, Fail>
    requires name { blank.name ≡ L.name }
    requires parts { blank.parts ≡ L.parts }
    requires some { 0 < L.parts }
{
    let mut steps = Steps::<L>::new(blank);
    let plan = read_plan(alloc, case.script)?;
    let feed = read_feed(alloc, &plan, case.feed)?;
    let posts = feed.unpacked(alloc)?;
    let mut actor = first_actor(alloc, &plan, limits_of(case.most.0, case.most.1))?;
    comes_to(alloc, &mut actor, &posts, case, &mut steps)
}

fn plays(alloc: Global, case: Case<'_>) -> Result<bool, Fail> {
    plays_with::<Brand>(alloc, case, Blank::new(1))
}

#[test]
fn messages_come_out_as_they_should(rt: HostRuntime) -> Result<(), Fail> {
    assert!(rt; plays(rt.alloc(), FOUR_PARTIAL_MATCHES)? && plays(rt.alloc(), ONE_TOO_MANY)?);
    assert!(rt; plays(rt.alloc(), FULL)? && plays(rt.alloc(), STOPPED)?);
    Ok(())
}

// Whether the message comes out so.
fn arrives<L: Ledger>(
    alloc: Global,
    actor: &mut Actor,
    message: &Message,
    wanted: Outcome,
    steps: &mut Steps<L>,
) -> bool
    requires { HasCount actor.old.state.late (source.Feed 1) }
    ensures { HasCount actor.new.state.late (source.Feed 1) }
{
    match actor.arrive(alloc, Source::Feed(1), message, 0, steps) {
        Ok(outcome) => outcome == wanted,
        Err(_) => false,
    }
}

// Whether the message, which is handed over, comes out so.
fn is_received<L: Ledger>(
    alloc: Global,
    actor: &mut Actor,
    message: Message,
    wanted: Outcome,
    steps: &mut Steps<L>,
) -> bool
    requires { HasCount actor.old.state.late (source.Feed 1) }
{
    match actor.receive(alloc, Source::Feed(1), message, 0, steps) {
        Ok(outcome) => outcome == wanted,
        Err(_) => false,
    }
}

// Whether a message without fields spends the actor, and the next one is late.
fn is_spent<L: Ledger>(alloc: Global, actor: &mut Actor, steps: &mut Steps<L>) -> bool
    requires { HasCount actor.old.state.late (source.Feed 1) }
{
    let message = Message {
        kind: 0,
        fields: Fields::new(alloc),
    };
    let first = arrives(alloc, actor, &message, Outcome::Spent, steps);
    let second = is_received(alloc, actor, message, Outcome::Late, steps);
    first && second && actor.ending() == Ending::Spent && actor.arrivals() == 0
}

fn are_spent<L: Ledger>(alloc: Global, blank: Blank) -> Result<bool, Fail>
    requires name { blank.name ≡ L.name }
    requires parts { blank.parts ≡ L.parts }
    requires some { 0 < L.parts }
{
    let mut steps = Steps::<L>::new(blank);
    let plan = read_plan(alloc, THREE)?;
    let mut actor = first_actor(alloc, &plan, limits_of(9, 9))?;
    Ok(is_spent(alloc, &mut actor, &mut steps))
}

#[test]
fn a_message_without_its_field_is_spent(rt: HostRuntime) -> Result<(), Fail> {
    assert!(rt; are_spent::<Brand>(rt.alloc(), Blank::new(1))?);
    Ok(())
}

// Whether a list with one item and room for so many is left with the room that is wanted.
fn is_left(alloc: Global, room: usize, wanted: usize) -> Result<bool, Fail> {
    let mut items: Vec<u32> = Vec::with_capacity(alloc, room)?;
    items.push(7)?;
    give_room_back(&mut items);
    Ok(items.len() == 1 && items.capacity() == wanted)
}

#[test]
fn room_is_given_back(rt: HostRuntime) -> Result<(), Fail> {
    assert!(rt; is_left(rt.alloc(), 1025, 1025)? && is_left(rt.alloc(), 1026, 1)?);
    Ok(())
}
