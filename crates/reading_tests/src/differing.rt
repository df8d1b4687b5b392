//! What a person is told of a log that differs: the line that should stand there.
ghost use Rattle.std.specs.Prelude.{◌≡◌, ◌<◌};
ghost use Rattle.script_types.specs.Typed.{IsTyped};

use expected_line::expected_line;
use fault_places::{differing_line, differing_note};
use join_base::{Bytes, NoMemory, Steps, write_number};
use log_replay::{LogRefusal, check_log};
use script_check::read_plan;
use script_types::Plan;
use std::alloc::Global;
use std::marker::Brand;
use std::sync::ledger::{Blank, Ledger};

// A script, a log that differs from what it does, and what is told.
type Differing = (&'static [u8], &'static [u8], &'static [u8]);

const PAIRS: &[u8] =
    b"message a(x: int) message b(x: int) actor m { when a(x) & b(y) { print \"hit \" x y; } }";

const POSTS: &[u8] =
    b"message go(n: int) actor p { when go(n) { post q go(n); } } actor q { when go(n) { } }";

const DIFFERING: &[Differing] = &[
    (
        PAIRS,
        b"joinlog 2 arrivals 50000 partials 65536 feeds 1
actor m
1 at 1 from feed 1 a(1)
2 at 2 from feed 1 b(2)
fire rule 1 take 1,2
print \"hit 13\"
end running left - partials 1
",
        b"home:6: Differs: the actors of this script do something else with these arrivals
    print \"hit 13\"
  here should stand:
    print \"hit 12\"
",
    ),
    (
        PAIRS,
        b"joinlog 2 arrivals 50000 partials 65536 feeds 1
actor m
1 at 1 from feed 1 a(1)
2 at 2 from feed 1 b(2)
end running left 1,2 partials 3
",
        b"home:5: Differs: the actors of this script do something else with these arrivals
    end running left 1,2 partials 3
  here should stand:
    fire rule 1 take 1,2
",
    ),
    (
        PAIRS,
        b"joinlog 2 arrivals 50000 partials 65536 feeds 1
actor m
1 at 4 from feed 1 a(1)
end running left 1 partials 2
",
        b"home:3: Differs: the actors of this script do something else with these arrivals
    1 at 4 from feed 1 a(1)
  here should stand:
    1 at 1 from feed 1 a(1)
",
    ),
    // The posts are not those of the other actor: the line itself is as it should be.
    (
        POSTS,
        b"joinlog 2 arrivals 50000 partials 65536 feeds 1
actor p
1 at 1 from feed 1 go(1)
fire rule 1 take 1
post q go(1)
end running left - partials 1
actor q
1 at 2 from actor p go(2)
fire rule 1 take 1
end running left - partials 1
",
        b"home:8: Differs: the actor that it comes from posts something else to this one, or nothing more
    1 at 2 from actor p go(2)
",
    ),
    (
        POSTS,
        b"joinlog 2 arrivals 50000 partials 65536 feeds 1
actor p
1 at 1 from feed 1 go(1)
fire rule 1 take 1
post q go(1)
end running left - partials 1
actor q
end running left - partials 1
",
        b"home:8: Differs: a message that an actor of this script posts to this one never arrives
    end running left - partials 1
",
    ),
];

fn line_by<L: Ledger>(alloc: Global, plan: &Plan, log: &[u8], blank: Blank) -> Option<u64>
    requires typed { IsTyped plan.now }
    requires name { blank.name ≡ L.name }
    requires blank_parts { blank.parts ≡ L.parts }
    requires some { 0 < L.parts }
{
    let mut steps = Steps::<L>::new(blank);
    match check_log(alloc, plan, log, &mut steps) {
        Err(LogRefusal::Differs { line }) => Some(line),
        _ => None,
    }
}

// The line in which the log differs.
fn line_of(alloc: Global, plan: &Plan, log: &[u8]) -> Option<u64>
    requires typed { IsTyped plan.now }
{
    line_by::<Brand>(alloc, plan, log, Blank::new(1))
}

// What the program writes of that line.
fn refusal_of(alloc: Global, line: u64) -> Result<Bytes, NoMemory> {
    let mut out = Bytes::new(alloc);
    out.push_all(b"refused log line ")?;
    write_number(&mut out, i128::from(line))?;
    out.push_all(b" Differs\n")?;
    Ok(out)
}

fn note_of(alloc: Global, plan: &Plan, log: &[u8], line: u64) -> Result<Bytes, NoMemory>
    requires typed { IsTyped plan.now }
{
    let refusal = refusal_of(alloc, line)?;
    match expected_line(alloc, plan, log, line.saturating_sub(1))? {
        Some(wanted) => differing_note(alloc, "home", log, Some(wanted.bytes()), refusal.bytes()),
        None => differing_note(alloc, "home", log, None, refusal.bytes()),
    }
}

// Whether the log differs from what the script does, and this is told.
fn is_told_by(alloc: Global, plan: &Plan, log: &[u8], want: &[u8]) -> Result<bool, NoMemory>
    requires typed { IsTyped plan.now }
{
    match line_of(alloc, plan, log) {
        Some(line) => Ok(note_of(alloc, plan, log, line)?.bytes() == want),
        None => Ok(false),
    }
}

fn is_told(alloc: Global, case: &Differing) -> Result<bool, NoMemory> {
    let (script, log, want) = case;
    match read_plan(alloc, script) {
        Ok(plan) => is_told_by(alloc, &plan, log, want),
        Err(_) => Ok(false),
    }
}

fn differing_logs() -> &'static [Differing] {
    DIFFERING
}

fn are_told(alloc: Global, cases: &[Differing]) -> bool {
    for case in cases {
        if is_told(alloc, case) != Ok(true) {
            return false;
        }
    }
    true
}

#[test]
fn the_line_that_should_stand_there_is_told(rt: HostRuntime) {
    assert!(rt; are_told(rt.alloc(), differing_logs()));
}

fn has_line_where_it_differs() -> bool {
    differing_line(b"refused log line 7 Differs\n") == Some(7)
        && differing_line(b"refused log line 7 LogFault\n").is_none()
        && differing_line(b"refused script 7 Differs\n").is_none()
        && differing_line(b"accepted 7\n").is_none()
}

#[test]
fn only_a_log_that_differs_has_such_a_line(rt: HostRuntime) {
    assert!(rt; has_line_where_it_differs());
}
