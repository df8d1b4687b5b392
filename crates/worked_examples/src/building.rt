//! The building: one hall with a feed of 5,000 rows, and the four halls of `load`.
ghost use Rattle.std.specs.Prelude.{◌≤◌};

use crate::example::{CHECK, RUN, comes_to, joined, prints_alike, push};
use crate::made::push_numbered;
use crate::telling::{counted, told};
use building_load::load_plan;
use join_base::{Bytes, NoMemory};
use join_command::Status;
use plan_text::print_plan;
use std::alloc::Global;
use std::sync::Wait;
use std::thread::Threads;

const KINDS: &[u8] = b"message motion(room: int, t: int)
message light(room: int, lux: int, t: int)
message contact(room: int, t: int)
message on(room: int)
message alarm(room: int)
";

// What a hall does with motions, lights and contacts, behind its name.
const RULES: &[u8] = b" {
  when motion(r1, t1) & light(r2, lux, t2) if r1 == r2 && lux < 40 && t2 - t1 <= 60 && t1 - t2 <= 60 {
    post desk on(r1);
  }
  when motion(r1, t1) & contact(r2, t2) if r1 == r2 && t2 - t1 <= 60 && t1 - t2 <= 60 {
    post desk alarm(r1);
  }
}
";

// A desk that says what follows.
const DESK: &[u8] = b"actor desk {
  when on(r) {
    print \"light on in \" r;
  }
  when alarm(r) {
    print \"alarm in \" r;
  }
}
";

fn script_of_one(alloc: Global) -> Result<Bytes, NoMemory> {
    joined(alloc, &[KINDS, b"actor hall", RULES, DESK])
}

// The script of the building that `load` runs.
fn script_of_four(alloc: Global) -> Result<Bytes, NoMemory> {
    let mut script = joined(alloc, &[KINDS])?;
    for hall in 1u64..5 {
        push(&mut script, b"actor hall")?;
        push_numbered(alloc, &mut script, &[(hall, RULES)])?;
    }
    push(&mut script, DESK)?;
    Ok(script)
}

// The text of the plan that `load` has.
fn plan_of_load(alloc: Global) -> Result<Bytes, NoMemory> {
    let plan = load_plan(alloc)?;
    let mut text = Bytes::new(alloc);
    print_plan(alloc, &plan, &mut text)?;
    Ok(text)
}

// What a row of the building says of its room: a motion, a light and a contact of one room come in turn.
fn push_row(
    alloc: Global,
    text: &mut Bytes,
    row: u64,
    open: &[u8],
    close: &[u8],
) -> Result<(), NoMemory>
    requires { row ≤ 5000 }
{
    let kind: &[u8] = match row % 3 {
        0 => b"motion",
        1 => b"light",
        _ => b"contact",
    };
    push(text, kind)?;
    push(text, open)?;
    push_numbered(alloc, text, &[(room_of(row), b",")])?;
    if row % 3 == 1 {
        push_numbered(alloc, text, &[(light_of(row), b",")])?;
    }
    push_numbered(alloc, text, &[(10 * row, close)])
}

fn room_of(row: u64) -> u64 {
    row / 3 % 7
}

fn light_of(row: u64) -> u64 {
    10 * (row / 3 % 8)
}

fn rows_of_one(alloc: Global) -> Result<Bytes, NoMemory> {
    let mut feed = Bytes::new(alloc);
    for row in 0u64..5000 {
        push(&mut feed, b"hall,")?;
        push_row(alloc, &mut feed, row, b",", b"\n")?;
    }
    Ok(feed)
}

// What the hall posts to the desk, and what the desk prints of it. Both fire the definition of the same number.
#[derive(Clone, Copy)]
struct Outcome {
    rule: &'static [u8],
    message: &'static [u8],
    printed: &'static [u8],
}

const LIGHT_ON: Outcome = Outcome {
    rule: b"fire rule 1 take ",
    message: b"on(",
    printed: b"print \"light on in ",
};

const ALARM: Outcome = Outcome {
    rule: b"fire rule 2 take ",
    message: b"alarm(",
    printed: b"print \"alarm in ",
};

// What follows from a row. Only three rows in turn have one room and times that are close enough: the room comes again
// 210 later. The light takes the motion where it is dark, and else the contact does.
fn outcome_of(row: u64) -> Option<Outcome> {
    let dark = light_of(row) < 40;
    match row % 3 {
        1 if dark => Some(LIGHT_ON),
        2 if !dark => Some(ALARM),
        _ => None,
    }
}

// What the hall records. Nothing but the feed sends to it, so each stamp is the arrival's number.
fn push_hall(alloc: Global, log: &mut Bytes) -> Result<(), NoMemory> {
    for row in 0u64..5000 {
        let pieces: [(u64, &[u8]); 2] = [(row + 1, b" at "), (row + 1, b" from feed 1 ")];
        push_numbered(alloc, log, &pieces)?;
        push_row(alloc, log, row, b"(", b")\n")?;
        if let Some(outcome) = outcome_of(row) {
            push(log, outcome.rule)?;
            let motion = row / 3 * 3 + 1;
            push_numbered(alloc, log, &[(motion, b","), (row + 1, b"\npost desk ")])?;
            push(log, outcome.message)?;
            push_numbered(alloc, log, &[(room_of(row), b")\n")])?;
        }
    }
    Ok(())
}

// Of three rows the light or the contact stays with the hall. The last two rows have no contact, and leave nothing.
fn push_left(alloc: Global, log: &mut Bytes) -> Result<(), NoMemory> {
    let mut before: &[u8] = b"end running left ";
    for row in 0u64..5000 {
        if row % 3 != 0 && outcome_of(row).is_none() {
            push(log, before)?;
            push_numbered(alloc, log, &[(row + 1, b"")])?;
            before = b",";
        }
    }
    Ok(())
}

// What the desk records: one post for three rows, whose stamp is one above that of the row from which it follows.
fn push_desk(alloc: Global, log: &mut Bytes) -> Result<(), NoMemory> {
    for row in 0u64..5000 {
        if let Some(outcome) = outcome_of(row) {
            let number = row / 3 + 1;
            push_numbered(
                alloc,
                log,
                &[(number, b" at "), (row + 2, b" from actor hall ")],
            )?;
            push(log, outcome.message)?;
            push_numbered(alloc, log, &[(room_of(row), b")\n")])?;
            push(log, outcome.rule)?;
            push_numbered(alloc, log, &[(number, b"\n")])?;
            push(log, outcome.printed)?;
            push_numbered(alloc, log, &[(room_of(row), b"\"\n")])?;
        }
    }
    Ok(())
}

// One feed sends to the hall and the hall alone to the desk, so there is one log. The hall's partial matches are the
// two empty ones and the 834 contacts that it keeps; a light where it is not dark begins none.
fn log_of_one(alloc: Global) -> Result<Bytes, NoMemory> {
    let mut log = Bytes::new(alloc);
    push(
        &mut log,
        b"joinlog 2 arrivals 50000 partials 65536 feeds 1\nactor hall\n",
    )?;
    push_hall(alloc, &mut log)?;
    push_left(alloc, &mut log)?;
    push(&mut log, b" partials 836\nactor desk\n")?;
    push_desk(alloc, &mut log)?;
    push(&mut log, b"end running left - partials 2\n")?;
    Ok(log)
}

fn one_hall_is_run<R: Threads + Wait + Sync>(rt: &R, alloc: Global) -> Result<bool, NoMemory> {
    let script = script_of_one(alloc)?;
    let feed = rows_of_one(alloc)?;
    let log = log_of_one(alloc)?;
    let files = [("script", script.bytes()), ("input", feed.bytes())];
    comes_to(rt, alloc, RUN, &files, Status::Done, log.bytes())
}

// Three rows for the first of the four halls, and the log of their run.
const THREE_ROWS: &[u8] = b"hall1,motion,0,0\nhall1,light,0,0,10\nhall1,contact,0,20\n";

const THREE_LOGGED: &[u8] = b"joinlog 2 arrivals 50000 partials 65536 feeds 1\n\
      actor hall1\n\
      1 at 1 from feed 1 motion(0,0)\n\
      2 at 2 from feed 1 light(0,0,10)\n\
      fire rule 1 take 1,2\n\
      post desk on(0)\n\
      3 at 3 from feed 1 contact(0,20)\n\
      end running left 3 partials 3\n\
      actor hall2\n\
      end running left - partials 2\n\
      actor hall3\n\
      end running left - partials 2\n\
      actor hall4\n\
      end running left - partials 2\n\
      actor desk\n\
      1 at 3 from actor hall1 on(0)\n\
      fire rule 1 take 1\n\
      print \"light on in 0\"\n\
      end running left - partials 2\n";

fn is_its_plan<R: Threads + Wait + Sync>(
    rt: &R,
    alloc: Global,
    script: &[u8],
) -> Result<bool, NoMemory> {
    comes_to(
        rt,
        alloc,
        CHECK,
        &[("script", script)],
        Status::Done,
        script,
    )
}

fn one_is_its_plan<R: Threads + Wait + Sync>(rt: &R, alloc: Global) -> Result<bool, NoMemory> {
    let script = script_of_one(alloc)?;
    is_its_plan(rt, alloc, script.bytes())
}

fn four_are_their_plan<R: Threads + Wait + Sync>(rt: &R, alloc: Global) -> Result<bool, NoMemory> {
    let script = script_of_four(alloc)?;
    is_its_plan(rt, alloc, script.bytes())
}

fn is_the_script(alloc: Global) -> Result<bool, NoMemory> {
    let plan = plan_of_load(alloc)?;
    let script = script_of_four(alloc)?;
    Ok(plan.bytes() == script.bytes())
}

fn the_plan_is_run<R: Threads + Wait + Sync>(rt: &R, alloc: Global) -> Result<bool, NoMemory> {
    let plan = plan_of_load(alloc)?;
    let files = [("script", plan.bytes()), ("input", THREE_ROWS)];
    comes_to(rt, alloc, RUN, &files, Status::Done, THREE_LOGGED)
}

fn tell_scripts<R: Print + Threads + Wait + Sync>(rt: &R, alloc: Global) -> bool {
    let one = told(rt, "print building plan", one_is_its_plan(rt, alloc));
    let four = told(rt, "print load plan", four_are_their_plan(rt, alloc));
    let plan = told(rt, "plan of load", is_the_script(alloc));
    let run = told(
        rt,
        "plan of load run as a script",
        the_plan_is_run(rt, alloc),
    );
    let hall = told(rt, "a building", one_hall_is_run(rt, alloc));
    counted(rt, "buildings", 5, one && four && plan && run && hall)
}

// A name, words, and what each call of `load` prints.
type Load = (&'static str, &'static [&'static str], &'static [u8]);

const THREE: &[u8] = b"load 3 feeds 4\n\
      actor hall1 arrivals 3 firings 1 late 0 left 1 partials 3\n\
      actor hall2 arrivals 3 firings 1 late 0 left 1 partials 3\n\
      actor hall3 arrivals 3 firings 1 late 0 left 1 partials 3\n\
      actor hall4 arrivals 3 firings 1 late 0 left 1 partials 3\n\
      actor desk arrivals 4 firings 4 late 0 left 0 partials 2\n";

const LOADS: &[Load] = &[
    ("load three", &["load", "3"], THREE),
    ("load three in other words", &["load", "--", "03"], THREE),
    (
        "load five thousand",
        &["load", "5000"],
        b"load 5000 feeds 4\n\
          actor hall1 arrivals 5000 firings 1667 late 0 left 1666 partials 836\n\
          actor hall2 arrivals 5000 firings 1667 late 0 left 1666 partials 836\n\
          actor hall3 arrivals 5000 firings 1667 late 0 left 1666 partials 836\n\
          actor hall4 arrivals 5000 firings 1667 late 0 left 1666 partials 836\n\
          actor desk arrivals 6668 firings 6668 late 0 left 0 partials 2\n",
    ),
];

fn tell_loads<R: Print + Threads + Wait + Sync>(rt: &R, alloc: Global, loads: &[Load]) -> bool {
    let mut all = true;
    for (name, words, printed) in loads {
        all &= told(rt, name, prints_alike(rt, alloc, words, printed));
    }
    counted(rt, "loads", loads.len(), all)
}

fn loads_are_summed_up<R: Print + Threads + Wait + Sync>(rt: &R, alloc: Global) -> bool {
    tell_loads(rt, alloc, LOADS)
}

/// Tells of all buildings, and answers whether all of them come to what they should.
pub fn are_right<R: Print + Threads + Wait + Sync>(rt: &R, alloc: Global) -> bool {
    let scripts = tell_scripts(rt, alloc);
    let loads = loads_are_summed_up(rt, alloc);
    scripts && loads
}
