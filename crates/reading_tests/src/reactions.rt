//! The reactions of runs, with the rows of feeds that led to them.
ghost use Rattle.script_types.specs.Typed.{IsTyped};

use join_base::{Bytes, NoMemory};
use log_reader::read_log;
use reaction_text::print_reactions;
use script_check::read_plan;
use script_types::Plan;
use std::alloc::Global;
use std::test::Fail;

// A script, a log, the actor whose reactions are asked for, and how their text ends.
type Shown = (&'static [u8], &'static [u8], Option<u32>, &'static [u8]);

const LIGHTS: &[u8] =
    b"message motion(room: text, time: int) message light(room: text, lux: int, time: int)
message on(room: text)
actor home {
  when motion(where, seen) & light(room, lux, read) if where == room && lux < 40 { post desk on(room); }
}
actor desk { when on(room) { print \"light on in \" room; } }";

const LIGHTS_LOG: &[u8] = b"joinlog 2 arrivals 50000 partials 65536 feeds 1
actor home
1 at 1 from feed 1 light(\"kitchen\",12,95)
2 at 2 from feed 1 motion(\"kitchen\",100)
fire rule 1 take 2,1
post desk on(\"kitchen\")
end running left - partials 1
actor desk
1 at 3 from actor home on(\"kitchen\")
fire rule 1 take 1
print \"light on in kitchen\"
end running left - partials 1
";

const SUMS: &[u8] =
    b"message go(n: int) message sum(n: int) actor m { when go(n) & sum(s) { post m sum(n); } }";

const SUMS_LOG: &[u8] = b"joinlog 1 arrivals 50000 partials 65536 feeds 1
actor m
1 from feed 1 sum(0)
2 from feed 1 go(1)
fire rule 1 take 2,1
post m sum(1)
3 from actor m sum(1)
4 from feed 1 go(2)
fire rule 1 take 4,3
post m sum(2)
5 from actor m sum(2)
6 from feed 1 go(3)
fire rule 1 take 6,5
post m sum(3)
7 from actor m sum(3)
8 from feed 1 go(4)
fire rule 1 take 8,7
post m sum(4)
9 from actor m sum(4)
10 from feed 1 go(5)
fire rule 1 take 10,9
post m sum(5)
11 from actor m sum(5)
12 from feed 1 go(6)
fire rule 1 take 12,11
post m sum(6)
13 from actor m sum(6)
14 from feed 1 go(7)
fire rule 1 take 14,13
post m sum(7)
15 from actor m sum(7)
16 from feed 1 go(8)
fire rule 1 take 16,15
post m sum(8)
17 from actor m sum(8)
18 from feed 1 go(9)
fire rule 1 take 18,17
post m sum(9)
19 from actor m sum(9)
20 from feed 1 go(10)
fire rule 1 take 20,19
post m sum(10)
21 from actor m sum(10)
end running left 21 partials 2
";

const SHOWN: &[Shown] = &[
    (
        LIGHTS,
        LIGHTS_LOG,
        None,
        b"home 2 at 2 from feed 1 motion(\"kitchen\",100)
fire rule 1 take 2,1
post desk on(\"kitchen\")
row home 1 at 1 from feed 1 light(\"kitchen\",12,95)
row home 2 at 2 from feed 1 motion(\"kitchen\",100)
desk 1 at 3 from actor home on(\"kitchen\")
fire rule 1 take 1
print \"light on in kitchen\"
row home 1 at 1 from feed 1 light(\"kitchen\",12,95)
row home 2 at 2 from feed 1 motion(\"kitchen\",100)
",
    ),
    (
        LIGHTS,
        LIGHTS_LOG,
        Some(0),
        b"home 2 at 2 from feed 1 motion(\"kitchen\",100)
fire rule 1 take 2,1
post desk on(\"kitchen\")
row home 1 at 1 from feed 1 light(\"kitchen\",12,95)
row home 2 at 2 from feed 1 motion(\"kitchen\",100)
",
    ),
    (
        SUMS,
        SUMS_LOG,
        None,
        b"
m 20 from feed 1 go(10)
fire rule 1 take 20,19
post m sum(10)
row m 1 from feed 1 sum(0)
row m 2 from feed 1 go(1)
row m 4 from feed 1 go(2)
row m 6 from feed 1 go(3)
row m 8 from feed 1 go(4)
row m 10 from feed 1 go(5)
row m 12 from feed 1 go(6)
row m 14 from feed 1 go(7)
row m 16 from feed 1 go(8)
more rows 2
",
    ),
];

// The text of the reactions of a log, and nothing where the bytes are no log.
fn text_of(
    alloc: Global,
    plan: &Plan,
    log: &[u8],
    only: Option<u32>,
) -> Result<Option<Bytes>, NoMemory>
    requires typed { IsTyped plan.now }
{
    match read_log(alloc, plan, log) {
        Ok(run) => Ok(Some(print_reactions(alloc, plan, &run, only)?)),
        Err(_) => Ok(None),
    }
}

fn ends_by(
    alloc: Global,
    plan: &Plan,
    log: &[u8],
    only: Option<u32>,
    end: &[u8],
) -> Result<bool, NoMemory>
    requires typed { IsTyped plan.now }
{
    match text_of(alloc, plan, log, only)? {
        Some(text) => Ok(text.bytes().ends_with(end)),
        None => Ok(false),
    }
}

fn is_shown(alloc: Global, case: &Shown) -> Result<bool, NoMemory> {
    let (script, log, only, end) = case;
    match read_plan(alloc, script) {
        Ok(plan) => ends_by(alloc, &plan, log, *only, end),
        Err(_) => Ok(false),
    }
}

// How many of the cases in front end as they should.
fn shown_count(alloc: Global) -> Result<usize, NoMemory> {
    for place in 0..SHOWN.len() {
        if !is_shown(alloc, &SHOWN[place])? {
            return Ok(place);
        }
    }
    Ok(SHOWN.len())
}

#[test]
fn a_reaction_has_the_rows_that_led_to_it(rt: HostRuntime) -> Result<(), Fail> {
    assert_eq!(rt; shown_count(rt.alloc())?, SHOWN.len());
    Ok(())
}
