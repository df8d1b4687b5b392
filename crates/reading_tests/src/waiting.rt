//! Why messages wait, as it is told.
ghost use Rattle.script_types.specs.Typed.{IsTyped};

use join_base::{Bytes, NoMemory};
use log_reader::read_log;
use script_check::read_plan;
use script_types::Plan;
use std::alloc::Global;
use std::test::Fail;
use waiting_reasons::print_why;

// A script, a log, the number of a message of its first actor that is asked for, and what is told.
type Told = (&'static [u8], &'static [u8], Option<u32>, &'static [u8]);

const DOORS: &[u8] =
    b"message door(name: text, time: int) message badge(name: text, who: text, time: int)
actor entrance {
  when door(name, opened) & badge(place, who, shown) if name == place && shown - opened <= 60 && opened > shown {
    print who \" came in\";
  }
}";

const DOORS_LOG: &[u8] = b"joinlog 2 arrivals 50000 partials 65536 feeds 1
actor entrance
1 at 1 from feed 1 door(\"front door\",100)
2 at 2 from feed 1 badge(\"Front door\",\"Ada\",130)
3 at 3 from feed 1 badge(\"front door\",\"Bob\",130000)
4 at 4 from feed 1 badge(\"front door\",\"Cy\",140)
end running left 1,2,3,4 partials 5
";

const MIXED: &[u8] = b"message a(x: int) message b(x: int) message c(x: int) message d(x: int)
actor m {
  when a(x) & b(y) within 2 if x > 5 { }
  when b(x) if x > 9 || x == 4 { }
  when c(x) if 1 == 2 { }
}";

const MIXED_LOG: &[u8] = b"joinlog 2 arrivals 50000 partials 65536 feeds 1
actor m
1 at 1 from feed 1 a(1)
2 at 2 from feed 1 a(7)
3 at 3 from feed 1 c(0)
4 at 4 from feed 1 b(3)
5 at 5 from feed 1 d(0)
end running left 1,2,3,4,5 partials 4
";

const FIRED_LOG: &[u8] = b"joinlog 2 arrivals 50000 partials 65536 feeds 1
actor m
1 at 1 from feed 1 b(4)
fire rule 2 take 1
end running left - partials 3
";

const ENDED_LOG: &[u8] = b"joinlog 2 arrivals 50000 partials 65536 feeds 1
actor m
1 at 1 from feed 1 d(0)
end stopped left - partials 3
";

const TOLD: &[Told] = &[
    (
        DOORS,
        DOORS_LOG,
        Some(1),
        b"1 door(\"front door\",100)
rule 1: it has 1 of 2
  door(name, opened) is 1
  badge(place, who, shown) is missing: 3 wait
    2 badge(\"Front door\",\"Ada\",130): name == place is false, name = \"front door\", place = \"Front door\"
    3 badge(\"front door\",\"Bob\",130000): shown - opened <= 60 is false, shown = 130000, opened = 100
    4 badge(\"front door\",\"Cy\",140): opened > shown is false, opened = 100, shown = 140
",
    ),
    (
        MIXED,
        MIXED_LOG,
        None,
        b"1 a(1); rule 1: the window has passed it
2 a(7); rule 1: the window has passed it
3 c(0); rule 3: it has 1 of 1
4 b(3); rule 1: it has 1 of 2; rule 2: it fits no pattern
5 d(0); no rule takes it
",
    ),
    (
        MIXED,
        MIXED_LOG,
        Some(4),
        b"4 b(3)
rule 1: it has 1 of 2
  a(x) is missing: 2 wait
    1 a(1): the window has passed it
    2 a(7): the window has passed it
  b(y) is 4
rule 2: it fits no pattern
  b(x): x > 9 || x == 4 is false, x = 3
",
    ),
    (
        MIXED,
        MIXED_LOG,
        Some(3),
        b"3 c(0)
rule 3: it has 1 of 1
  c(x) is 3
  1 == 2 is false
",
    ),
    (MIXED, MIXED_LOG, Some(6), b"6 did not arrive\n"),
    (
        MIXED,
        FIRED_LOG,
        Some(1),
        b"1 b(4) was taken by rule 2 at arrival 1\n",
    ),
    (
        MIXED,
        ENDED_LOG,
        Some(1),
        b"1 d(0) was let go when the actor ended\n",
    ),
    (MIXED, ENDED_LOG, None, b"nothing waits\n"),
];

// What is told of a log, and nothing where the bytes are no log.
fn text_of(alloc: Global, plan: &Plan, log: &[u8], wanted: Option<u32>) -> Result<Bytes, NoMemory>
    requires typed { IsTyped plan.now }
{
    let mut text = Bytes::new(alloc);
    if let Ok(run) = read_log(alloc, plan, log) {
        print_why(alloc, plan, &run, 0, wanted, &mut text)?;
    }
    Ok(text)
}

fn is_told(alloc: Global, case: &Told) -> Result<bool, NoMemory> {
    let (script, log, wanted, told) = case;
    match read_plan(alloc, script) {
        Ok(plan) => Ok(text_of(alloc, &plan, log, *wanted)?.bytes() == *told),
        Err(_) => Ok(false),
    }
}

// How many of the cases in front are told as they should be.
fn told_count(alloc: Global) -> Result<usize, NoMemory> {
    for place in 0..TOLD.len() {
        if !is_told(alloc, &TOLD[place])? {
            return Ok(place);
        }
    }
    Ok(TOLD.len())
}

#[test]
fn a_message_waits_for_what_is_missing(rt: HostRuntime) -> Result<(), Fail> {
    assert_eq!(rt; told_count(rt.alloc())?, TOLD.len());
    Ok(())
}
