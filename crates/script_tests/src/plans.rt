//! Plans of scripts, and their texts.

use guard_eval::{ConjunctList, Leaf, Place, Signed};
use join_base::{Bytes, Items, Name, NoMemory};
use pattern_core::Definition;
use plan_text::print_plan;
use script_check::{read_plan, read_plan_text};
use script_types::{ActorPlan, Item, Plan, Rule, Statement};
use std::alloc::Global;

// Messages and actors stand behind the definitions that name them.
const HALL: &[u8] = b"message door(time: int, room: text)
actor hall {
  when door(at, room) & motion(_, seen) & door(_, other)
    within 0030 if at - seen + 1 <= 60 && !(room == other || room != \"x\") && -at == 5 {
    print \"in \" room \" at \" at (at + 60 - seen);
    post desk note(room, -at, seen, \"t\");
    stop;
  }
  when note(at, room, n, _) & tick() { print at; post log door(room, at); reply 2 at; reply 01 n + 1; }
}
message motion(room: text, time: int)
actor log { }
actor desk { when motion(r, at) { post hall door(at, r); } }
message note(room: text, at: int, seen: int, words: text)
message tick()
";

const HALL_TEXT: &[u8] = b"message door(time: int, room: text)
message motion(room: text, time: int)
message note(room: text, at: int, seen: int, words: text)
message tick()
actor hall {
  when door(at, room) & motion(_, seen) & door(_, other) within 30 if at - seen + 1 <= 60 && !(room == other || room != \"x\") && -at == 5 {
    print \"in \" room \" at \" at (at + 60 - seen);
    post desk note(room, -at, seen, \"t\");
    stop;
  }
  when note(at, room, n, _) & tick() {
    print at;
    post log door(room, at);
    reply 2 at;
    reply 1 n + 1;
  }
}
actor log {
}
actor desk {
  when motion(r, at) {
    post hall door(at, r);
  }
}
";

// Each form of the language, the messages and actors mixed.
const MIXED: &[u8] = b"message door(time: int, room: text) // the door
actor hall{when door(at,room)&motion(_,seen)&door(_,other)
 within 0030if-at-007+9223372036854775807<= 60&&!!(room!=other||\"x\\x01\\\"\"==room)&&at>0||at<seen&&seen>=at{
print\"in \"room\" at \"at(at+60-seen)(-at);post desk note(room,-at,0,\"\xC3\xA4\\n\");reply 03-at+2;reply 1\"x\";stop;}
when note(at,_,n,_)within 1{}}
message tick()
actor desk{when tick(){post hall tick();}}actor log{}
message motion(room:text,time:int)message note(room: text, at: int, seen: int, words: text)";

const MIXED_TEXT: &[u8] = b"message door(time: int, room: text)
message tick()
message motion(room: text, time: int)
message note(room: text, at: int, seen: int, words: text)
actor hall {
  when door(at, room) & motion(_, seen) & door(_, other) within 30 if -at - 7 + 9223372036854775807 <= 60 && !!(room != other || \"x\\x01\\\"\" == room) && at > 0 || at < seen && seen >= at {
    print \"in \" room \" at \" at (at + 60 - seen) (-at);
    post desk note(room, -at, 0, \"\xC3\xA4\\n\");
    reply 3 -at + 2;
    reply 1 \"x\";
    stop;
  }
  when note(at, _, n, _) within 1 {
  }
}
actor desk {
  when tick() {
    post hall tick();
  }
}
actor log {
}
";

// Each relation, and texts that are quoted.
const TELLER_TEXT: &[u8] = br#"message tell(who: text, count: int)
message end()
actor teller {
  when tell(who, n) & end() & tell(_, k) if n == k || n != k || n < k || n <= k || n > k || n >= k && !!(who != "a \"\\\n" || n < k) {
    print "\t\x01" who (-n + 7 - k);
    post idle tell(who, -n + 7 - k);
  }
  when end() within 1000000 {
    post teller tell("", 0);
    post idle end();
    stop;
  }
}
actor idle {
}
"#;

// Whether this is the text of the plan, behind what was written before.
fn is_text(alloc: Global, plan: &Plan, text: &[u8]) -> Result<bool, NoMemory> {
    let mut out = Bytes::new(alloc);
    out.push_all(b"plan\n")?;
    print_plan(alloc, plan, &mut out)?;
    let (before, behind) = out.bytes().split_at(out.bytes().len().min(5));
    Ok(before == b"plan\n".as_slice() && behind == text)
}

fn is_printed(alloc: Global, script: &[u8], text: &[u8]) -> Result<bool, NoMemory> {
    match read_plan(alloc, script) {
        Ok(plan) => is_text(alloc, &plan, text),
        Err(_) => Ok(false),
    }
}

// Whether the script has this text, which is a script with the same text.
fn is_one_form(alloc: Global, script: &[u8], text: &[u8]) -> Result<bool, NoMemory> {
    Ok(is_printed(alloc, script, text)? && is_printed(alloc, text, text)?)
}

fn has_hall_one_form(alloc: Global) -> Result<bool, NoMemory> {
    is_one_form(alloc, HALL, HALL_TEXT)
}

fn has_mixed_one_form(alloc: Global) -> Result<bool, NoMemory> {
    is_one_form(alloc, MIXED, MIXED_TEXT)
}

fn is_teller_printed(alloc: Global) -> Result<bool, NoMemory> {
    is_printed(alloc, TELLER_TEXT, TELLER_TEXT)
}

fn is_teller_read(alloc: Global) -> bool {
    match read_plan_text(alloc, TELLER_TEXT) {
        Ok(text) => text.bytes() == TELLER_TEXT,
        Err(_) => false,
    }
}

#[test]
fn the_text_of_a_plan_is_read_without_the_plan(rt: HostRuntime) {
    assert!(rt; is_teller_read(rt.alloc()));
}

#[test]
fn the_text_of_a_plan_is_the_script_in_one_form(rt: HostRuntime) {
    let alloc = rt.alloc();
    let all = has_hall_one_form(alloc) == Ok(true)
        && has_mixed_one_form(alloc) == Ok(true)
        && is_teller_printed(alloc) == Ok(true);
    assert!(rt; all);
}

fn takes(rule: &Rule, kinds: &[u32], window: Option<u32>, conjuncts: usize) -> bool {
    rule.definition.patterns.as_slice() == kinds
        && rule.definition.window == window
        && rule.definition.conjuncts.len() == conjuncts
}

fn posts(statement: &Statement, to: u32, of: u32) -> bool {
    match statement {
        Statement::Post { target, kind, .. } => *target == to && *kind == of,
        _ => false,
    }
}

fn replies(statement: &Statement, to: u32) -> bool {
    match statement {
        Statement::Reply { pattern, .. } => *pattern == to,
        _ => false,
    }
}

fn field(pattern: u32, field: u32, minus: bool) -> Signed {
    let leaf = Leaf::Field(Place { pattern, field });
    Signed { minus, leaf }
}

// Whether a print of five items ends with a variable and a sum of it.
fn prints_a_sum(statement: &Statement) -> bool {
    let Statement::Print(items) = statement else {
        return false;
    };
    let number = Signed {
        minus: false,
        leaf: Leaf::Number(60),
    };
    let leaves = [field(0, 0, false), number, field(1, 1, true)];
    match items.as_slice() {
        [_, _, _, Item::Plain(at), Item::Sum(sum)] => {
            *at == Place {
                pattern: 0,
                field: 0,
            } && sum.leaves() == leaves.as_slice()
        }
        _ => false,
    }
}

fn has_statements(first: &Rule, second: &Rule) -> bool {
    match (first.body.as_slice(), second.body.as_slice()) {
        ([print, post, stop], [_, other, two, one]) => {
            prints_a_sum(print)
                && posts(post, 2, 2)
                && matches!(stop, Statement::Stop)
                && posts(other, 1, 0)
                && replies(two, 1)
                && replies(one, 0)
        }
        _ => false,
    }
}

// Kinds, actors, fields and patterns are counted from 0, in order of declaration.
fn has_numbers(plan: &Plan) -> bool {
    let [hall, log, desk] = plan.actors.as_slice() else {
        return false;
    };
    let [first, second] = hall.rules.as_slice() else {
        return false;
    };
    takes(first, &[0, 1, 0], Some(30), 3)
        && takes(second, &[2, 3], None, 0)
        && has_statements(first, second)
        && log.rules.len() == 0
        && desk.rules.len() == 1
        && plan.kinds.len() == 4
}

fn is_planned(alloc: Global) -> bool {
    match read_plan(alloc, HALL) {
        Ok(plan) => has_numbers(&plan),
        Err(_) => false,
    }
}

#[test]
fn a_plan_has_numbers_for_names(rt: HostRuntime) {
    assert!(rt; is_planned(rt.alloc()));
}

fn one<T: Drop>(alloc: Global, only: T) -> Result<Items<T>, NoMemory> {
    let mut items = Items::new(alloc);
    items.push(only)?;
    Ok(items)
}

// A definition of a kind that there is not, which prints a variable that there is not.
fn rule_of_nothing(alloc: Global) -> Result<Rule, NoMemory> {
    let place = Place {
        pattern: 3,
        field: 0,
    };
    let body = one(alloc, Statement::Print(one(alloc, Item::Plain(place))?))?;
    Ok(Rule {
        definition: Definition {
            patterns: one(alloc, 5)?,
            conjuncts: ConjunctList::new(alloc),
            window: None,
        },
        variables: Items::new(alloc),
        body,
    })
}

fn plan_of_nothing(alloc: Global) -> Result<Plan, NoMemory> {
    let rules = one(alloc, rule_of_nothing(alloc)?)?;
    let name = Name::from_bytes(alloc, b"m")?;
    Ok(Plan {
        kinds: Items::new(alloc),
        actors: one(alloc, ActorPlan { name, rules })?,
    })
}

fn is_nothing_named(alloc: Global) -> Result<bool, NoMemory> {
    let plan = plan_of_nothing(alloc)?;
    is_text(
        alloc,
        &plan,
        b"actor m {\n  when () {\n    print ;\n  }\n}\n",
    )
}

#[test]
fn what_a_plan_has_not_is_not_named(rt: HostRuntime) {
    assert!(rt; is_nothing_named(rt.alloc()) == Ok(true));
}
