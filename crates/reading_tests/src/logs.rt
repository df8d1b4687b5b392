//! Logs that are read and printed again as they were, and logs that are none.
ghost use Rattle.std.specs.Prelude.{◌≡◌, [], IfOk, OnOk, true};
ghost use Rattle.join_base.specs.Text.{is_name};
ghost use Rattle.script_types.specs.Typed.{IsTyped};
ghost use Rattle.fair_semantics.specs.Fits.{RunFits};
ghost use Rattle.reading_tests.specs.Samples.{no_field, one_field, ruleless, sample_plan};

use arrival_log::print_log;
use fair_semantics::Run;
use join_base::{Bytes, Items, Name, NoMemory, Sort};
use log_reader::{LogFault, read_log};
use script_types::{ActorPlan, Kind, Plan};
use std::alloc::Global;

const FIRST: &str = "joinlog 1 arrivals 9 partials 9 feeds 2\n";

const SECOND: &str = "joinlog 2 arrivals 9 partials 9 feeds 2\n";

// The first line of a log, and lines of the first actor.
const READ: &[(&str, &str)] = &[
    (FIRST, ""),
    (FIRST, "1 from feed 1 go()\n"),
    // The least and the greatest limits.
    ("joinlog 1 arrivals 1 partials 1 feeds 1\n", ""),
    ("joinlog 2 arrivals 1000000 partials 1000000 feeds 16\n", ""),
    (SECOND, "1 at 4294967295 from feed 1 a(1)\n"),
    // All that a section can have.
    (
        SECOND,
        "1 at 1 from feed 2 a(-5)
2 at 3 from actor n say(\"a \\\"b\\\",c)\")
fire rule 2 take 2,1
print \"left 1\\n\"
post n go()
reply 1 \"none\"
reply 2 9223372036854775807
3 at 4 from feed 1 b(-9223372036854775808)
late feed 1 1
late feed 2 18446744073709551615
late actor m 2
late actor n 1
",
    ),
];

// The same, and the line at fault.
const REFUSED: &[(&str, &str, u64)] = &[
    ("joinlog 1 arrivals 9 partials 0 feeds 2\n", "", 1),
    (FIRST, "\n", 3),
    (FIRST, "1 from feed 1 a(1,2)\n", 3),
    (FIRST, "1 from feed 1 a()\n", 3),
    (FIRST, "1 from feed 1 a(\"1\")\n", 3),
    (FIRST, "1 from  feed 1 a(1)\n", 3),
    (FIRST, "1 from feed 1 a(1)\r\n", 3),
    (
        FIRST,
        "1 from feed 1 a(1)\nfire rule 1 take 1\nreply 1 5\n",
        5,
    ),
    (SECOND, "1 at 4294967296 from feed 1 a(1)\n", 3),
    (SECOND, "late feed 1 18446744073709551616\n", 3),
    (SECOND, "late feed 2 3\nlate feed 1 1\n", 4),
    (SECOND, "late actor m 3\nlate feed 2 1\n", 4),
    (SECOND, "late feed 1 3\n1 at 1 from feed 1 a(1)\n", 4),
];

// A kind with one field `x`.
fn kind(alloc: Global, name: &[u8], sort: Sort) -> Result<Kind, NoMemory>
    requires { is_name name.now ≡ true }
    ensures { IfOk result (λ k. k ≡ one_field name.now sort) }
{
    let name = Name::from_bytes(alloc, name)?;
    let field = Name::from_bytes(alloc, b"x")?;
    let mut fields = Items::new(alloc);
    fields.push((field, sort))?;
    Ok(Kind { name, fields })
}

// An actor without rules, of which a log shows nothing.
fn actor(alloc: Global, name: &[u8]) -> Result<ActorPlan, NoMemory>
    requires { is_name name.now ≡ true }
    ensures { IfOk result (λ a. a ≡ ruleless name.now) }
{
    let name = Name::from_bytes(alloc, name)?;
    Ok(ActorPlan {
        name,
        rules: Items::new(alloc),
    })
}

// A kind without fields.
fn bare_kind(alloc: Global, name: &[u8]) -> Result<Kind, NoMemory>
    requires { is_name name.now ≡ true }
    ensures { IfOk result (λ k. k ≡ no_field name.now) }
{
    let name = Name::from_bytes(alloc, name)?;
    Ok(Kind {
        name,
        fields: Items::new(alloc),
    })
}

fn push_kinds(alloc: Global, kinds: &mut Items<Kind>) -> Result<(), NoMemory>
    requires empty { kinds.old ≡ [] }
    ensures { OnOk result (kinds.new ≡ sample_plan.kinds) }
{
    kinds.push(kind(alloc, b"a", Sort::Int)?)?;
    kinds.push(kind(alloc, b"b", Sort::Int)?)?;
    kinds.push(kind(alloc, b"say", Sort::Words)?)?;
    kinds.push(bare_kind(alloc, b"go")?)?;
    Ok(())
}

fn push_actors(alloc: Global, actors: &mut Items<ActorPlan>) -> Result<(), NoMemory>
    requires empty { actors.old ≡ [] }
    ensures { OnOk result (actors.new ≡ sample_plan.actors) }
{
    actors.push(actor(alloc, b"m")?)?;
    actors.push(actor(alloc, b"n")?)?;
    Ok(())
}

fn sample_plan(alloc: Global) -> Result<Plan, NoMemory>
    ensures { IfOk result (λ p. p ≡ sample_plan) }
{
    let mut kinds = Items::new(alloc);
    push_kinds(alloc, &mut kinds)?;
    let mut actors = Items::new(alloc);
    push_actors(alloc, &mut actors)?;
    Ok(Plan { kinds, actors })
}

// Appends a log of the sample plan, of which the first line and lines of the first actor are given.
fn push_log(log: &mut Bytes, first: &str, lines: &str) -> Result<(), NoMemory> {
    log.push_all(first.as_bytes())?;
    log.push_all(b"actor m\n")?;
    log.push_all(lines.as_bytes())?;
    log.push_all(b"end stopped left 1,3 partials 2\nactor n\nend jammed left - partials 0\n")
}

fn whole(alloc: Global, first: &str, lines: &str) -> Result<Bytes, NoMemory> {
    let mut log = Bytes::new(alloc);
    push_log(&mut log, first, lines)?;
    Ok(log)
}

// A run printed again.
fn printed(alloc: Global, plan: &Plan, run: &Run) -> Result<Bytes, NoMemory>
    requires fits { RunFits plan.now run.now }
{
    let mut out = Bytes::new(alloc);
    print_log(alloc, plan, run, &mut out)?;
    Ok(out)
}

// Whether the log is read, and printed as it was.
fn is_read(alloc: Global, plan: &Plan, log: &[u8]) -> Result<bool, NoMemory>
    requires typed { IsTyped plan.now }
{
    match read_log(alloc, plan, log) {
        Ok(run) => Ok(printed(alloc, plan, &run)?.bytes() == log),
        Err(_) => Ok(false),
    }
}

fn is_row_read(alloc: Global, plan: &Plan, row: &(&str, &str)) -> Result<bool, NoMemory>
    requires typed { IsTyped plan.now }
{
    let log = whole(alloc, row.0, row.1)?;
    is_read(alloc, plan, log.bytes())
}

fn are_read(alloc: Global, plan: &Plan, rows: &[(&str, &str)]) -> bool
    requires typed { IsTyped plan.now }
{
    for row in rows {
        if is_row_read(alloc, plan, row) != Ok(true) {
            return false;
        }
    }
    true
}

// Whether the log is refused for this line.
fn is_refused(alloc: Global, plan: &Plan, row: &(&str, &str, u64)) -> Result<bool, NoMemory>
    requires typed { IsTyped plan.now }
{
    let log = whole(alloc, row.0, row.1)?;
    match read_log(alloc, plan, log.bytes()) {
        Err(LogFault::Bad { line }) => Ok(line == row.2),
        _ => Ok(false),
    }
}

fn are_refused(alloc: Global, plan: &Plan, rows: &[(&str, &str, u64)]) -> bool
    requires typed { IsTyped plan.now }
{
    for row in rows {
        if is_refused(alloc, plan, row) != Ok(true) {
            return false;
        }
    }
    true
}

fn logs_read() -> &'static [(&'static str, &'static str)] {
    READ
}

fn logs_refused() -> &'static [(&'static str, &'static str, u64)] {
    REFUSED
}

fn are_logs_read(alloc: Global) -> bool {
    match sample_plan(alloc) {
        Ok(plan) => are_read(alloc, &plan, logs_read()),
        Err(NoMemory) => false,
    }
}

fn are_logs_refused(alloc: Global) -> bool {
    match sample_plan(alloc) {
        Ok(plan) => are_refused(alloc, &plan, logs_refused()),
        Err(NoMemory) => false,
    }
}

#[test]
fn a_log_is_printed_as_it_was_read(rt: HostRuntime) {
    assert!(rt; are_logs_read(rt.alloc()));
}

#[test]
fn a_refusal_has_the_line_at_fault(rt: HostRuntime) {
    assert!(rt; are_logs_refused(rt.alloc()));
}

fn is_told(alloc: Global) -> bool {
    let fault = LogFault::Bad { line: 3 };
    match format!(in alloc; "{fault}") {
        Ok(text) => text.as_str() == "line 3 may not stand there",
        Err(_) => false,
    }
}

#[test]
fn a_fault_says_the_line(rt: HostRuntime) {
    assert!(rt; is_told(rt.alloc()));
}
