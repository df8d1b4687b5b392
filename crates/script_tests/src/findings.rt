//! What lint finds.
use join_base::NoMemory;
use script_check::{read_lint_text, read_plan};
use script_lint::{Finding, lint};
use script_types::Plan;
use std::alloc::Global;

fn are_found(alloc: Global, plan: &Plan, wanted: &[Finding]) -> Result<bool, NoMemory> {
    Ok(lint(alloc, plan)?.as_slice() == wanted)
}

/// Whether a script has these findings.
pub fn has_findings(alloc: Global, script: &[u8], wanted: &[Finding]) -> Result<bool, NoMemory> {
    match read_plan(alloc, script) {
        Ok(plan) => are_found(alloc, &plan, wanted),
        Err(_) => Ok(false),
    }
}

const SHADOWED: &[u8] = b"message a(x: int) message b(x: int) actor m {
  when a(x) & b(y) if x > 3 { }
  when a(x) & b(y) if x > 5 && y < 2 { }
  when a(x) if x < 1 && x > 1 { }
}";

const NARROW: &[u8] =
    b"message a(x: int) message b(x: int) actor m { when a(x) & b(y) within 1 { } }";

fn is_shadow_found(alloc: Global) -> Result<bool, NoMemory> {
    let wanted = [
        Finding::Shadowed {
            actor: 0,
            rule: 2,
            by: 1,
        },
        Finding::Dead { actor: 0, rule: 3 },
    ];
    has_findings(alloc, SHADOWED, &wanted)
}

fn is_narrow_found(alloc: Global) -> Result<bool, NoMemory> {
    let wanted = [
        Finding::Narrow { actor: 0, rule: 1 },
        Finding::Idle { kind: 0 },
        Finding::Idle { kind: 1 },
    ];
    has_findings(alloc, NARROW, &wanted)
}

#[test]
fn definitions_and_kinds_are_found(rt: HostRuntime) {
    let alloc = rt.alloc();
    assert!(rt; is_shadow_found(alloc) == Ok(true) && is_narrow_found(alloc) == Ok(true));
}

const SHADOWED_TEXT: &[u8] = b"shadowed m rule 2 by 1\ndead m rule 3\nlint 2\n";

fn is_shadow_told(alloc: Global) -> bool {
    match read_lint_text(alloc, SHADOWED) {
        Ok(text) => text.bytes() == SHADOWED_TEXT,
        Err(_) => false,
    }
}

#[test]
fn findings_are_read_as_text(rt: HostRuntime) {
    assert!(rt; is_shadow_told(rt.alloc()));
}
