//! Findings as text. Without memory some of it may stay appended.
ghost use Rattle.std.specs.Prelude.{◌≡◌, ◌++◌, OnOk};
ghost use Rattle.std.specs.List.{flat_map};
ghost use Rattle.script_lint.specs.LintText.{finding_line, finding_text, report_text, rule_text, total_line};

use crate::finding::Finding;
use join_base::{Bytes, NoMemory, write_number};
use script_types::{Plan, write_actor_name, write_kind_name};

// `ACTOR rule R` behind a label.
fn write_rule(
    text: &mut Bytes,
    label: &[u8],
    plan: &Plan,
    actor: u32,
    rule: u32,
) -> Result<(), NoMemory>
    ensures { OnOk result (text.new ≡ text.old ++ (label.now ++ rule_text plan.now actor rule)) }
{
    text.push_all(label)?;
    write_actor_name(text, plan, actor)?;
    text.push_all(b" rule ")?;
    write_number(text, i128::from(rule))
}

fn write_finding(text: &mut Bytes, plan: &Plan, finding: Finding) -> Result<(), NoMemory>
    ensures { OnOk result (text.new ≡ text.old ++ finding_text plan.now finding) }
{
    match finding {
        Finding::Dead { actor, rule } => write_rule(text, b"dead ", plan, actor, rule),
        Finding::Narrow { actor, rule } => write_rule(text, b"narrow ", plan, actor, rule),
        Finding::Shadowed { actor, rule, by } => {
            write_rule(text, b"shadowed ", plan, actor, rule)?;
            text.push_all(b" by ")?;
            write_number(text, i128::from(by))
        }
        Finding::Idle { kind } => {
            text.push_all(b"idle ")?;
            write_kind_name(text, plan, kind)
        }
    }
}

fn write_findings(text: &mut Bytes, plan: &Plan, found: &[Finding]) -> Result<(), NoMemory>
    ensures { OnOk result (text.new ≡ text.old ++ flat_map (finding_line plan.now) found.now) }
{
    for finding in found {
        write_finding(text, plan, *finding)?;
        text.push_all(b"\n")?;
    }
    Ok(())
}

// `lint N`.
fn write_total(text: &mut Bytes, total: u64) -> Result<(), NoMemory>
    ensures { OnOk result (text.new ≡ text.old ++ total_line total) }
{
    text.push_all(b"lint ")?;
    write_number(text, i128::from(total))?;
    text.push_all(b"\n")
}

/// Appends a line for each finding, in their order: `dead ACTOR rule R`, `narrow ACTOR rule R`, `shadowed ACTOR rule R
/// by B` or `idle KIND`, and then `lint N` with their number. Definitions are counted from 1. Of the plan it reads the
/// names alone, those of its kinds and of its actors.
pub fn write_report(text: &mut Bytes, plan: &Plan, found: &[Finding]) -> Result<(), NoMemory>
    ensures { OnOk result (text.new ≡ text.old ++ report_text plan.now found.now) }
{
    write_findings(text, plan, found)?;
    write_total(text, found.len() as u64)
}
