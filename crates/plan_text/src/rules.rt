//! Definitions as text.
ghost use Rattle.std.specs.Prelude.{◌≡◌, ◌++◌, OnOk, codes};
ghost use Rattle.std.specs.List.{flat_map, join_by};
ghost use Rattle.plan_text.specs.PlanText.{pattern_text, patterns_of, rule_lines, variable_text, when_line, window_text};

use crate::guards::write_guard;
use crate::names::{Row, row_of};
use crate::statements::write_body;
use join_base::{Bytes, Name, NoMemory, write_number};
use script_types::{Plan, Rule, write_kind_name};

fn write_name_or_blank(text: &mut Bytes, name: &Option<Name>) -> Result<(), NoMemory>
    ensures { OnOk result (text.new ≡ text.old ++ variable_text name.now) }
{
    match name {
        Some(name) => text.push_all(name.bytes()),
        None => text.push_all(b"_"),
    }
}

fn write_row(text: &mut Bytes, row: &[Option<Name>]) -> Result<(), NoMemory>
    ensures { OnOk result (text.new ≡ text.old ++ join_by variable_text (codes ", ") row.now) }
{
    match row {
        [] => Ok(()),
        [first, more @ ..] => {
            write_name_or_blank(text, first)?;
            for name in more {
                text.push_all(b", ")?;
                write_name_or_blank(text, name)?;
            }
            Ok(())
        }
    }
}

/// Appends a pattern: the name of its kind, and its variables in parentheses. Without memory some of it may stay
/// appended.
pub fn write_pattern(
    text: &mut Bytes,
    plan: &Plan,
    kind: u32,
    row: &[Option<Name>],
) -> Result<(), NoMemory>
    ensures { OnOk result (text.new ≡ text.old ++ pattern_text plan.now (kind, row.now)) }
{
    write_kind_name(text, plan, kind)?;
    text.push_all(b"(")?;
    write_row(text, row)?;
    text.push_all(b")")
}

// The patterns of these kinds, ` & ` between each two.
fn write_patterns(
    text: &mut Bytes,
    plan: &Plan,
    kinds: &[u32],
    variables: &[Row],
) -> Result<(), NoMemory>
    ensures { OnOk result (text.new ≡ text.old ++ join_by (pattern_text plan.now) (codes " & ") (patterns_of kinds.now
        variables.now)) }
{
    match kinds {
        [] => Ok(()),
        [first, more @ ..] => {
            write_pattern(text, plan, *first, row_of(variables, 0))?;
            for (place, kind) in more.iter().enumerate() {
                text.push_all(b" & ")?;
                write_pattern(text, plan, *kind, row_of(variables, place + 1))?;
            }
            Ok(())
        }
    }
}

fn write_window(text: &mut Bytes, window: Option<u32>) -> Result<(), NoMemory>
    ensures { OnOk result (text.new ≡ text.old ++ window_text window) }
{
    match window {
        None => Ok(()),
        Some(number) => {
            text.push_all(b" within ")?;
            write_number(text, i128::from(number))
        }
    }
}

fn write_when(text: &mut Bytes, plan: &Plan, rule: &Rule) -> Result<(), NoMemory>
    ensures { OnOk result (text.new ≡ text.old ++ when_line plan.now rule.now) }
{
    let variables = rule.variables.as_slice();
    text.push_all(b"  when ")?;
    write_patterns(text, plan, rule.definition.patterns.as_slice(), variables)?;
    write_window(text, rule.definition.window)?;
    write_guard(text, variables, rule.definition.conjuncts.as_slice())?;
    text.push_all(b" {\n")
}

/// Appends the lines of a definition. Of the plan it reads the names alone: its kinds, and the names of its actors.
/// Without memory some of them may stay appended.
pub fn write_rule(text: &mut Bytes, plan: &Plan, rule: &Rule) -> Result<(), NoMemory>
    ensures { OnOk result (text.new ≡ text.old ++ rule_lines plan.now rule.now) }
{
    write_when(text, plan, rule)?;
    write_body(text, plan, rule.variables.as_slice(), rule.body.as_slice())?;
    text.push_all(b"  }\n")
}

// The lines of each definition.
pub(crate) fn write_rules(text: &mut Bytes, plan: &Plan, rules: &[Rule]) -> Result<(), NoMemory>
    ensures { OnOk result (text.new ≡ text.old ++ flat_map (rule_lines plan.now) rules.now) }
{
    for rule in rules {
        write_rule(text, plan, rule)?;
    }
    Ok(())
}
