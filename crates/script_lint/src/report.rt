//! The findings of an actor's definitions, and the kinds that none takes.
ghost use Rattle.std.specs.Prelude.{◌≡◌, ◌++◌, ◌+◌, ◌<◌, ◌^◌, length, [], OnOk};
ghost use Rattle.join_base.specs.Taken.{contains_number};
ghost use Rattle.script_lint.specs.Findings.{finding_of, findings_behind, idle_from, kinds_behind, kinds_of, listed};

use crate::dead::{is_dead, is_narrow};
use crate::finding::Finding;
use crate::shadow::first_shadow;
use join_base::{Items, NoMemory};
use pattern_core::Definition;
use script_types::{Kind, Rule};

// The finding of a definition behind the earlier ones of its actor.
fn finding_of(actor: u32, earlier: &[Rule], definition: &Definition) -> Option<Finding>
    requires { length earlier.now + 1 < 2 ^ 32 }
    ensures { result ≡ finding_of actor earlier.now definition.now }
{
    let rule = earlier.len() as u32 + 1;
    if is_dead(definition) {
        return Some(Finding::Dead { actor, rule });
    }
    if is_narrow(definition) {
        return Some(Finding::Narrow { actor, rule });
    }
    match first_shadow(earlier, definition) {
        Some(by) => Some(Finding::Shadowed { actor, rule, by }),
        None => None,
    }
}

fn push_listed(found: &mut Items<Finding>, finding: Option<Finding>) -> Result<(), NoMemory>
    ensures { OnOk result (found.new ≡ found.old ++ listed finding) }
{
    if let Some(finding) = finding {
        found.push(finding)?;
    }
    Ok(())
}

// Appends the numbers.
fn push_numbers(taken: &mut Items<u32>, numbers: &[u32]) -> Result<(), NoMemory>
    ensures { OnOk result (taken.new ≡ taken.old ++ numbers.now) }
{
    for number in numbers {
        taken.push(*number)?;
    }
    Ok(())
}

// Appends the kinds that a definition takes, and none where it has a finding.
fn push_kinds(
    taken: &mut Items<u32>,
    finding: Option<Finding>,
    definition: &Definition,
) -> Result<(), NoMemory>
    ensures { OnOk result (taken.new ≡ taken.old ++ kinds_of finding definition.now) }
{
    match finding {
        None => push_numbers(taken, definition.patterns.as_slice()),
        Some(_) => Ok(()),
    }
}

/// Appends the finding of each of an actor's rules, and the kinds that those without one take.
pub fn push_rules(
    found: &mut Items<Finding>,
    taken: &mut Items<u32>,
    actor: u32,
    rules: &[Rule],
) -> Result<(), NoMemory>
    requires few { length rules.now < 2 ^ 32 }
    ensures found { OnOk result (found.new ≡ found.old ++ findings_behind actor [] rules.now) }
    ensures taken { OnOk result (taken.new ≡ taken.old ++ kinds_behind actor [] rules.now) }
{
    for place in 0..rules.len() {
        let (earlier, _) = rules.split_at(place);
        let definition = &rules[place].definition;
        let finding = finding_of(actor, earlier, definition);
        push_listed(found, finding)?;
        push_kinds(taken, finding, definition)?;
    }
    Ok(())
}

fn contains_number(numbers: &[u32], number: u32) -> bool
    ensures { result ≡ contains_number numbers.now number }
{
    for other in numbers {
        if number == *other {
            return true;
        }
    }
    false
}

/// Appends the kinds that are not taken.
pub fn push_idle(found: &mut Items<Finding>, taken: &[u32], kinds: &[Kind]) -> Result<(), NoMemory>
    requires { length kinds.now < 2 ^ 32 }
    ensures { OnOk result (found.new ≡ found.old ++ idle_from taken.now 0 kinds.now) }
{
    for (place, _kind) in kinds.iter().enumerate() {
        let kind = place as u32;
        if !contains_number(taken, kind) {
            found.push(Finding::Idle { kind })?;
        }
    }
    Ok(())
}
