//! The targets of the bodies of an actor.
ghost use Rattle.std.specs.Prelude.{◌≡◌, ◌≤◌, length, map, IfOk};
ghost use Rattle.std.specs.List.{list_any};
ghost use Rattle.actor_cells.specs.Lawful.{is_post_to, names_target};
ghost use Rattle.actor_cells.specs.Targets.{AreTargets, AreTargetsOf};

use join_base::{Items, NoMemory};
use script_types::{Plan, Rule, Statement};
use std::alloc::Global;

fn is_post_to(statement: &Statement, target: u32) -> bool
    ensures { result ≡ is_post_to target statement.now }
{
    match statement {
        Statement::Print(_) => false,
        Statement::Post { target: to, .. } => *to == target,
        Statement::Stop => false,
        Statement::Reply { .. } => false,
    }
}

fn body_names(body: &Items<Statement>, target: u32) -> bool
    ensures { result ≡ list_any (is_post_to target) body.now }
{
    for statement in body.as_slice() {
        if is_post_to(statement, target) {
            return true;
        }
    }
    false
}

// Whether a body of the rules has a post to the target.
fn names(rules: &Items<Rule>, target: u32) -> bool
    ensures { result ≡ names_target rules.now target }
{
    for rule in rules.as_slice() {
        if body_names(&rule.body, target) {
            return true;
        }
    }
    false
}

// The targets of the bodies of these rules, where there are so many actors.
fn targets_of(alloc: Global, count: u32, rules: &Items<Rule>) -> Result<Vec<u32>, NoMemory>
    ensures { IfOk result (λ targets. AreTargets count rules.now targets.items) }
{
    let mut targets = Vec::new(alloc);
    for target in 0..count {
        if names(rules, target) {
            targets.push(target)?;
        }
    }
    Ok(targets)
}

/// The targets of the bodies of each actor.
pub fn all_targets(alloc: Global, plan: &Plan) -> Result<Vec<Vec<u32>>, NoMemory>
    requires few { length plan.now.actors ≤ 32 }
    ensures count { IfOk result (λ targets. length targets.items ≡ length plan.now.actors) }
    ensures targets { IfOk result (λ targets. AreTargetsOf (length plan.now.actors) plan.now.actors
        (map (λ own. own.items) targets.items)) }
{
    let count = plan.actors.len() as u32;
    let mut targets = Vec::new(alloc);
    for actor in plan.actors.as_slice() {
        let own = targets_of(alloc, count, &actor.rules)?;
        targets.push(own)?;
    }
    Ok(targets)
}
