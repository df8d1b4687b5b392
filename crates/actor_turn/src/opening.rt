//! What a new actor is told.
ghost use Rattle.std.specs.Prelude.{◌≡◌, ◌≤◌, [], false, IfOk, length, map, replicate, List, ℕ};
ghost use Rattle.join_base.specs.declared.message.Sort.{Sort as FieldSort};
ghost use Rattle.std.specs.List.{AllByRecursion};
ghost use Rattle.script_types.specs.Typed.{kind_types};
ghost use Rattle.fair_semantics.specs.Step.{definitions_of};
ghost use Rattle.actor_turn.specs.Held.{new_trees};
ghost use Rattle.actor_turn.specs.Steady.{HasPatterns};

use crate::outbox::Outbox;
use join_base::{Items, Name, NoMemory, Sort};
use match_tree::MatchTree;
use script_types::{Kind, Rule};
use std::alloc::Global;

// The types of the fields of a kind.
fn field_sorts(alloc: Global, fields: &Items<(Name, Sort)>) -> Result<Items<Sort>, NoMemory>
    ensures { IfOk result (λ s. s ≡ map (λ (field : List ℕ × FieldSort). field.1) fields.now) }
{
    let mut sorts = Items::new(alloc);
    for field in fields.as_slice() {
        sorts.push(field.1)?;
    }
    Ok(sorts)
}

/// The types of the fields of each kind.
pub fn kind_sorts(alloc: Global, kinds: &Items<Kind>) -> Result<Items<Items<Sort>>, NoMemory>
    ensures { IfOk result (λ s. s ≡ kind_types kinds.now) }
{
    let mut sorts = Items::new(alloc);
    for kind in kinds.as_slice() {
        let own = field_sorts(alloc, &kind.fields)?;
        sorts.push(own)?;
    }
    Ok(sorts)
}

/// Equal rules.
pub fn copy_rules(alloc: Global, rules: &Items<Rule>) -> Result<Items<Rule>, NoMemory>
    ensures { IfOk result (λ r. r ≡ rules.now) }
{
    let mut copies = Items::new(alloc);
    for rule in rules.as_slice() {
        let copied = rule.copy(alloc)?;
        copies.push(copied)?;
    }
    Ok(copies)
}

/// A tree for each rule, which holds the empty path alone.
pub fn trees_of(alloc: Global, rules: &Items<Rule>) -> Result<Vec<MatchTree>, NoMemory>
    requires few { length rules.now ≤ 16 }
    requires patterns { AllByRecursion HasPatterns (definitions_of rules.now) }
    ensures { IfOk result (λ t. t.items ≡ new_trees 1 (definitions_of rules.now)) }
{
    let mut trees = Vec::new(alloc);
    for (place, rule) in rules.as_slice().iter().enumerate() {
        let tree = MatchTree::new(alloc, &rule.definition, (place + 1) as u32)?;
        trees.push(tree)?;
    }
    Ok(trees)
}

/// So many outboxes without a post.
pub fn outboxes_of(alloc: Global, count: usize) -> Result<Vec<Outbox>, NoMemory>
    ensures posts { IfOk result (λ o. map (λ outbox. outbox.posts) o.items ≡ replicate count []) }
    ensures lent { IfOk result (λ o. map (λ outbox. outbox.lent) o.items ≡ replicate count false) }
{
    let mut outboxes = Vec::new(alloc);
    for _ in 0..count {
        outboxes.push(Outbox::new(alloc))?;
    }
    Ok(outboxes)
}
