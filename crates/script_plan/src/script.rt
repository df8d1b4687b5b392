//! The plan of a script, read from its tokens.
ghost use Rattle.std.specs.Prelude.{◌≡◌, ◌<◌, fold, length, IfOk};
ghost use Rattle.std.specs.List.{AllByRecursion};
ghost use Rattle.script_tokens.specs.declared.token.Mark.TheVariants as m;
ghost use Rattle.script_grammar.specs.Gives.{Notes};
ghost use Rattle.script_grammar.specs.Outlines.{Outlines};
ghost use Rattle.script_grammar.specs.Reading.{repeated};
ghost use Rattle.script_grammar.specs.ScriptReading.{actor_read, begins_declaration, declaration_read, definition_read, is_mark, next_is, script_read};
ghost use Rattle.script_types.specs.Names.{HasNames};
ghost use Rattle.script_plan.specs.PlanOf.{actor_of, rule_of};
ghost use Rattle.script_plan.specs.Planned.{AllSmall, IsSmallDeclaration, Plans, ReadsSome, outline_tree};
ghost use Rattle.script_plan.specs.Small.{IsSmallActor, IsSmallRule};
ghost use Rattle.script_plan.specs.Visited.{Visits, actor_taken, declaration_taken, rule_taken};

use crate::collector::Collector;
use crate::heads::plan_heads;
use crate::names::Script;
use crate::plan::rule_of;
use crate::visitor::PlanVisitor;
use script_grammar::{
    Outline, Stop, is_next, is_next_declaration, mark_at, name_at, rule_at, skip_message,
};
use script_tokens::{Mark, Tokens};
use script_types::{Plan, Rule};
use std::alloc::Global;

// The plan of the definition in front of the tokens, whose tree is let go of here.
fn rule_plan_at(alloc: Global, script: &Script<'_>, tokens: &mut Tokens<'_>) -> Result<Rule, Stop>
    requires small { ReadsSome IsSmallRule (definition_read tokens.old) }
    ensures gives { Notes (λ rule plan. plan ≡ rule_of (outline_tree script.now.outline.now) rule) result tokens.new
        (definition_read tokens.old) }
    ensures shorter { IfOk result (λ _. length tokens.new < length tokens.old) }
{
    let rule = rule_at(alloc, tokens)?;
    let plan = rule_of(alloc, script, &rule)?;
    Ok(plan)
}

fn visit_rule<V: PlanVisitor>(
    alloc: Global,
    script: &Script<'_>,
    visitor: &mut V,
    tokens: &mut Tokens<'_>,
) -> Result<(), Stop>
    requires small { ReadsSome IsSmallRule (definition_read tokens.old) }
    ensures gives { Notes (λ rule _. V.taken visitor.new ≡ rule_taken V.with_rule
        (outline_tree script.now.outline.now) (V.taken visitor.old) rule) result tokens.new
        (definition_read tokens.old) }
    ensures shorter { IfOk result (λ _. length tokens.new < length tokens.old) }
{
    let plan = rule_plan_at(alloc, script, tokens)?;
    visitor.take_rule(alloc, plan)?;
    Ok(())
}

// As many definitions as there are.
fn visit_rules<V: PlanVisitor>(
    alloc: Global,
    script: &Script<'_>,
    visitor: &mut V,
    tokens: &mut Tokens<'_>,
) -> Result<(), Stop>
    requires small { ReadsSome (AllByRecursion IsSmallRule) (repeated (is_mark m.When) definition_read tokens.old) }
    ensures { Notes (λ rules _. V.taken visitor.new ≡ fold (rule_taken V.with_rule
        (outline_tree script.now.outline.now)) (V.taken visitor.old) rules) result tokens.new
        (repeated (is_mark m.When) definition_read tokens.old) }
{
    'list: while is_next(tokens, Mark::When) {
        visit_rule(alloc, script, visitor, tokens)?;
    }
    Ok(())
}

#[tactic(auto, unfolding(script_grammar::specs::ScriptReading::actor_read))]
fn visit_actor<V: PlanVisitor>(
    alloc: Global,
    script: &Script<'_>,
    visitor: &mut V,
    tokens: &mut Tokens<'_>,
) -> Result<(), Stop>
    requires small { ReadsSome IsSmallActor (actor_read tokens.old) }
    ensures { Notes (λ actor _. V.taken visitor.new ≡ actor_taken V.with_actor V.with_rule V.with_end
        (V.taken visitor.old) (actor_of (outline_tree script.now.outline.now) actor)) result tokens.new
        (actor_read tokens.old) }
{
    mark_at(alloc, tokens, Mark::Actor)?;
    let spelt = name_at(alloc, tokens)?;
    mark_at(alloc, tokens, Mark::OpenBrace)?;
    let name = spelt.name.to_name(alloc)?;
    visitor.begin_actor(alloc, &name)?;
    visit_rules(alloc, script, visitor, tokens)?;
    mark_at(alloc, tokens, Mark::CloseBrace)?;
    visitor.end_actor(alloc, name)?;
    Ok(())
}

// The declaration in front of the tokens. Of a message nothing is taken.
fn visit_declaration<V: PlanVisitor>(
    alloc: Global,
    script: &Script<'_>,
    visitor: &mut V,
    tokens: &mut Tokens<'_>,
) -> Result<(), Stop>
    requires small { ReadsSome IsSmallDeclaration (declaration_read tokens.old) }
    ensures { Notes (λ d _. V.taken visitor.new ≡ declaration_taken V.with_actor V.with_rule V.with_end
        (outline_tree script.now.outline.now) (V.taken visitor.old) d) result tokens.new
        (declaration_read tokens.old) }
{
    if is_next(tokens, Mark::Message) {
        skip_message(alloc, tokens)?;
        return Ok(());
    }
    visit_actor(alloc, script, visitor, tokens)?;
    Ok(())
}

fn visit_declarations<V: PlanVisitor>(
    alloc: Global,
    script: &Script<'_>,
    visitor: &mut V,
    tokens: &mut Tokens<'_>,
) -> Result<(), Stop>
    requires small { ReadsSome (AllByRecursion IsSmallDeclaration) (repeated (next_is begins_declaration)
        declaration_read tokens.old) }
    ensures { Notes (λ ds _. V.taken visitor.new ≡ fold (declaration_taken V.with_actor V.with_rule V.with_end
        (outline_tree script.now.outline.now)) (V.taken visitor.old) ds) result tokens.new
        (repeated (next_is begins_declaration) declaration_read tokens.old) }
{
    'list: while is_next_declaration(tokens) {
        visit_declaration(alloc, script, visitor, tokens)?;
    }
    Ok(())
}

/// Hands a visitor the plan of a script with this outline, whose sizes are small enough for one, definition by
/// definition. Of each definition nothing stays but what the visitor keeps. Where the script has a fault, as a name that
/// is not declared, its plan has 0 in its place.
pub fn visit_plan<V: PlanVisitor>(
    alloc: Global,
    outline: &Outline,
    visitor: &mut V,
    tokens: &mut Tokens<'_>,
) -> Result<(), Stop>
    requires outline { Outlines outline.now (script_read tokens.old) }
    requires small { AllSmall (script_read tokens.old) }
    ensures { Visits V.with_actor V.with_rule V.with_end (V.taken visitor.old) (V.taken visitor.new)
        (script_read tokens.old) result }
{
    let script = Script::new(alloc, outline)?;
    visit_declarations(alloc, &script, visitor, tokens)?;
    Ok(())
}

/// The plan of a script with this outline, whose sizes are small enough for one. The definitions are read one after the
/// other, and of each nothing but its plan stays. Where the script has a fault, as a name that is not declared, the plan
/// has 0 in its place. Its names are names, since the script's are.
pub fn plan_at(alloc: Global, outline: &Outline, tokens: &mut Tokens<'_>) -> Result<Plan, Stop>
    requires outline { Outlines outline.now (script_read tokens.old) }
    requires small { AllSmall (script_read tokens.old) }
    ensures plan { Plans (script_read tokens.old) result }
    ensures names { IfOk result HasNames }
{
    let heads = plan_heads(alloc, outline)?;
    let mut collector = Collector::new(alloc);
    visit_plan(alloc, outline, &mut collector, tokens)?;
    Ok(Plan {
        kinds: heads.kinds,
        actors: collector.actors,
    })
}
