//! The kinds of a script, and the rules of its definitions.
ghost use Rattle.std.specs.Prelude.{◌≡◌, IfOk, map, true};
ghost use Rattle.std.specs.List.{AllByRecursion};
ghost use Rattle.join_base.specs.Text.{is_name};
ghost use Rattle.script_types.specs.Names.{AreNames, field_names, kind_names};
ghost use Rattle.script_plan.specs.PlanOf.{definition_of, field_of, kind_of, names_in, pattern_of, rule_of, rule_with, window_of};
ghost use Rattle.script_plan.specs.Planned.{outline_tree};
ghost use Rattle.script_plan.specs.Small.{IsSmallRule, IsSmallWindow};

use crate::body::body_of;
use crate::guard::conjuncts_of;
use crate::names::{Script, Variables};
use join_base::{Items, Name, NoMemory, Sort};
use pattern_core::Definition;
use script_grammar::{FieldDecl, MessageDecl, PatternDecl, RuleDecl};
use script_tokens::ScriptName;
use script_types::{Kind, Rule};
use std::alloc::Global;

fn fields_of(alloc: Global, decls: &[FieldDecl]) -> Result<Items<(Name, Sort)>, NoMemory>
    ensures fields { IfOk result (λ fields. fields ≡ map field_of decls.now) }
    ensures names { IfOk result (λ fields. AreNames (map (λ field. field.0) fields)) }
{
    let mut fields = Items::new(alloc);
    for decl in decls {
        let name = decl.name.name.to_name(alloc)?;
        fields.push((name, decl.sort))?;
    }
    Ok(fields)
}

fn kind_of(alloc: Global, message: &MessageDecl) -> Result<Kind, NoMemory>
    ensures kind { IfOk result (λ kind. kind ≡ kind_of message.now) }
    ensures name { IfOk result (λ kind. is_name kind.name ≡ true) }
    ensures names { IfOk result (λ kind. AreNames (field_names kind)) }
{
    Ok(Kind {
        name: message.name.name.to_name(alloc)?,
        fields: fields_of(alloc, message.fields.as_slice())?,
    })
}

pub(crate) fn kinds_of(alloc: Global, messages: &[MessageDecl]) -> Result<Items<Kind>, NoMemory>
    ensures kinds { IfOk result (λ kinds. kinds ≡ map kind_of messages.now) }
    ensures names { IfOk result (λ kinds. AreNames (kind_names kinds)) }
    ensures fields { IfOk result (λ kinds. AllByRecursion (λ kind. AreNames (field_names kind)) kinds) }
{
    let mut kinds = Items::new(alloc);
    for message in messages {
        let kind = kind_of(alloc, message)?;
        kinds.push(kind)?;
    }
    Ok(kinds)
}

fn patterns_of(
    alloc: Global,
    script: &Script,
    decls: &[PatternDecl],
) -> Result<Items<u32>, NoMemory>
    ensures { IfOk result (λ patterns. patterns ≡ map (pattern_of (outline_tree script.now.outline.now)) decls.now) }
{
    let mut patterns = Items::new(alloc);
    for decl in decls {
        patterns.push(script.kind_number(decl.kind.name.bytes()))?;
    }
    Ok(patterns)
}

fn variable_of(alloc: Global, name: &Option<ScriptName>) -> Result<Option<Name>, NoMemory>
    ensures { IfOk result (λ variable. variable ≡ name.now) }
{
    match name {
        None => Ok(None),
        Some(name) => Ok(Some(name.to_name(alloc)?)),
    }
}

fn names_in(alloc: Global, pattern: &PatternDecl) -> Result<Items<Option<Name>>, NoMemory>
    ensures { IfOk result (λ names. names ≡ names_in pattern.now) }
{
    let mut names = Items::new(alloc);
    for (_, name) in pattern.variables.as_slice() {
        let copied = variable_of(alloc, name)?;
        names.push(copied)?;
    }
    Ok(names)
}

fn all_names(
    alloc: Global,
    patterns: &[PatternDecl],
) -> Result<Items<Items<Option<Name>>>, NoMemory>
    ensures { IfOk result (λ names. names ≡ map names_in patterns.now) }
{
    let mut all = Items::new(alloc);
    for pattern in patterns {
        let names = names_in(alloc, pattern)?;
        all.push(names)?;
    }
    Ok(all)
}

fn window_of(window: Option<(u64, i64)>) -> Option<u32>
    requires { IsSmallWindow window }
    ensures { result ≡ window_of window }
{
    match window {
        None => None,
        Some((_, number)) => Some(number.unsigned_abs() as u32),
    }
}

fn definition_of(
    alloc: Global,
    script: &Script,
    variables: &Variables,
    rule: &RuleDecl,
) -> Result<Definition, NoMemory>
    requires { IsSmallRule rule.now }
    ensures { IfOk result (λ definition. definition ≡ definition_of (outline_tree script.now.outline.now) variables.now
        rule.now) }
{
    Ok(Definition {
        patterns: patterns_of(alloc, script, rule.patterns.as_slice())?,
        conjuncts: conjuncts_of(alloc, variables, &rule.guard)?,
        window: window_of(rule.window),
    })
}

fn rule_with(
    alloc: Global,
    script: &Script,
    variables: &Variables,
    rule: &RuleDecl,
) -> Result<Rule, NoMemory>
    requires { IsSmallRule rule.now }
    ensures { IfOk result (λ plan. plan ≡ rule_with (outline_tree script.now.outline.now) variables.now rule.now) }
{
    Ok(Rule {
        definition: definition_of(alloc, script, variables, rule)?,
        variables: all_names(alloc, rule.patterns.as_slice())?,
        body: body_of(alloc, script, variables, rule.body.as_slice())?,
    })
}

/// The rule of a definition whose sizes are small. Where the script has a fault, as a name that is not declared, the
/// rule has 0 in its place.
#[tactic(auto, unfolding(crate::specs::PlanOf::rule_of))]
pub(crate) fn rule_of(alloc: Global, script: &Script<'_>, rule: &RuleDecl) -> Result<Rule, NoMemory>
    requires { IsSmallRule rule.now }
    ensures { IfOk result (λ plan. plan ≡ rule_of (outline_tree script.now.outline.now) rule.now) }
{
    let variables = Variables::new(alloc, script, rule)?;
    rule_with(alloc, script, &variables, rule)
}
