//! The statements of a body.
ghost use Rattle.std.specs.Prelude.{◌≡◌, ◌≤◌, IfOk, map, unsigned_abs};
ghost use Rattle.std.specs.List.{AllByRecursion};
ghost use Rattle.script_plan.specs.PlanOf.{operand_of, pattern_number, print_item, statement_of};
ghost use Rattle.script_plan.specs.Planned.{outline_tree};
ghost use Rattle.script_plan.specs.Small.{IsSmallItem, IsSmallOperand, IsSmallStatement};

use crate::names::{Script, Variables};
use crate::term::{operand_of, term_of};
use guard_eval::{Operand, WordsLeaf};
use join_base::{Items, NoMemory, Sort};
use script_grammar::{ItemDecl, OperandDecl, StatementDecl};
use script_types::{Item, Statement};
use std::alloc::Global;

fn print_item(alloc: Global, variables: &Variables, decl: &ItemDecl) -> Result<Item, NoMemory>
    requires { IsSmallItem decl.now }
    ensures { IfOk result (λ item. item ≡ print_item variables.now decl.now) }
{
    match decl {
        ItemDecl::Fixed { words, .. } => Ok(Item::Words(WordsLeaf::Fixed(words.copy(alloc)?))),
        ItemDecl::Named(spelt) => {
            let name = spelt.name.bytes();
            let place = variables.place_of(name);
            match variables.sort_of(name) {
                Sort::Int => Ok(Item::Plain(place)),
                Sort::Words => Ok(Item::Words(WordsLeaf::Field(place))),
            }
        }
        ItemDecl::Sum { leaves, .. } => {
            Ok(Item::Sum(term_of(alloc, variables, leaves.as_slice())?))
        }
    }
}

fn print_items(
    alloc: Global,
    variables: &Variables,
    decls: &[ItemDecl],
) -> Result<Items<Item>, NoMemory>
    requires { AllByRecursion IsSmallItem decls.now }
    ensures { IfOk result (λ items. items ≡ map (print_item variables.now) decls.now) }
{
    let mut items = Items::new(alloc);
    for decl in decls {
        let item = print_item(alloc, variables, decl)?;
        items.push(item)?;
    }
    Ok(items)
}

fn operands_of(
    alloc: Global,
    variables: &Variables,
    decls: &[OperandDecl],
) -> Result<Items<Operand>, NoMemory>
    requires { AllByRecursion IsSmallOperand decls.now }
    ensures { IfOk result (λ operands. operands ≡ map (operand_of variables.now) decls.now) }
{
    let mut operands = Items::new(alloc);
    for decl in decls {
        let operand = operand_of(alloc, variables, decl)?;
        operands.push(operand)?;
    }
    Ok(operands)
}

// Patterns count from 1 in the text.
fn pattern_number(number: i64) -> u32
    requires small { unsigned_abs number ≤ 8 }
    ensures { result ≡ pattern_number number }
{
    number.unsigned_abs().saturating_sub(1) as u32
}

fn statement_of(
    alloc: Global,
    script: &Script,
    variables: &Variables,
    decl: &StatementDecl,
) -> Result<Statement, NoMemory>
    requires { IsSmallStatement decl.now }
    ensures { IfOk result (λ statement. statement ≡ statement_of (outline_tree script.now.outline.now) variables.now
        decl.now) }
{
    match decl {
        StatementDecl::Print { items, .. } => {
            let items = print_items(alloc, variables, items.as_slice())?;
            Ok(Statement::Print(items))
        }
        StatementDecl::Post {
            target,
            kind,
            operands,
            ..
        } => {
            let operands = operands_of(alloc, variables, operands.as_slice())?;
            Ok(Statement::Post {
                target: script.target_number(target.name.bytes()),
                kind: script.kind_number(kind.name.bytes()),
                operands,
            })
        }
        StatementDecl::Stop { .. } => Ok(Statement::Stop),
        StatementDecl::Reply {
            pattern,
            operand,
            ..
        } => {
            let operand = operand_of(alloc, variables, operand)?;
            Ok(Statement::Reply {
                pattern: pattern_number(*pattern),
                operand,
            })
        }
    }
}

pub(crate) fn body_of(
    alloc: Global,
    script: &Script,
    variables: &Variables,
    decls: &[StatementDecl],
) -> Result<Items<Statement>, NoMemory>
    requires { AllByRecursion IsSmallStatement decls.now }
    ensures { IfOk result (λ body. body ≡ map (statement_of (outline_tree script.now.outline.now) variables.now)
        decls.now) }
{
    let mut body = Items::new(alloc);
    for decl in decls {
        let statement = statement_of(alloc, script, variables, decl)?;
        body.push(statement)?;
    }
    Ok(body)
}
