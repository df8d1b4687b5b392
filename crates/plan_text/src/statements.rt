//! Statements as text.
ghost use Rattle.std.specs.Prelude.{◌≡◌, ◌++◌, OnOk, codes};
ghost use Rattle.std.specs.List.{flat_map, join_by};
ghost use Rattle.plan_text.specs.GuardText.{operand_text};
ghost use Rattle.plan_text.specs.PlanText.{item_text, statement_line, statement_text};

use crate::names::{Row, write_variable};
use crate::terms::{write_operand, write_term, write_words};
use guard_eval::Operand;
use join_base::{Bytes, NoMemory, write_number};
use script_types::{Item, Plan, Statement, write_actor_name, write_kind_name};

fn write_item(text: &mut Bytes, variables: &[Row], item: &Item) -> Result<(), NoMemory>
    ensures { OnOk result (text.new ≡ text.old ++ item_text variables.now item.now) }
{
    match item {
        Item::Words(words) => write_words(text, variables, words),
        Item::Plain(place) => write_variable(text, variables, *place),
        Item::Sum(term) => {
            text.push_all(b"(")?;
            write_term(text, variables, term)?;
            text.push_all(b")")
        }
    }
}

fn write_items(text: &mut Bytes, variables: &[Row], items: &[Item]) -> Result<(), NoMemory>
    ensures { OnOk result (text.new ≡ text.old ++ join_by (item_text variables.now) (codes " ") items.now) }
{
    match items {
        [] => Ok(()),
        [first, more @ ..] => {
            write_item(text, variables, first)?;
            for item in more {
                text.push_all(b" ")?;
                write_item(text, variables, item)?;
            }
            Ok(())
        }
    }
}

fn write_operands(text: &mut Bytes, variables: &[Row], operands: &[Operand]) -> Result<(), NoMemory>
    ensures { OnOk result (text.new ≡ text.old ++ join_by (operand_text variables.now) (codes ", ") operands.now) }
{
    match operands {
        [] => Ok(()),
        [first, more @ ..] => {
            write_operand(text, variables, first)?;
            for operand in more {
                text.push_all(b", ")?;
                write_operand(text, variables, operand)?;
            }
            Ok(())
        }
    }
}

fn write_statement(
    text: &mut Bytes,
    plan: &Plan,
    variables: &[Row],
    statement: &Statement,
) -> Result<(), NoMemory>
    ensures { OnOk result (text.new ≡ text.old ++ statement_text plan.now variables.now statement.now) }
{
    match statement {
        Statement::Print(items) => {
            text.push_all(b"print ")?;
            write_items(text, variables, items.as_slice())?;
            text.push_all(b";")
        }
        Statement::Post {
            target,
            kind,
            operands,
        } => {
            text.push_all(b"post ")?;
            write_actor_name(text, plan, *target)?;
            text.push_all(b" ")?;
            write_kind_name(text, plan, *kind)?;
            text.push_all(b"(")?;
            write_operands(text, variables, operands.as_slice())?;
            text.push_all(b");")
        }
        Statement::Stop => text.push_all(b"stop;"),
        Statement::Reply { pattern, operand } => {
            text.push_all(b"reply ")?;
            write_number(text, i128::from(*pattern) + 1)?;
            text.push_all(b" ")?;
            write_operand(text, variables, operand)?;
            text.push_all(b";")
        }
    }
}

// The lines of a body.
pub(crate) fn write_body(
    text: &mut Bytes,
    plan: &Plan,
    variables: &[Row],
    body: &[Statement],
) -> Result<(), NoMemory>
    ensures { OnOk result (text.new ≡ text.old ++ flat_map (statement_line plan.now variables.now) body.now) }
{
    for statement in body {
        text.push_all(b"    ")?;
        write_statement(text, plan, variables, statement)?;
        text.push_all(b"\n")?;
    }
    Ok(())
}
