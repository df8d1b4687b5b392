//! Equal rules, which an actor keeps as its own.
ghost use Rattle.std.specs.Prelude.{◌≡◌, IfOk};

use crate::plan::{Item, Rule, Statement};
use guard_eval::Operand;
use join_base::{Items, Name, NoMemory};
use std::alloc::Global;

impl Item {
    /// An equal item. `NoMemory` where there is no memory for it.
    pub fn copy(&self, alloc: Global) -> Result<Item, NoMemory>
        ensures equal { IfOk result (λ i. i ≡ self.now) }
    {
        match self {
            Item::Words(words) => Ok(Item::Words(words.copy(alloc)?)),
            Item::Plain(place) => Ok(Item::Plain(*place)),
            Item::Sum(term) => Ok(Item::Sum(term.copy(alloc)?)),
        }
    }
}

fn copy_items(alloc: Global, items: &Items<Item>) -> Result<Items<Item>, NoMemory>
    ensures equal { IfOk result (λ i. i ≡ items.now) }
{
    let mut copied = Items::new(alloc);
    for item in items.as_slice() {
        let one = item.copy(alloc)?;
        copied.push(one)?;
    }
    Ok(copied)
}

fn copy_operands(alloc: Global, operands: &Items<Operand>) -> Result<Items<Operand>, NoMemory>
    ensures equal { IfOk result (λ o. o ≡ operands.now) }
{
    let mut copied = Items::new(alloc);
    for operand in operands.as_slice() {
        let one = operand.copy(alloc)?;
        copied.push(one)?;
    }
    Ok(copied)
}

impl Statement {
    /// An equal statement. `NoMemory` where there is no memory for it.
    pub fn copy(&self, alloc: Global) -> Result<Statement, NoMemory>
        ensures equal { IfOk result (λ s. s ≡ self.now) }
    {
        match self {
            Statement::Print(items) => Ok(Statement::Print(copy_items(alloc, items)?)),
            Statement::Post {
                target,
                kind,
                operands,
            } => Ok(Statement::Post {
                target: *target,
                kind: *kind,
                operands: copy_operands(alloc, operands)?,
            }),
            Statement::Stop => Ok(Statement::Stop),
            Statement::Reply { pattern, operand } => Ok(Statement::Reply {
                pattern: *pattern,
                operand: operand.copy(alloc)?,
            }),
        }
    }
}

fn copy_body(alloc: Global, body: &Items<Statement>) -> Result<Items<Statement>, NoMemory>
    ensures equal { IfOk result (λ b. b ≡ body.now) }
{
    let mut copied = Items::new(alloc);
    for statement in body.as_slice() {
        let one = statement.copy(alloc)?;
        copied.push(one)?;
    }
    Ok(copied)
}

/// An equal variable. `NoMemory` where there is no memory for it.
pub fn copy_variable(alloc: Global, variable: &Option<Name>) -> Result<Option<Name>, NoMemory>
    ensures equal { IfOk result (λ v. v ≡ variable.now) }
{
    match variable {
        Some(name) => Ok(Some(name.copy(alloc)?)),
        None => Ok(None),
    }
}

// The variables of one pattern.
fn copy_variables(
    alloc: Global,
    variables: &Items<Option<Name>>,
) -> Result<Items<Option<Name>>, NoMemory>
    ensures equal { IfOk result (λ v. v ≡ variables.now) }
{
    let mut copied = Items::new(alloc);
    for variable in variables.as_slice() {
        let one = copy_variable(alloc, variable)?;
        copied.push(one)?;
    }
    Ok(copied)
}

// The variables of each pattern.
fn copy_patterns(
    alloc: Global,
    patterns: &Items<Items<Option<Name>>>,
) -> Result<Items<Items<Option<Name>>>, NoMemory>
    ensures equal { IfOk result (λ p. p ≡ patterns.now) }
{
    let mut copied = Items::new(alloc);
    for variables in patterns.as_slice() {
        let one = copy_variables(alloc, variables)?;
        copied.push(one)?;
    }
    Ok(copied)
}

impl Rule {
    /// An equal rule. `NoMemory` where there is no memory for it.
    pub fn copy(&self, alloc: Global) -> Result<Rule, NoMemory>
        ensures equal { IfOk result (λ r. r ≡ self.now) }
    {
        Ok(Rule {
            definition: self.definition.copy(alloc)?,
            variables: copy_patterns(alloc, &self.variables)?,
            body: copy_body(alloc, &self.body)?,
        })
    }
}
