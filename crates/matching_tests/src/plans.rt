use guard_eval::{ConjunctList, Leaf, Operand, Place, Signed, Term, WordsLeaf};
use join_base::{Items, Name, NoMemory, Text};
use pattern_core::Definition;
use script_types::{Item, Rule, Statement};
use std::alloc::Global;
use std::test::Fail;

const FIRST: Place = Place {
    pattern: 0,
    field: 0,
};

fn one(alloc: Global) -> Result<Term, NoMemory> {
    let mut leaves = Items::new(alloc);
    leaves.push(Signed {
        minus: false,
        leaf: Leaf::Number(1),
    })?;
    Ok(Term::new(leaves))
}

fn push_items(alloc: Global, items: &mut Items<Item>) -> Result<(), Fail> {
    items.push(Item::Words(WordsLeaf::Fixed(Text::from_bytes(alloc, b"hit ")?)))?;
    items.push(Item::Plain(FIRST))?;
    items.push(Item::Sum(one(alloc)?))?;
    Ok(())
}

fn print(alloc: Global) -> Result<Statement, Fail> {
    let mut items = Items::new(alloc);
    push_items(alloc, &mut items)?;
    Ok(Statement::Print(items))
}

fn push_operands(alloc: Global, operands: &mut Items<Operand>) -> Result<(), NoMemory> {
    operands.push(Operand::Sum(one(alloc)?))?;
    operands.push(Operand::Words(WordsLeaf::Field(FIRST)))
}

fn post(alloc: Global) -> Result<Statement, NoMemory> {
    let mut operands = Items::new(alloc);
    push_operands(alloc, &mut operands)?;
    Ok(Statement::Post {
        target: 1,
        kind: 2,
        operands,
    })
}

fn reply(alloc: Global) -> Result<Statement, NoMemory> {
    Ok(Statement::Reply {
        pattern: 0,
        operand: Operand::Sum(one(alloc)?),
    })
}

fn push_names(alloc: Global, row: &mut Items<Option<Name>>) -> Result<(), NoMemory> {
    row.push(Some(Name::from_bytes(alloc, b"x")?))?;
    row.push(None)
}

fn variables(alloc: Global) -> Result<Items<Items<Option<Name>>>, NoMemory> {
    let mut row = Items::new(alloc);
    push_names(alloc, &mut row)?;
    let mut rows = Items::new(alloc);
    rows.push(row)?;
    Ok(rows)
}

fn definition(alloc: Global) -> Result<Definition, NoMemory> {
    let mut patterns = Items::new(alloc);
    patterns.push(0)?;
    Ok(Definition {
        patterns,
        conjuncts: ConjunctList::new(alloc),
        window: Some(2),
    })
}

// A print, a post, a reply and a stop.
fn push_statements(alloc: Global, body: &mut Items<Statement>) -> Result<(), Fail> {
    body.push(print(alloc)?)?;
    body.push(post(alloc)?)?;
    body.push(reply(alloc)?)?;
    body.push(Statement::Stop)?;
    Ok(())
}

fn body(alloc: Global) -> Result<Items<Statement>, Fail> {
    let mut body = Items::new(alloc);
    push_statements(alloc, &mut body)?;
    Ok(body)
}

fn rule(alloc: Global) -> Result<Rule, Fail> {
    let definition = definition(alloc)?;
    let variables = variables(alloc)?;
    let body = body(alloc)?;
    Ok(Rule {
        definition,
        variables,
        body,
    })
}

fn is_rule_copied(alloc: Global) -> Result<bool, Fail> {
    let rule = rule(alloc)?;
    let copied = rule.copy(alloc)?;
    Ok(copied.body.len() == 4 && copied.variables.len() == 1)
}

#[test]
fn a_rule_is_copied_with_each_of_its_statements(rt: HostRuntime) -> Result<(), Fail> {
    assert!(rt; is_rule_copied(rt.alloc())?);
    Ok(())
}
