//! What the types of a plan say of its texts and numbers. These calls only tell it to their callers.
ghost use Rattle.std.specs.List.{AllByRecursion};
ghost use Rattle.fair_semantics.specs.Fits.{ItemFits, LeafFits, OperandFits, RuleFits, StatementFits, TermFits, WordsFit};

use guard_eval::{Leaf, Operand, Term, WordsLeaf};
use join_base::Items;
use script_types::{Item, Rule, Statement};

fn leaf_text(leaf: &WordsLeaf)
    ensures { WordsFit leaf.now }
{
    match leaf {
        WordsLeaf::Fixed(text) => {
            let _ = text.bytes();
        }
        WordsLeaf::Field(_) => {}
    }
}

fn leaf_number(leaf: Leaf)
    ensures { LeafFits leaf }
{
    match leaf {
        Leaf::Number(_) => {}
        Leaf::Field(_) => {}
    }
}

fn term_numbers(term: &Term)
    ensures { TermFits term.now }
{
    for signed in term.leaves() {
        leaf_number(signed.leaf);
    }
}

fn item_text(item: &Item)
    ensures { ItemFits item.now }
{
    match item {
        Item::Words(leaf) => leaf_text(leaf),
        Item::Plain(_) => {}
        Item::Sum(term) => term_numbers(term),
    }
}

fn operand_text(operand: &Operand)
    ensures { OperandFits operand.now }
{
    match operand {
        Operand::Sum(_) => {}
        Operand::Words(leaf) => leaf_text(leaf),
    }
}

fn item_texts(items: &Items<Item>)
    ensures { AllByRecursion ItemFits items.now }
{
    for item in items.as_slice() {
        item_text(item);
    }
}

fn operand_texts(operands: &Items<Operand>)
    ensures { AllByRecursion OperandFits operands.now }
{
    for operand in operands.as_slice() {
        operand_text(operand);
    }
}

fn statement_texts(statement: &Statement)
    ensures { StatementFits statement.now }
{
    match statement {
        Statement::Print(items) => item_texts(items),
        Statement::Post { operands, .. } => operand_texts(operands),
        Statement::Stop => {}
        Statement::Reply { operand, .. } => operand_text(operand),
    }
}

fn body_texts(body: &Items<Statement>)
    ensures { AllByRecursion StatementFits body.now }
{
    for statement in body.as_slice() {
        statement_texts(statement);
    }
}

/// Every fixed text of the rules is UTF-8 of at most 120 bytes, and every number in a printed sum is of 64 bits.
pub fn rule_texts(rules: &Items<Rule>)
    ensures { AllByRecursion RuleFits rules.now }
{
    for rule in rules.as_slice() {
        body_texts(&rule.body);
    }
}
