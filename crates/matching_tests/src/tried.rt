//! How often a message is tried, where a conjunct of the guard speaks of one message alone.
ghost use Rattle.std.specs.Prelude.{◌≡◌, ◌+◌, ◌++◌, ◌∷◌, [], ◌<◌, ◌≤◌, IfOk, OnOk, None};
ghost use Rattle.std.specs.List.{AllByRecursion};
ghost use Rattle.join_base.specs.declared.message.Value.{Value};
ghost use Rattle.guard_eval.specs.Shape.{conjunct_condition};
ghost use Rattle.matching_tests.specs.Samples.{HasAll};
ghost use Rattle.matching_tests.specs.Tried.{AreAmong, equality, kept, one, pair, row, variable};
ghost use Rattle.match_tree.specs.Tree.{empty_of, offer_to};
ghost use Rattle.row_screens.specs.Offering.{CanOffer};

use crate::made;
use crate::trees::{arrive, index_of};
use guard_eval::{Conjunct, ConjunctList};
use join_base::{Items, Message, MessageList, NoMemory, Relation, Steps};
use match_tree::MatchTree;
use pattern_core::Definition;
use std::alloc::Global;
use std::marker::Brand;
use std::sync::ledger::{Blank, Ledger};
use std::test::Fail;
use value_index::ValueIndex;

// x == 1, of the first pattern.
fn is_one(alloc: Global) -> Result<Conjunct, NoMemory>
    ensures { IfOk result (λ c. conjunct_condition c ≡ equality (variable 0) one) }
{
    let first = made::variable(alloc, 0)?;
    let one = made::number(alloc, 1)?;
    made::comparison(alloc, first, Relation::Equal, one)
}

fn conjuncts(alloc: Global) -> Result<ConjunctList, NoMemory>
    ensures { IfOk result (λ cs. cs ≡ pair.conjuncts) }
{
    let mut conjuncts = ConjunctList::new(alloc);
    conjuncts.push(is_one(alloc)?)?;
    conjuncts.push(made::equality(alloc)?)?;
    Ok(conjuncts)
}

fn pair(alloc: Global) -> Result<Definition, NoMemory>
    ensures { IfOk result (λ d. d ≡ pair) }
{
    let conjuncts = conjuncts(alloc)?;
    let mut patterns = Items::new(alloc);
    patterns.push(0)?;
    patterns.push(1)?;
    Ok(Definition {
        patterns,
        conjuncts,
        window: None,
    })
}

fn push(messages: &mut MessageList, alloc: Global, kind: u32, value: i64) -> Result<(), NoMemory>
    ensures { OnOk result (messages.new ≡ messages.old ++ record { kind = kind; fields = Value.Int value ∷ [] } ∷ []) }
{
    let message = made::message(alloc, kind, value)?;
    messages.push(message)
}

fn push_row(messages: &mut MessageList, alloc: Global) -> Result<(), NoMemory>
    requires empty { messages.old ≡ [] }
    ensures row { OnOk result (messages.new ≡ row) }
{
    push(messages, alloc, 0, 1)?;
    push(messages, alloc, 0, 2)?;
    push(messages, alloc, 0, 3)?;
    push(messages, alloc, 1, 7)
}

fn messages_of_row(alloc: Global) -> Result<MessageList, NoMemory>
    ensures { IfOk result (λ messages. messages ≡ row) }
{
    let mut messages = Items::new(alloc);
    push_row(&mut messages, alloc)?;
    Ok(messages)
}

// Brings the tree the first three messages of the row.
fn bring_three<L: Ledger>(
    tree: &mut MatchTree,
    messages: &[Message],
    index: &ValueIndex,
    steps: &mut Steps<L>,
) -> Result<(), NoMemory>
    requires opening { tree.old ≡ record { definition = pair; rule = 1; paths = empty_of pair ∷ []; reserve = None } }
    requires messages { messages.now ≡ row }
    requires indexed { HasAll index.now messages.now }
    ensures definition { OnOk result (tree.new.definition ≡ pair) }
    ensures settled { OnOk result (tree.new.reserve ≡ None) }
    ensures can { OnOk result (AllByRecursion (CanOffer (offer_to tree.new messages.now 4)) tree.new.paths) }
    ensures among { OnOk result (AreAmong tree.new.paths kept) }
{
    for number in 1..4 {
        arrive(tree, messages, index, number, steps)?;
    }
    Ok(())
}

// Offers the fourth message, which is tried twice: at the empty partial match, and at that of the first message.
fn offer_fourth<L: Ledger>(
    tree: &mut MatchTree,
    messages: &[Message],
    index: &ValueIndex,
    steps: &mut Steps<L>,
) -> Result<(), NoMemory>
    requires definition { tree.old.definition ≡ pair }
    requires settled { tree.old.reserve ≡ None }
    requires messages { messages.now ≡ row }
    requires indexed { HasAll index.now messages.now }
    requires can { AllByRecursion (CanOffer (offer_to tree.old messages.now 4)) tree.old.paths }
    requires among { AreAmong tree.old.paths kept }
    ensures twice { steps.new ≤ steps.old + 2 }
{
    // That none stands twice is told here.
    let _ = tree.partials();
    tree.reserve_for(messages, index, 4, steps)
}

// How many partial matches the tree keeps of the first three messages. The fourth is offered then.
fn kept_of_three<L: Ledger>(alloc: Global, blank: Blank) -> Result<u64, NoMemory>
    requires name { blank.name ≡ L.name }
    requires parts { blank.parts ≡ L.parts }
    requires owned { 0 < L.parts }
{
    let mut steps = Steps::<L>::new(blank);
    let definition = pair(alloc)?;
    let messages = messages_of_row(alloc)?;
    let shown = messages.as_slice();
    let index = index_of(alloc, shown)?;
    let mut tree = MatchTree::new(alloc, &definition, 1)?;
    bring_three(&mut tree, shown, &index, &mut steps)?;
    let kept = tree.partials();
    offer_fourth(&mut tree, shown, &index, &mut steps)?;
    Ok(kept)
}

fn are_two_kept(alloc: Global) -> Result<bool, NoMemory> {
    Ok(kept_of_three::<Brand>(alloc, Blank::new(1))? == 2)
}

#[test]
fn a_message_is_tried_at_what_is_kept_alone(rt: HostRuntime) -> Result<(), Fail> {
    assert!(rt; are_two_kept(rt.alloc())?);
    Ok(())
}
