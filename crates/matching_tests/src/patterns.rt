ghost use Rattle.std.specs.Prelude.{◌≡◌, ◌-◌, ◌^◌, ◌<◌, ◌≤◌, ◌∷◌, [], IfOk, Some, None, false};
ghost use Rattle.guard_eval.specs.Condition.{Compares, Either, Never};

use crate::made::{equality, message};
use guard_eval::{ConjunctList, Leaf, Operand};
use join_base::{Items, MessageList, NoMemory, Relation, Slots, Steps, Value};
use pattern_core::{Definition, complete, oldest_seen, try_extend};
use std::alloc::Global;
use std::marker::Brand;
use std::sync::ledger::{Blank, Ledger};
use std::test::Fail;

// The definition of two kinds.
fn pair(alloc: Global, window: Option<u32>) -> Result<Definition, NoMemory>
    ensures patterns { IfOk result (λ d. d.patterns ≡ 0 ∷ 1 ∷ []) }
    ensures plain { IfOk result (λ d. d.conjuncts ≡ []) }
{
    let mut patterns = Items::new(alloc);
    patterns.push(0)?;
    patterns.push(1)?;
    let conjuncts = ConjunctList::new(alloc);
    Ok(Definition {
        patterns,
        conjuncts,
        window,
    })
}

// The definition of two kinds whose values are equal.
fn equal_pair(alloc: Global) -> Result<Definition, NoMemory>
    ensures patterns { IfOk result (λ d. d.patterns ≡ 0 ∷ 1 ∷ []) }
    ensures guard { IfOk result (λ d. d.conjuncts ≡ Either
        (Compares (Operand.Sum (record { minus = false; leaf = Leaf.Field (record { pattern = 0; field = 0 }) } ∷ []))
        Relation.Equal (Operand.Sum (record { minus = false; leaf = Leaf.Field (record { pattern = 1; field = 0 }) }
        ∷ []))) Never ∷ []) }
{
    let mut definition = pair(alloc, None)?;
    definition.conjuncts.push(equality(alloc)?)?;
    Ok(definition)
}

// Two messages of the first kind with two values, and one of the second kind with the second value.
fn three(alloc: Global, first: i64, second: i64) -> Result<MessageList, NoMemory>
    ensures { IfOk result (λ l. l ≡ record { kind = 0; fields = Value.Int first ∷ [] }
        ∷ record { kind = 0; fields = Value.Int second ∷ [] } ∷ record {
          kind = 1;
          fields = Value.Int second
              ∷ [];
        } ∷ []) }
{
    let mut messages = Items::new(alloc);
    messages.push(message(alloc, 0, first)?)?;
    messages.push(message(alloc, 0, second)?)?;
    messages.push(message(alloc, 1, second)?)?;
    Ok(messages)
}

// Whether the second pattern may take the third message beside this one of the first two.
fn joins<L: Ledger>(alloc: Global, front: u32, blank: Blank) -> Result<bool, NoMemory>
    requires some { 1 ≤ front }
    requires few { front < 3 }
    requires name { blank.name ≡ L.name }
    requires parts { blank.parts ≡ L.parts }
    requires owned { 0 < L.parts }
{
    let mut steps = Steps::<L>::new(blank);
    let definition = equal_pair(alloc)?;
    let messages = three(alloc, 1, 2)?;
    let mut slots = Slots::new(2);
    slots.fill(0, front);
    Ok(try_extend(&definition, &slots, 1, 3, messages.as_slice(), &mut steps))
}

#[test]
fn a_pattern_takes_a_message_where_the_guard_is_true(rt: HostRuntime) -> Result<(), Fail> {
    let first = joins::<Brand>(rt.alloc(), 1, Blank::new(1))?;
    let second = joins::<Brand>(rt.alloc(), 2, Blank::new(1))?;
    assert!(rt; !first && second);
    Ok(())
}

// Whether two messages whose values are equal are a complete match, and one of them is none.
fn is_complete_with_both(alloc: Global) -> Result<bool, NoMemory> {
    let definition = equal_pair(alloc)?;
    let messages = three(alloc, 1, 2)?;
    let mut slots = Slots::new(2);
    slots.fill(0, 2);
    let one = complete(&definition, &slots, messages.as_slice());
    slots.fill(1, 3);
    Ok(!one && complete(&definition, &slots, messages.as_slice()))
}

#[test]
fn a_match_is_complete_where_no_pattern_is_empty(rt: HostRuntime) -> Result<(), Fail> {
    assert!(rt; is_complete_with_both(rt.alloc())?);
    Ok(())
}

// The oldest arrival that a definition with the window sees.
fn oldest(alloc: Global, window: Option<u32>, recorded: u32) -> Result<u32, NoMemory>
    requires few { recorded < 2 ^ 32 - 1 }
{
    let definition = pair(alloc, window)?;
    Ok(oldest_seen(&definition, recorded))
}

#[test]
fn a_definition_sees_the_latest_messages(rt: HostRuntime) -> Result<(), Fail> {
    let alloc = rt.alloc();
    let all = oldest(alloc, None, 7)? == 1
        && oldest(alloc, Some(1), 7)? == 7
        && oldest(alloc, Some(3), 7)? == 5
        && oldest(alloc, Some(7), 7)? == 1
        && oldest(alloc, Some(8), 7)? == 1
        && oldest(alloc, Some(1000000), 4294967294)? == 4293967295;
    assert!(rt; all);
    Ok(())
}
