//! Definitions whose matches an earlier one takes first.
ghost use Rattle.std.specs.Prelude.{◌≡◌, ◌+◌, ◌<◌, ◌^◌, length};
ghost use Rattle.guard_eval.specs.Shape.{conjunct_condition};
ghost use Rattle.script_lint.specs.Bounds.{bound_of};
ghost use Rattle.script_lint.specs.Findings.{first_shadow, is_implied, is_kept_within, sees_as_much, shadows};
ghost use Rattle.script_lint.specs.Same.{is_same};
ghost use Rattle.std.specs.List.{list_all, list_any};

use crate::bounds::{bound_of, interval_of};
use crate::constant::is_always_true;
use crate::same::is_same;
use guard_eval::{Conjunct, ConjunctList};
use pattern_core::Definition;
use script_types::Rule;

// Whether the earlier window is none, or at least as large.
fn sees_as_much(earlier: Option<u32>, window: Option<u32>) -> bool
    ensures { result ≡ sees_as_much earlier window }
{
    match (earlier, window) {
        (None, _) => true,
        (Some(_), None) => false,
        (Some(earlier), Some(window)) => window <= earlier,
    }
}

// Whether an equal conjunct is among them.
fn has_same(conjuncts: &ConjunctList, conjunct: &Conjunct) -> bool
    ensures { result ≡ list_any (is_same (conjunct_condition conjunct.now)) conjuncts.now }
{
    for other in conjuncts.as_slice() {
        if is_same(conjunct, other) {
            return true;
        }
    }
    false
}

// Whether this is a bound that holds on the whole interval that the conjuncts leave.
fn is_kept_within(conjuncts: &ConjunctList, conjunct: &Conjunct) -> bool
    ensures { result ≡ is_kept_within conjuncts.now (bound_of (conjunct_condition conjunct.now)) }
{
    match bound_of(conjunct) {
        Some(bound) => {
            interval_of(conjuncts, bound.place).holds_throughout(bound.relation, bound.number)
        }
        None => false,
    }
}

// Whether this one is true wherever the conjuncts are.
fn is_implied(conjuncts: &ConjunctList, conjunct: &Conjunct) -> bool
    ensures { result ≡ is_implied conjuncts.now (conjunct_condition conjunct.now) }
{
    has_same(conjuncts, conjunct) || is_kept_within(conjuncts, conjunct) || is_always_true(conjunct)
}

fn are_implied(conjuncts: &ConjunctList, weaker: &ConjunctList) -> bool
    ensures { result ≡ list_all (is_implied conjuncts.now) weaker.now }
{
    for conjunct in weaker.as_slice() {
        if !is_implied(conjuncts, conjunct) {
            return false;
        }
    }
    true
}

fn shadows(earlier: &Definition, definition: &Definition) -> bool
    ensures { result ≡ shadows earlier.now definition.now }
{
    earlier.patterns.as_slice() == definition.patterns.as_slice()
        && sees_as_much(earlier.window, definition.window)
        && are_implied(&definition.conjuncts, &earlier.conjuncts)
}

/// The number, from 1, of the first of the earlier rules that takes each match of the definition first.
pub fn first_shadow(earlier: &[Rule], definition: &Definition) -> Option<u32>
    requires { length earlier.now + 1 < 2 ^ 32 }
    ensures { result ≡ first_shadow 1 earlier.now definition.now }
{
    for (place, rule) in earlier.iter().enumerate() {
        if shadows(&rule.definition, definition) {
            return Some(place as u32 + 1);
        }
    }
    None
}
