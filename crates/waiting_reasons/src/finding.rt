//! The fullest of some assignments, and the reason that rests on it.
ghost use Rattle.std.specs.Prelude.{◌≡◌, ◌≤◌, IfOk, IfSome, length};
ghost use Rattle.std.specs.List.{AllByRecursion};
ghost use Rattle.pattern_core.specs.Suits.{DefinitionSuits};
ghost use Rattle.waiting_reasons.specs.Inside.{HasPatterns, ReasonCounts, ReasonSuits};
ghost use Rattle.waiting_reasons.specs.Ways.{fuller, fullest, reason_of};

use crate::messages::{contains_number, seen_of};
use crate::reason::Reason;
use crate::slots::filled_count;
use crate::ways::ways_of;
use join_base::{Items, Message, NoMemory, Slots};
use pattern_core::Definition;
use std::alloc::Global;

// The fuller of two, and the first where they are equally full.
fn fuller(definition: &Definition, slots: Slots, best: Option<Slots>) -> Option<Slots>
    requires few { length definition.now.patterns ≤ 8 }
    requires count { HasPatterns definition.now slots }
    requires best { IfSome best (HasPatterns definition.now) }
    ensures fuller { result ≡ fuller slots best }
    ensures count { IfSome result (HasPatterns definition.now) }
{
    let patterns = definition.patterns.len() as u32;
    match best {
        None => Some(slots),
        Some(best) => {
            if filled_count(patterns, &slots) < filled_count(patterns, &best) {
                Some(best)
            } else {
                Some(slots)
            }
        }
    }
}

// The first of the fullest.
fn fullest(definition: &Definition, ways: Items<Slots>) -> Option<Slots>
    requires few { length definition.now.patterns ≤ 8 }
    requires all { AllByRecursion (HasPatterns definition.now) ways }
    ensures { result ≡ fullest ways }
{
    let mut rest = ways;
    let mut best = None;
    while let Some(slots) = rest.pop() {
        best = fuller(definition, slots, best);
    }
    best
}

/// Why the definition doesn't take a message, among the numbers that are left.
#[tactic(auto, using(crate::proofs::BestLemmas::reason_found, crate::proofs::BestLemmas::reason_passed))]
pub fn reason_of(
    alloc: Global,
    definition: &Definition,
    messages: &[Message],
    left: &[u32],
    number: u32,
) -> Result<Reason, NoMemory>
    requires definition { DefinitionSuits messages.now definition.now }
    ensures reason { IfOk result (λ r. r ≡ reason_of messages.now left.now definition.now number) }
    ensures suits { IfOk result (ReasonSuits messages.now definition.now.patterns) }
    ensures counts { IfOk result (ReasonCounts (length definition.now.patterns)) }
{
    let seen = seen_of(alloc, definition, messages.len(), left)?;
    if !contains_number(seen.as_slice(), number) {
        return Ok(Reason::Passed);
    }
    let ways = ways_of(alloc, definition, messages, seen.as_slice(), number)?;
    match fullest(definition, ways) {
        Some(slots) => Ok(Reason::Fullest(slots)),
        None => Ok(Reason::Misfits),
    }
}
