//! Calls over all trees of an actor.
ghost use Rattle.std.specs.Prelude.{◌≡◌, ◌+◌, ◌-◌, ◌^◌, ◌<◌, ◌≤◌, map, min, None, OnErr, OnOk};
ghost use Rattle.std.specs.List.{AllByRecursion};
ghost use Rattle.tree_law.specs.Trees.{AreKeptAt, AreSettled, CanOfferTo, HasOnce, HasPaths, HasReserve, IsReservedAt, best_of, cleared_tree, expired_tree, path_count, pruned_tree, settled_tree, tries_at};

use join_base::{Message, NoMemory, Numbers, Steps};
use match_tree::MatchTree;
use pattern_core::{Candidate, better};
use std::sync::ledger::Ledger;
use value_index::ValueIndex;

// Offers a number to the trees, until one finds no memory.
fn reserve_each<L: Ledger>(
    trees: &mut [MatchTree],
    messages: &[Message],
    index: &ValueIndex,
    number: u32,
    steps: &mut Steps<L>,
) -> Result<(), NoMemory>
    requires few { number < 2 ^ 32 - 1 }
    requires settled { AreSettled trees.old }
    requires can { AllByRecursion (CanOfferTo messages.now number) trees.old }
    requires indexed { AllByRecursion (HasPaths index.now messages.now) trees.old }

    ensures same { map settled_tree trees.new ≡ map settled_tree trees.old }
    ensures reserved { OnOk result (AllByRecursion (IsReservedAt messages.now number) trees.new) }
    ensures stepped { steps.new ≤ steps.old + tries_at messages.now number trees.old }
{
    for tree in trees.iter_mut() {
        tree.reserve_for(messages, index, number, steps)?;
    }
    Ok(())
}

/// Offers a number to all trees: each finds the least match that it completes, or sets aside what it adds. The index
/// has each number of the trees' paths. Where there is no memory, the trees are as they were. Nothing may be set aside
/// already.
pub fn reserve_all<L: Ledger>(
    trees: &mut [MatchTree],
    messages: &[Message],
    index: &ValueIndex,
    number: u32,
    steps: &mut Steps<L>,
) -> Result<(), NoMemory>
    requires few { number < 2 ^ 32 - 1 }
    requires settled { AreSettled trees.old }
    requires can { AllByRecursion (CanOfferTo messages.now number) trees.old }
    requires indexed { AllByRecursion (HasPaths index.now messages.now) trees.old }

    ensures same { map settled_tree trees.new ≡ trees.old }
    ensures reserved { OnOk result (AllByRecursion (IsReservedAt messages.now number) trees.new) }
    ensures unchanged { OnErr result (trees.new ≡ trees.old) }
    ensures stepped { steps.new ≤ steps.old + tries_at messages.now number trees.old }
{
    match reserve_each(trees, messages, index, number, steps) {
        Ok(()) => Ok(()),
        Err(refused) => {
            forget_all(trees);
            Err(refused)
        }
    }
}

/// The least of the matches that the reserves of the trees have found.
pub fn best_of(trees: &[MatchTree]) -> Option<Candidate>
    ensures { result ≡ best_of trees.now }
{
    let mut best = None;
    for tree in trees {
        let Some(found) = tree.best_with() else {
            continue;
        };
        best = better(best, Some(found));
    }
    best
}

/// Drops what the trees have set aside.
pub fn forget_all(trees: &mut [MatchTree])
    ensures { trees.new ≡ map settled_tree trees.old }
{
    for tree in trees.iter_mut() {
        tree.forget();
    }
}

/// The paths that take none of these numbers stay, and the others go. Each number of a path is before this one, and the
/// index has it. Nothing may be set aside.
pub fn prune_all(
    trees: &mut [MatchTree],
    messages: &[Message],
    index: &ValueIndex,
    number: u32,
    numbers: &Numbers,
)
    requires few { number < 2 ^ 32 - 1 }
    requires settled { AreSettled trees.old }
    requires can { AllByRecursion (CanOfferTo messages.now number) trees.old }
    requires indexed { AllByRecursion (HasPaths index.now messages.now) trees.old }

    ensures { trees.new ≡ map (pruned_tree numbers.now) trees.old }
{
    for tree in trees.iter_mut() {
        tree.prune(messages, index, number, numbers);
    }
}

/// Each tree keeps what its reserve for the number has set aside, and the paths that its definition still sees once the
/// number is recorded. No reserve may have found a match.
pub fn keep_all(trees: &mut [MatchTree], number: u32)
    requires few { number < 2 ^ 32 - 1 }
    requires reserved { AllByRecursion (HasReserve number) trees.old }
    requires none { best_of trees.old ≡ None }

    ensures kept { AreKeptAt number trees.old trees.new }
    ensures settled { AreSettled trees.new }
{
    for tree in trees.iter_mut() {
        tree.expire(number);
        tree.extend(number);
    }
}

/// The paths that are still seen once the number is recorded stay in each tree, and the others go. There is a reserve
/// for the number, which stays.
pub fn expire_all(trees: &mut [MatchTree], number: u32)
    requires few { number < 2 ^ 32 - 1 }
    requires reserved { AllByRecursion (HasReserve number) trees.old }

    ensures { trees.new ≡ map (expired_tree number) trees.old }
{
    for tree in trees.iter_mut() {
        tree.expire(number);
    }
}

/// The empty path alone is left in each tree.
pub fn clear_all(trees: &mut [MatchTree])
    ensures { trees.new ≡ map cleared_tree trees.old }
{
    for tree in trees.iter_mut() {
        tree.clear();
    }
}

/// The number of paths of all trees, up to the last 64-bit number. No path of a tree stands twice.
pub fn count_paths(trees: &[MatchTree]) -> u64
    ensures count { result ≡ min (path_count trees.now) (2 ^ 64 - 1) }
    ensures once { AllByRecursion HasOnce trees.now }
{
    let mut count: u64 = 0;
    for tree in trees {
        count = count.saturating_add(tree.partials());
    }
    count
}
