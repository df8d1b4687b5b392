//! Making deques.
ghost use Rattle.std.specs.Prelude.{◌≡◌, ◌<◌, ◌≤◌, ◌++◌, ◌∷◌, [], All, IfOk, OnOk, length, map};
ghost use Rattle.crossbeam_deque.specs.Tasks.{Admits};
ghost use Rattle.steal_pool.specs.Passes.{own_deque, deques_in, thief_view, made_for};
ghost use Rattle.steal_pool.specs.Making.{IsNewPass, AreLinked, others_from};

use crate::pass::{StealPass, StealPassList};
use crate::thief::Thief;
use crate::view::DequeView;
use crossbeam_deque::Worker;
use crossbeam_deque::protocol::Protocol;
use join_base::{Items, NoMemory};
use std::alloc::Global;

// Passes for so many deques, which know of no other deque yet. A deque has room for a ticket of each actor before it
// grows.
fn lone_passes<P: Protocol<u32, DequeView>>(
    alloc: Global,
    workers: u32,
    actors: u32,
) -> Result<Vec<StealPass<P>>, NoMemory>
    requires few { actors ≤ 32 }
    requires begins { P.holds [] (P.first ∷ []) }
    ensures count { IfOk result (λ passes. length passes.items ≡ workers) }
    ensures actors { IfOk result (λ passes. All (λ p. made_for p ≡ actors) passes.items) }
    ensures new { IfOk result (λ passes. All (IsNewPass P.first P.guest) passes.items) }
{
    let mut passes = Vec::new(alloc);
    for _ in 0..workers {
        let own = Worker::fifo_as(alloc, actors as usize)?;
        passes.push(StealPass {
            own,
            others: Vec::new(alloc),
            actors,
            queue_first: false,
        })?;
    }
    Ok(passes)
}

// Adds what it takes to steal from the deques of these passes.
fn add_thieves<P: Protocol<u32, DequeView>>(
    thieves: &mut Vec<Thief<P>>,
    passes: &[StealPass<P>],
) -> Result<(), NoMemory>
    requires admits { Admits P.holds P.guest }
    requires new { All (λ t. thief_view t ≡ P.guest) thieves.old.items }
    ensures more { OnOk result (deques_in thieves.new.items ≡ deques_in thieves.old.items ++ map own_deque passes.now) }
    ensures new { OnOk result (All (λ t. thief_view t ≡ P.guest) thieves.new.items) }
{
    for other in passes {
        let stealer = other.own.stealer()?;
        let pass = stealer.pass();
        thieves.push(Thief { stealer, pass })?;
    }
    Ok(())
}

// What it takes to steal from all deques but this one, from the next number upwards.
fn thieves_of<P: Protocol<u32, DequeView>>(
    alloc: Global,
    passes: &[StealPass<P>],
    own: usize,
) -> Result<Vec<Thief<P>>, NoMemory>
    requires within { own < length passes.now }
    requires admits { Admits P.holds P.guest }
    ensures deques { IfOk result (λ thieves. deques_in thieves.items ≡ others_from own passes.now) }
    ensures new { IfOk result (λ thieves. All (λ t. thief_view t ≡ P.guest) thieves.items) }
{
    let mut thieves = Vec::new(alloc);
    let (before, _) = passes.split_at(own);
    let (_, behind) = passes.split_at(own + 1);
    add_thieves(&mut thieves, behind)?;
    add_thieves(&mut thieves, before)?;
    Ok(thieves)
}

/// Passes for up to 64 deques of tickets of up to 32 actors. Each owns an empty deque, and steals from each other one,
/// from the next number upwards. It did nothing yet.
///
/// They are made for a rule that holds of a deque with no ticket and no pass but that of its owner, and that admits
/// guests. Of `InOrder`, `begins` and `admits` of `proofs/RuleLemmas` show it. It does not wait.
pub fn deques<P: Protocol<u32, DequeView>>(
    alloc: Global,
    workers: u32,
    actors: u32,
) -> Result<StealPassList<P>, NoMemory>
    requires few_workers { workers ≤ 64 }
    requires few_actors { actors ≤ 32 }
    requires begins { P.holds [] (P.first ∷ []) }
    requires admits { Admits P.holds P.guest }
    ensures count { IfOk result (λ passes. length passes ≡ workers) }
    ensures actors { IfOk result (All (λ p. made_for p ≡ actors)) }
    ensures new { IfOk result (All (IsNewPass P.first P.guest)) }
    ensures linked { IfOk result AreLinked }
{
    let mut passes = lone_passes(alloc, workers, actors)?;
    for own in 0..passes.len() {
        let thieves = thieves_of(alloc, passes.as_slice(), own)?;
        passes[own].others = thieves;
    }
    Ok(Items::from_vec(passes))
}
