//! The reactions among arrivals, each with the rows that led to it.
ghost use Rattle.std.specs.Prelude.{◌≡◌, ◌++◌, [], IfOk, OnOk};
ghost use Rattle.std.specs.List.{cons_option};
ghost use Rattle.feed_causes.specs.Reactions.{AreReactions};
ghost use Rattle.feed_causes.specs.Search.{IsAt, IsFound, IsShort, origins_from};

use crate::arrivals::Arrival;
use crate::origins::origins_of;
use crate::rows::rows_of;
use crate::search::marks_of;
use crate::wanted::is_wanted;
use join_base::{Items, NoMemory};
use std::alloc::Global;

/// A reaction, and the rows that led to it. Each is named by its place among all arrivals.
#[derive(Drop)]
pub struct Reaction {
    /// The arrival whose firing printed or posted something.
    pub place: usize,
    /// The first nine rows that led to it, in order.
    pub first: Items<usize>,
    /// How many more led to it.
    pub more: usize,
}

// The reaction at a place, with the first nine of these rows.
#[tactic(auto, using(std::proofs::lemmas::List::take_min))]
fn shortened(alloc: Global, place: usize, rows: &[usize]) -> Result<Reaction, NoMemory>
    ensures short { IfOk result (IsShort place rows.now) }
{
    let most: usize = 9;
    let count = most.min(rows.len());
    let first = Vec::from_slice(alloc, rows.split_at(count).0)?;
    Ok(Reaction {
        place,
        first: Items::from_vec(first),
        more: rows.len() - count,
    })
}

// The reaction at a place.
fn reaction_at(
    alloc: Global,
    all: &[Arrival],
    origins: &[Option<usize>],
    place: usize,
) -> Result<Reaction, NoMemory>
    requires origins { origins.now ≡ origins_from all.now 0 all.now }
    ensures at { IfOk result (IsAt all.now place) }
{
    let marks = marks_of(alloc, all, origins, place)?;
    let seen = marks.as_slice();
    let rows = rows_of(alloc, all, seen)?;
    let shown = rows.as_slice();
    let reaction = shortened(alloc, place, shown)?;
    Ok(reaction)
}

// The reaction at the place of an arrival, if it is wanted.
fn reaction_if(
    alloc: Global,
    all: &[Arrival],
    origins: &[Option<usize>],
    only: Option<u32>,
    place: usize,
    arrival: &Arrival,
) -> Result<Option<Reaction>, NoMemory>
    requires origins { origins.now ≡ origins_from all.now 0 all.now }
    ensures found { IfOk result (IsFound all.now only place arrival.now) }
{
    if !is_wanted(only, arrival) {
        return Ok(None);
    }
    let reaction = reaction_at(alloc, all, origins, place)?;
    Ok(Some(reaction))
}

fn push_some(reactions: &mut Items<Reaction>, found: Option<Reaction>) -> Result<(), NoMemory>
    ensures { OnOk result (reactions.new ≡ reactions.old ++ cons_option found []) }
{
    if let Some(reaction) = found {
        reactions.push(reaction)?;
    }
    Ok(())
}

fn reactions_by(
    alloc: Global,
    all: &[Arrival],
    origins: &[Option<usize>],
    only: Option<u32>,
) -> Result<Items<Reaction>, NoMemory>
    requires origins { origins.now ≡ origins_from all.now 0 all.now }
    ensures reactions { IfOk result (AreReactions all.now only) }
{
    let mut reactions = Items::new(alloc);
    for (place, arrival) in all.iter().enumerate() {
        let found = reaction_if(alloc, all, origins, only, place, arrival)?;
        push_some(&mut reactions, found)?;
    }
    Ok(reactions)
}

/// The reactions among all arrivals of a run, in order: those of one actor, or of each where none is named. Each has
/// the rows that led to it.
pub fn reactions(
    alloc: Global,
    all: &[Arrival],
    only: Option<u32>,
) -> Result<Items<Reaction>, NoMemory>
    ensures reactions { IfOk result (AreReactions all.now only) }
{
    let origins = origins_of(alloc, all)?;
    reactions_by(alloc, all, origins.as_slice(), only)
}
