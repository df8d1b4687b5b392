//! Pairs of patterns that are tied by a chain of equalities.
ghost use Rattle.std.specs.Prelude.{◌≡◌, ◌++◌, [], ◌+◌, ◌<◌, ◌≤◌, length, OnOk, IfOk};
ghost use Rattle.std.specs.List.{cons_option};
ghost use Rattle.tied_patterns.specs.Equalities.{equalities_in};
ghost use Rattle.tied_patterns.specs.Names.{AreNames, have_one_name, is_between, is_direct, is_same_place, link_in, partner_in, renamed, renamed_by, sides_of, tied_at, tied_by, tied_from};
ghost use Rattle.tied_patterns.specs.Rows.{AreFound, IsFound};
ghost use Rattle.tied_patterns.specs.Tied.{AreTiedPairs};

use crate::equality::{Equality, equalities_in};
use guard_eval::Place;
use join_base::{Items, NoMemory};
use pattern_core::Definition;
use std::alloc::Global;

/// Two patterns that are tied through a third one: a variable of each, and one of the third pattern. Chains of
/// equalities lead from one to the other.
#[derive(Clone, Copy, PartialEq, Eq, Debug)]
pub struct Tied {
    pub left: Place,
    pub right: Place,
    pub link: Place,
}

fn is_same_place(a: Place, b: Place) -> bool
    ensures { result ≡ is_same_place a b }
{
    a.pattern == b.pattern && a.field == b.field
}

fn renamed(name: Equality, place: Place) -> Place
    ensures { result ≡ renamed name place }
{
    if is_same_place(name.left, place) {
        name.right
    } else {
        place
    }
}

// What a variable is called behind these names.
fn renamed_by(names: &[Equality], place: Place) -> Place
    ensures { result ≡ renamed_by names.now place }
{
    let mut called = place;
    for name in names {
        called = renamed(*name, called);
    }
    called
}

// Names by which variables are called the same exactly where a chain of equalities leads from one to the other: what
// the left side of an equality is called becomes what its right side is called.
#[tactic(auto, using(crate::proofs::NameLemmas::names_step))]
fn names_of(alloc: Global, equalities: &[Equality]) -> Result<Vec<Equality>, NoMemory>
    ensures { IfOk result (λ names. AreNames equalities.now names.items) }
{
    let mut names: Vec<Equality> = Vec::new(alloc);
    for equality in equalities {
        let left = renamed_by(names.as_slice(), equality.left);
        let right = renamed_by(names.as_slice(), equality.right);
        names.push(Equality { left, right })?;
    }
    Ok(names)
}

fn have_one_name(names: &[Equality], a: Place, b: Place) -> bool
    ensures { result ≡ have_one_name names.now a b }
{
    is_same_place(renamed_by(names, a), renamed_by(names, b))
}

fn is_between(first: usize, second: usize, equality: &Equality) -> bool
    ensures { result ≡ is_between first second equality.now }
{
    (equality.left.pattern as usize == first && equality.right.pattern as usize == second)
        || (equality.left.pattern as usize == second && equality.right.pattern as usize == first)
}

fn is_direct(equalities: &[Equality], first: usize, second: usize) -> bool
    ensures { result ≡ is_direct equalities.now first second }
{
    for equality in equalities {
        if is_between(first, second, equality) {
            return true;
        }
    }
    false
}

// The variables that equalities compare.
fn sides_of(alloc: Global, equalities: &[Equality]) -> Result<Vec<Place>, NoMemory>
    ensures { IfOk result (λ sides. sides.items ≡ sides_of equalities.now) }
{
    let mut sides = Vec::new(alloc);
    for equality in equalities {
        sides.push(equality.left)?;
        sides.push(equality.right)?;
    }
    Ok(sides)
}

fn partner_in(names: &[Equality], place: Place, pattern: usize, others: &[Place]) -> Option<Place>
    ensures { result ≡ partner_in names.now place pattern others.now }
{
    for other in others {
        if other.pattern as usize == pattern && have_one_name(names, place, *other) {
            return Some(*other);
        }
    }
    None
}

fn link_in(
    names: &[Equality],
    place: Place,
    first: usize,
    second: usize,
    others: &[Place],
) -> Option<Place>
    ensures { result ≡ link_in names.now place first second others.now }
{
    for other in others {
        if !(other.pattern as usize == first || other.pattern as usize == second)
            && have_one_name(names, place, *other)
        {
            return Some(*other);
        }
    }
    None
}

fn tied_by(left: Place, right: Option<Place>, link: Option<Place>) -> Option<Tied>
    ensures { result ≡ tied_by left right link }
{
    match (right, link) {
        (Some(right), Some(link)) => Some(Tied { left, right, link }),
        _ => None,
    }
}

// What ties a variable of the first pattern to the second one.
fn tied_at(
    names: &[Equality],
    sides: &[Place],
    first: usize,
    second: usize,
    place: Place,
) -> Option<Tied>
    ensures { result ≡ tied_at names.now sides.now first second place }
{
    if place.pattern as usize == first {
        tied_by(
            place,
            partner_in(names, place, second, sides),
            link_in(names, place, first, second, sides),
        )
    } else {
        None
    }
}

fn tied_from(
    names: &[Equality],
    sides: &[Place],
    first: usize,
    second: usize,
    places: &[Place],
) -> Option<Tied>
    ensures { result ≡ tied_from names.now sides.now first second places.now }
{
    for place in places {
        let found = tied_at(names, sides, first, second, *place);
        if found.is_some() {
            return found;
        }
    }
    None
}

// What ties two patterns that no equality ties directly, if a chain does.
#[tactic(auto, using(crate::proofs::FoundLemmas::found_direct, crate::proofs::FoundLemmas::found_by_names))]
fn tied_between(
    alloc: Global,
    equalities: &[Equality],
    first: usize,
    second: usize,
) -> Result<Option<Tied>, NoMemory>
    requires order { first < second }
    ensures found { IfOk result (IsFound equalities.now first second) }
{
    if is_direct(equalities, first, second) {
        return Ok(None);
    }
    let names = names_of(alloc, equalities)?;
    let sides = sides_of(alloc, equalities)?;
    Ok(tied_from(
        names.as_slice(),
        sides.as_slice(),
        first,
        second,
        sides.as_slice(),
    ))
}

fn push_some(pairs: &mut Items<Tied>, found: Option<Tied>) -> Result<(), NoMemory>
    ensures { OnOk result (pairs.new ≡ pairs.old ++ cons_option found []) }
{
    if let Some(tied) = found {
        pairs.push(tied)?;
    }
    Ok(())
}

// Appends the pairs of a pattern with those behind it.
#[tactic(auto, using(crate::proofs::RowLemmas::next_pair))]
fn push_row(
    alloc: Global,
    pairs: &mut Items<Tied>,
    equalities: &[Equality],
    first: usize,
    kinds: &[u32],
) -> Result<(), NoMemory>
    requires within { first + 1 ≤ length kinds.now }
    requires found { AreFound equalities.now (length kinds.now) first (first + 1) pairs.old }
    ensures found { OnOk result (AreFound equalities.now (length kinds.now) first (length kinds.now) pairs.new) }
{
    for second in first + 1..kinds.len() {
        let found = tied_between(alloc, equalities, first, second)?;
        push_some(pairs, found)?;
    }
    Ok(())
}

// The pairs of patterns of these kinds.
#[tactic(auto, using(crate::proofs::RowLemmas::none_found, crate::proofs::RowLemmas::next_row, crate::proofs::RowLemmas::all_found))]
fn pairs_of(alloc: Global, equalities: &[Equality], kinds: &[u32]) -> Result<Items<Tied>, NoMemory>
    ensures { IfOk result (AreTiedPairs equalities.now (length kinds.now)) }
{
    let mut pairs = Items::new(alloc);
    for first in 0..kinds.len() {
        push_row(alloc, &mut pairs, equalities, first, kinds)?;
    }
    Ok(pairs)
}

/// The pairs of patterns that a chain of `==` on variables ties, and no `==` directly; each once, in order, with the
/// two variables to compare.
pub fn tied_pairs(alloc: Global, definition: &Definition) -> Result<Items<Tied>, NoMemory>
    ensures { IfOk result (AreTiedPairs (equalities_in definition.now.conjuncts) (length definition.now.patterns)) }
{
    let equalities = equalities_in(alloc, &definition.conjuncts)?;
    pairs_of(alloc, equalities.as_slice(), definition.patterns.as_slice())
}
