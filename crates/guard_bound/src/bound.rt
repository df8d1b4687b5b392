//! Comparisons of sums, solved for one integer field: how that field compares with a value.
ghost use Rattle.std.specs.Prelude.{◌≡◌, ◌++◌, ◌∷◌, [], ◌<◌, length, IfSome, Some, None, neg_ℤ, ◌+ℤ◌, if◌then◌else◌};
ghost use Rattle.std.specs.List.{list_all};
ghost use Rattle.guard_eval.specs.Shape.{conjunct_condition};
ghost use Rattle.guard_bound.specs.Bound.{AddsLeaf, BoundsSplits, IsSplit, Says, int_at, meets};

use guard_eval::{Atom, Conjunct, Leaf, Operand, Signed, Term, int_relation, turned};
use join_base::{Message, Relation, ValueRef};
use std::marker::Model;

/// An integer field of a number's message stands so to the value.
#[derive(Clone, Copy, PartialEq, Eq, Debug)]
pub struct Bound {
    pub field: u32,
    pub relation: Relation,
    pub value: i128,
}

/// The one leaf of a sum that is a field of the pattern.
#[derive(Clone, Copy, PartialEq, Eq, Debug)]
pub struct Own {
    pub field: u32,
    pub minus: bool,
}

/// A sum as that of its known leaves, and the pattern's leaf if it has one.
#[derive(Clone, Copy, PartialEq, Eq, Debug)]
pub struct Split {
    pub known: i128,
    pub own: Option<Own>,
}

/// At most 4 bounds.
#[derive(Drop)]
pub struct Bounds {
    cells: [Bound; 4],
    count: usize,
}

impl Model for Bounds {
    ghost use Rattle.std.specs.Prelude.{List, take, ◌≤◌};
    ghost use Rattle.guard_bound.specs.declared.bound.Bound.{Bound as OneBound};

    ghost Value = { List OneBound };

    ghost view = { λ a. take a.count a.cells };

    ghost invariant = { λ a. a.count ≤ 4 };
}

impl Bounds {
    pub fn new() -> Bounds
        ensures empty { result ≡ [] }
    {
        let none = Bound {
            field: 0,
            relation: Relation::Equal,
            value: 0,
        };
        Bounds {
            cells: [none; 4],
            count: 0,
        }
    }

    pub fn len(&self) -> usize
        ensures count { result ≡ length self.now }
    {
        self.as_slice().len()
    }

    pub fn as_slice(&self) -> &[Bound]
        ensures same { result.now ≡ self.now }
    {
        &self.cells[..self.count]
    }

    pub fn push(&mut self, bound: Bound)
        requires few { length self.old < 4 }
        ensures appended { self.new ≡ self.old ++ bound ∷ [] }
    {
        self.cells[self.count] = bound;
        self.count += 1;
    }
}

/// The integer at a field of a recorded message, and 0 where there is none.
#[inline(always)]
pub fn int_at(messages: &[Message], number: u32, field: u32) -> i64
    ensures { result ≡ int_at messages.now number field }
{
    let Some(place) = number.checked_sub(1) else {
        return 0;
    };
    let Some(message) = messages.get(place as usize) else {
        return 0;
    };
    match message.fields.get(field as usize) {
        Some(ValueRef::Int(n)) => n,
        _ => 0,
    }
}

// The split with a known leaf more.
fn with_known(split: Split, minus: bool, value: i64) -> Option<Split>
    ensures own { IfSome result (λ longer. longer.own ≡ split.own) }
    ensures known { IfSome result (λ longer. longer.known ≡ split.known +ℤ (if minus then neg_ℤ value else value)) }
{
    let known = if minus {
        split.known.checked_sub(value as i128)?
    } else {
        split.known.checked_add(value as i128)?
    };
    Some(Split {
        known,
        own: split.own,
    })
}

// The split with a leaf more, where at most one is the pattern's and the others are known.
fn with_leaf(
    messages: &[Message],
    known: u32,
    pattern: u32,
    wanted: u32,
    split: Split,
    signed: Signed,
) -> Option<Split>
    ensures { IfSome result (AddsLeaf messages.now known pattern wanted split signed) }
{
    match signed.leaf {
        Leaf::Number(value) => with_known(split, signed.minus, value),
        Leaf::Field(place) => {
            if place.pattern == wanted {
                let value = int_at(messages, known, place.field);
                return with_known(split, signed.minus, value);
            }
            if place.pattern != pattern || split.own.is_some() {
                return None;
            }
            Some(Split {
                known: split.known,
                own: Some(Own {
                    field: place.field,
                    minus: signed.minus,
                }),
            })
        }
    }
}

// The known leaves of a sum and the pattern's, where it has no others.
fn split_of(
    messages: &[Message],
    known: u32,
    pattern: u32,
    wanted: u32,
    term: &Term,
) -> Option<Split>
    ensures { IfSome result (IsSplit messages.now known pattern wanted term.now) }
{
    let mut split = Split {
        known: 0,
        own: None,
    };
    for signed in term.leaves() {
        split = with_leaf(messages, known, pattern, wanted, split, *signed)?;
    }
    Some(split)
}

// How the pattern's field compares, where the sum that has its leaf stands so to the other one.
fn bound_beside(own: Own, left: Split, relation: Relation, right: Split) -> Option<Bound>
    requires has { left.own ≡ Some own }
    requires lacks { right.own ≡ None }
    ensures { IfSome result (BoundsSplits left relation right) }
{
    if own.minus {
        let value = left.known.checked_sub(right.known)?;
        return Some(Bound {
            field: own.field,
            relation: turned(relation),
            value,
        });
    }
    let value = right.known.checked_sub(left.known)?;
    Some(Bound {
        field: own.field,
        relation,
        value,
    })
}

// How the pattern's field compares, where the one sum stands so to the other.
fn solved(left: Split, relation: Relation, right: Split) -> Option<Bound>
    ensures { IfSome result (BoundsSplits left relation right) }
{
    match (left.own, right.own) {
        (Some(own), None) => bound_beside(own, left, relation, right),
        (None, Some(own)) => bound_beside(own, right, turned(relation), left),
        _ => None,
    }
}

/// How a field of the pattern's message compares by the conjunct, where that compares sums of integers, and of these
/// one is a field of the pattern and the others are constants or fields of the wanted pattern, which has the known
/// number. No bound where the conjunct is any other, or a sum leaves 128 bits.
pub fn bound_of(
    messages: &[Message],
    known: u32,
    pattern: u32,
    wanted: u32,
    conjunct: &Conjunct,
) -> Option<Bound>
    ensures { IfSome result (Says messages.now known pattern wanted (conjunct_condition conjunct.now)) }
{
    match conjunct.atoms.as_slice() {
        [
            Atom::Compare {
                left: Operand::Sum(left),
                relation,
                right: Operand::Sum(right),
            },
        ] => {
            let left = split_of(messages, known, pattern, wanted, left)?;
            let right = split_of(messages, known, pattern, wanted, right)?;
            solved(left, *relation, right)
        }
        _ => None,
    }
}

// Whether the number meets the bound.
fn meets(messages: &[Message], bound: Bound, number: u32) -> bool
    ensures { result ≡ meets messages.now bound number }
{
    int_relation(
        bound.relation,
        int_at(messages, number, bound.field) as i128,
        bound.value,
    )
}

/// Whether the number meets the bounds.
pub fn meets_all(messages: &[Message], bounds: &Bounds, number: u32) -> bool
    ensures { result ≡ list_all (λ bound. meets messages.now bound number) bounds.now }
{
    for bound in bounds.as_slice() {
        if !meets(messages, *bound, number) {
            return false;
        }
    }
    true
}
