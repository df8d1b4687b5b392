//! Bounding conjuncts, and the interval that they leave of an integer place.
ghost use Rattle.std.specs.Prelude.{◌≡◌, ◌+ℤ◌, ◌-ℤ◌, pos, None, Some, MatchOption};
ghost use Rattle.join_base.specs.declared.message.Relation.TheVariants.{LessEqual, GreaterEqual};
ghost use Rattle.guard_eval.specs.Meaning.{has_some, term_needs};
ghost use Rattle.guard_eval.specs.Shape.{atom_condition, conjunct_condition};
ghost use Rattle.script_lint.specs.Bounds.{bound_between, bound_by, bound_of, bound_of_atom, cut, cut_by, fixed_sum, holds_throughout, interval_of, is_empty, lone_field, only_atom, over, under, whole};

use guard_eval::{Atom, Conjunct, ConjunctList, Leaf, Operand, Place, Signed, Term, sum, turned};
use join_base::{Message, Numbers, Relation, Slots};

/// A field that is compared with a number.
#[derive(Clone, Copy)]
pub struct Bound {
    pub place: Place,
    pub relation: Relation,
    pub number: i128,
}

/// The integers above one number and below another.
#[derive(Clone, Copy)]
pub struct Interval {
    pub above: i128,
    pub below: i128,
}

/// The atom of a conjunct that has just one.
pub fn only_atom(conjunct: &Conjunct) -> Option<&Atom>
    ensures { MatchOption result (only_atom (conjunct_condition conjunct.now) ≡ None)
        (λ atom. only_atom (conjunct_condition conjunct.now) ≡ Some (atom_condition atom.now)) }
{
    if conjunct.atoms.len() == 1 {
        Some(&conjunct.atoms[0])
    } else {
        None
    }
}

// The field of a sum that is a single field without a minus.
fn lone_field(leaves: &[Signed]) -> Option<Place>
    ensures { result ≡ lone_field leaves.now }
{
    match leaves {
        [signed] => match signed.leaf {
            Leaf::Field(place) if !signed.minus => Some(place),
            _ => None,
        },
        _ => None,
    }
}

pub fn has_field(leaves: &[Signed]) -> bool
    ensures { result ≡ has_some (term_needs leaves.now) }
{
    for signed in leaves {
        if matches!(signed.leaf, Leaf::Field(_)) {
            return true;
        }
    }
    false
}

// The value of a sum of numbers alone.
fn fixed_sum(term: &Term) -> Option<i128>
    ensures { result ≡ fixed_sum term.now }
{
    if has_field(term.leaves()) {
        return None;
    }
    let none: &[Message] = &[];
    Some(sum(term, &Slots::of(&Numbers::new()), none))
}

fn bound_by(place: Option<Place>, relation: Relation, number: Option<i128>) -> Option<Bound>
    ensures { result ≡ bound_by place relation number }
{
    match (place, number) {
        (Some(place), Some(number)) => Some(Bound {
            place,
            relation,
            number,
        }),
        _ => None,
    }
}

fn bound_between(left: &Term, relation: Relation, right: &Term) -> Option<Bound>
    ensures { result ≡ bound_between left.now relation right.now }
{
    if relation == Relation::NotEqual {
        return None;
    }
    match bound_by(lone_field(left.leaves()), relation, fixed_sum(right)) {
        Some(bound) => Some(bound),
        None => bound_by(
            lone_field(right.leaves()),
            turned(relation),
            fixed_sum(left),
        ),
    }
}

fn bound_of_atom(atom: &Atom) -> Option<Bound>
    ensures { result ≡ bound_of_atom (atom_condition atom.now) }
{
    match atom {
        Atom::Compare {
            left: Operand::Sum(left),
            relation,
            right: Operand::Sum(right),
        } => bound_between(left, *relation, right),
        _ => None,
    }
}

/// The bound of a bounding conjunct.
pub fn bound_of(conjunct: &Conjunct) -> Option<Bound>
    ensures { result ≡ bound_of (conjunct_condition conjunct.now) }
{
    match only_atom(conjunct) {
        Some(atom) => bound_of_atom(atom),
        None => None,
    }
}

impl Interval {
    // The integers of 64 bits.
    fn whole() -> Interval
        ensures { result ≡ whole }
    {
        Interval {
            above: i64::MIN as i128 - 1,
            below: i64::MAX as i128 + 1,
        }
    }

    fn under(self, number: i128) -> Interval
        ensures { result ≡ under number self }
    {
        Interval {
            above: self.above,
            below: if number < self.below {
                number
            } else {
                self.below
            },
        }
    }

    // Those below the number, and the number.
    fn up_to(self, number: i128) -> Interval
        ensures { result ≡ under (number +ℤ pos 1) self }
    {
        Interval {
            above: self.above,
            below: if number < self.below {
                number + 1
            } else {
                self.below
            },
        }
    }

    fn over(self, number: i128) -> Interval
        ensures { result ≡ over number self }
    {
        Interval {
            above: if self.above < number {
                number
            } else {
                self.above
            },
            below: self.below,
        }
    }

    // The number, and those above it.
    fn down_to(self, number: i128) -> Interval
        ensures { result ≡ over (number -ℤ pos 1) self }
    {
        Interval {
            above: if self.above < number {
                number - 1
            } else {
                self.above
            },
            below: self.below,
        }
    }

    fn cut(self, relation: Relation, number: i128) -> Interval
        ensures { result ≡ cut relation number self }
    {
        match relation {
            Relation::Equal => self.up_to(number).down_to(number),
            Relation::NotEqual => self,
            Relation::Less => self.under(number),
            Relation::LessEqual => self.up_to(number),
            Relation::Greater => self.over(number),
            Relation::GreaterEqual => self.down_to(number),
        }
    }

    // Cut by a bound, if it is one on this place.
    fn cut_by(self, place: Place, bound: Option<Bound>) -> Interval
        ensures { result ≡ cut_by place self bound }
    {
        match bound {
            Some(bound) if bound.place == place => self.cut(bound.relation, bound.number),
            _ => self,
        }
    }

    pub fn is_empty(self) -> bool
        ensures { result ≡ is_empty self }
    {
        self.below <= self.above || self.above + 1 == self.below
    }

    // Whether each integer below the upper end is at most the number.
    fn ends_by(self, number: i128) -> bool
        ensures { result ≡ holds_throughout self LessEqual number }
    {
        self.below <= number || number + 1 == self.below
    }

    // Whether each integer above the lower end is at least the number.
    fn begins_by(self, number: i128) -> bool
        ensures { result ≡ holds_throughout self GreaterEqual number }
    {
        number <= self.above || number - 1 == self.above
    }

    /// Whether each integer of the interval, which is not empty, has the relation to the number.
    pub fn holds_throughout(self, relation: Relation, number: i128) -> bool
        ensures { result ≡ holds_throughout self relation number }
    {
        match relation {
            Relation::Equal => self.ends_by(number) && self.begins_by(number),
            Relation::NotEqual => false,
            Relation::Less => self.below <= number,
            Relation::LessEqual => self.ends_by(number),
            Relation::Greater => number <= self.above,
            Relation::GreaterEqual => self.begins_by(number),
        }
    }
}

/// The interval of a place: the integers of 64 bits, cut by all bounding conjuncts on it.
pub fn interval_of(conjuncts: &ConjunctList, place: Place) -> Interval
    ensures { result ≡ interval_of conjuncts.now place }
{
    let mut interval = Interval::whole();
    for conjunct in conjuncts.as_slice() {
        interval = interval.cut_by(place, bound_of(conjunct));
    }
    interval
}
