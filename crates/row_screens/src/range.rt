//! Looking the numbers of a row up by a range of values, where conjuncts bound an integer field of the row from below.
//! One that is bounded from above alone is not looked up: of times, which ascend with the numbers, nearly all that wait
//! are in such a range.
ghost use Rattle.std.specs.Prelude.{◌≡◌, ◌⊎◌, List, Some, true, slice_get, IfSome, IsSomeAnd};
ghost use Rattle.guard_bound.specs.declared.bound.Bound.{Bound as OneBound};
ghost use Rattle.pattern_core.specs.Members.{IsIn};
ghost use Rattle.row_screens.specs.Look.{FindsAt};
ghost use Rattle.row_screens.specs.Offering.{offered};
ghost use Rattle.row_screens.specs.Range.{AreEnds, Lie, is_greatest, is_least};
ghost use Rattle.tree_rows.specs.Routes.{with_number};
ghost use Rattle.row_screens.specs.Screen.{AreTests};

use crate::offer::Offer;
use crate::screen::Screen;
use guard_bound::{Bound, Bounds};
use join_base::{Relation, Slots};
use value_index::{IndexedField, Span, ValueRange};

/// The bounds of a field that leave out the most small values, and the most great ones.
#[derive(Clone, Copy, PartialEq, Eq, Debug)]
pub struct Ends {
    pub least: Option<Bound>,
    pub greatest: Option<Bound>,
}

// Whether what stands so to a value is at least that.
fn is_least(relation: Relation) -> bool
    ensures { result ≡ is_least relation }
{
    match relation {
        Relation::Equal => true,
        Relation::NotEqual => false,
        Relation::Less => false,
        Relation::LessEqual => false,
        Relation::Greater => true,
        Relation::GreaterEqual => true,
    }
}

// Whether what stands so to a value is at most that.
fn is_greatest(relation: Relation) -> bool
    ensures { result ≡ is_greatest relation }
{
    match relation {
        Relation::Equal => true,
        Relation::NotEqual => false,
        Relation::Less => true,
        Relation::LessEqual => true,
        Relation::Greater => false,
        Relation::GreaterEqual => false,
    }
}

// The bound, where it leaves out more small values than the one that was found.
fn higher(found: Option<Bound>, bound: Bound) -> Option<Bound>
    ensures { (result ≡ found) ⊎ ((result ≡ Some bound) × (is_least bound.relation ≡ true)) }
{
    if !is_least(bound.relation) {
        return found;
    }
    match found {
        None => Some(bound),
        Some(other) => {
            if other.value < bound.value {
                Some(bound)
            } else {
                found
            }
        }
    }
}

// The bound, where it leaves out more great values than the one that was found.
fn lower(found: Option<Bound>, bound: Bound) -> Option<Bound>
    ensures { (result ≡ found) ⊎ ((result ≡ Some bound) × (is_greatest bound.relation ≡ true)) }
{
    if !is_greatest(bound.relation) {
        return found;
    }
    match found {
        None => Some(bound),
        Some(other) => {
            if bound.value < other.value {
                Some(bound)
            } else {
                found
            }
        }
    }
}

// The ends with those of a further bound.
fn with_bound(ends: Ends, bound: Bound, field: u32) -> Ends
    ensures { (bounds : List OneBound) → IsIn bound bounds → AreEnds bounds field ends
        → AreEnds bounds field result }
{
    if bound.field != field {
        return ends;
    }
    Ends {
        least: higher(ends.least, bound),
        greatest: lower(ends.greatest, bound),
    }
}

// The ends of a field.
fn ends_of(bounds: &Bounds, field: u32) -> Ends
    ensures { AreEnds bounds.now field result }
{
    let mut ends = Ends {
        least: None,
        greatest: None,
    };
    for bound in bounds.as_slice() {
        ends = with_bound(ends, *bound, field);
    }
    ends
}

// The value of a bound, where it has 64 bits.
fn value_of(bound: Bound) -> Option<i64>
    ensures { IfSome result (λ value. value ≡ bound.value) }
{
    match i64::try_from(bound.value) {
        Ok(value) => Some(value),
        Err(_) => None,
    }
}

// The value of the greatest end, if there is one.
fn high_of(greatest: Option<Bound>) -> Option<i64>
    ensures { IfSome result (λ high. IsSomeAnd greatest (λ bound. high ≡ bound.value)) }
{
    let bound = greatest?;
    value_of(bound)
}

// The values that the bounds leave a field, at its place in the index, where they give it a least one. A value that a
// bound leaves out at an end of the span is left in.
fn span_of(bounds: &Bounds, field: u32, place: u32) -> Option<Span>
    ensures place { IfSome result (λ span. span.place ≡ place) }
    ensures lie { IfSome result (Lie bounds.now field) }
{
    let ends = ends_of(bounds, field);
    let least = ends.least?;
    let low = value_of(least)?;
    let high = high_of(ends.greatest);
    Some(Span { place, low, high })
}

// The field of the first bound that gives one a least value.
fn bounded_field(bounds: &Bounds) -> Option<u32> {
    for bound in bounds.as_slice() {
        if is_least(bound.relation) {
            return Some(bound.field);
        }
    }
    None
}

/// The numbers of a row of a kind that have a value of the range that the screen's bounds leave a field: where they
/// give one a least value, and the index knows the field and has few numbers in the range, which ascend with their
/// values.
pub fn by_range<'a>(
    offer: &Offer<'a>,
    slots: &Slots,
    pattern: u32,
    kind: u32,
    screen: &Screen,
) -> Option<ValueRange<'a>>
    requires kind { slice_get offer.now.definition.now.patterns pattern ≡ Some kind }
    requires tested { AreTests (offered offer.now) (with_number (with_number slots.now pattern offer.now.number)
        screen.now.other offer.now.number) pattern screen.now }
    ensures { IfSome result (FindsAt (offered offer.now) slots.now pattern screen.now.other 0) }
{
    let field = bounded_field(&screen.bounds)?;
    let place = offer.index.place_of(IndexedField {
        kind,
        field,
        words: false,
    })?;
    let span = span_of(&screen.bounds, field, place)?;
    offer.index.numbers_between(span)
}
