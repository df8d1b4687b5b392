//! The parts of a plan of integers.
ghost use Rattle.std.specs.Prelude.{◌≡◌, ◌≤◌, ◌∷◌, [], length, IfOk, Some, true};
ghost use Rattle.join_base.specs.Text.{is_name};
ghost use Rattle.join_base.specs.declared.message.Sort.TheVariants as sort;
ghost use Rattle.guard_eval.specs.Shape.{conjunct_condition};
ghost use Rattle.guard_eval.specs.declared.term.Operand.TheVariants as operand;
ghost use Rattle.building_load.specs.Building.{compared, minus, number, plus, within_a_minute};

use guard_eval::{Atom, Conjunct, Leaf, Operand, Place, Signed, Term};
use join_base::{Items, Name, NoMemory, Relation, Sort};
use std::alloc::Global;

pub fn one<T: Drop>(alloc: Global, only: T) -> Result<Items<T>, NoMemory>
    ensures { IfOk result (λ items. items ≡ only ∷ []) }
{
    let mut items = Items::new(alloc);
    items.push(only)?;
    Ok(items)
}

pub fn two<T: Drop>(alloc: Global, first: T, second: T) -> Result<Items<T>, NoMemory>
    ensures { IfOk result (λ items. items ≡ first ∷ second ∷ []) }
{
    let mut items = one(alloc, first)?;
    items.push(second)?;
    Ok(items)
}

pub fn three<T: Drop>(alloc: Global, first: T, second: T, third: T) -> Result<Items<T>, NoMemory>
    ensures { IfOk result (λ items. items ≡ first ∷ second ∷ third ∷ []) }
{
    let mut items = two(alloc, first, second)?;
    items.push(third)?;
    Ok(items)
}

/// An integer field.
pub fn field(alloc: Global, name: &[u8]) -> Result<(Name, Sort), NoMemory>
    requires is_name { is_name name.now ≡ true }
    ensures { IfOk result (λ field. field ≡ (name.now, sort.Int)) }
{
    Ok((Name::from_bytes(alloc, name)?, Sort::Int))
}

/// A variable.
pub fn variable(alloc: Global, name: &[u8]) -> Result<Option<Name>, NoMemory>
    requires is_name { is_name name.now ≡ true }
    ensures { IfOk result (λ variable. variable ≡ Some name.now) }
{
    Ok(Some(Name::from_bytes(alloc, name)?))
}

pub fn place_at(pattern: u32, field: u32) -> Place
    ensures { result ≡ record { pattern = pattern; field = field } }
{
    Place { pattern, field }
}

/// The field.
pub fn plus(place: Place) -> Signed
    ensures { result ≡ plus place }
{
    Signed {
        minus: false,
        leaf: Leaf::Field(place),
    }
}

/// The field, taken away.
pub fn minus(place: Place) -> Signed
    ensures { result ≡ minus place }
{
    Signed {
        minus: true,
        leaf: Leaf::Field(place),
    }
}

/// The number.
pub fn number(n: u8) -> Signed
    ensures { result ≡ number n }
{
    Signed {
        minus: false,
        leaf: Leaf::Number(i64::from(n)),
    }
}

/// The value of a field.
pub fn value_of(alloc: Global, place: Place) -> Result<Operand, NoMemory>
    ensures { IfOk result (λ value. value ≡ operand.Sum (plus place ∷ [])) }
{
    Ok(Operand::Sum(Term::new(one(alloc, plus(place))?)))
}

/// A conjunct that compares two sums.
pub fn compared(
    alloc: Global,
    left: Items<Signed>,
    relation: Relation,
    right: Items<Signed>,
) -> Result<Conjunct, NoMemory>
    requires left { (1 ≤ length left) × (length left ≤ 64) }
    requires right { (1 ≤ length right) × (length right ≤ 64) }
    ensures { IfOk result (λ conjunct. conjunct_condition conjunct ≡ compared left relation right) }
{
    let atom = Atom::Compare {
        left: Operand::Sum(Term::new(left)),
        relation,
        right: Operand::Sum(Term::new(right)),
    };
    let mut conjunct = Conjunct::new(alloc);
    conjunct.push(atom)?;
    Ok(conjunct)
}

/// That the one is at most 60 more than the other.
pub fn within_a_minute(alloc: Global, one_time: Place, other: Place) -> Result<Conjunct, NoMemory>
    ensures { IfOk result (λ conjunct. conjunct_condition conjunct ≡ within_a_minute one_time other) }
{
    let apart = two(alloc, plus(one_time), minus(other))?;
    let most = one(alloc, number(60))?;
    compared(alloc, apart, Relation::LessEqual, most)
}
