//! Operands, conjuncts and messages for the tests.
ghost use Rattle.std.specs.Prelude.{◌≡◌, ◌∷◌, [], IfOk, false, true, pos};
ghost use Rattle.guard_eval.specs.Condition.{Compares, Either, Never};
ghost use Rattle.guard_eval.specs.Shape.{conjunct_condition};

use guard_eval::{Atom, Conjunct, Leaf, Operand, Place, Signed, Term};
use join_base::{Fields, Items, Message, NoMemory, Relation, Text, Value};
use std::alloc::Global;
use std::test::Fail;

// The sum of one leaf.
fn sum_of(alloc: Global, leaf: Leaf) -> Result<Operand, NoMemory>
    ensures { IfOk result (λ o. o ≡ Operand.Sum (record { minus = false; leaf = leaf } ∷ [])) }
{
    let mut leaves = Items::new(alloc);
    leaves.push(Signed { minus: false, leaf })?;
    Ok(Operand::Sum(Term::new(leaves)))
}

/// The variable of a pattern's first field.
pub fn variable(alloc: Global, pattern: u32) -> Result<Operand, NoMemory>
    ensures { IfOk result (λ o. o ≡ Operand.Sum (record {
      minus = false;
      leaf = Leaf.Field
          (record { pattern = pattern; field = 0 });
    } ∷ [])) }
{
    sum_of(alloc, Leaf::Field(Place { pattern, field: 0 }))
}

pub fn number(alloc: Global, value: i64) -> Result<Operand, NoMemory>
    ensures { IfOk result (λ o. o ≡ Operand.Sum (record { minus = false; leaf = Leaf.Number value } ∷ [])) }
{
    sum_of(alloc, Leaf::Number(value))
}

/// The conjunct of one comparison.
pub fn comparison(
    alloc: Global,
    left: Operand,
    relation: Relation,
    right: Operand,
) -> Result<Conjunct, NoMemory>
    ensures { IfOk result (λ c. conjunct_condition c ≡ Either (Compares left relation right) Never) }
{
    let mut conjunct = Conjunct::new(alloc);
    conjunct.push(Atom::Compare {
        left,
        relation,
        right,
    })?;
    Ok(conjunct)
}

/// x == y, of two patterns.
pub fn equality(alloc: Global) -> Result<Conjunct, NoMemory>
    ensures { IfOk result (λ c. conjunct_condition c ≡ Either
        (Compares (Operand.Sum (record { minus = false; leaf = Leaf.Field (record { pattern = 0; field = 0 }) } ∷ []))
        Relation.Equal (Operand.Sum (record { minus = false; leaf = Leaf.Field (record { pattern = 1; field = 0 }) }
        ∷ []))) Never) }
{
    let left = variable(alloc, 0)?;
    let right = variable(alloc, 1)?;
    comparison(alloc, left, Relation::Equal, right)
}

/// The first field of a pattern without that of another.
fn difference(alloc: Global, left: u32, right: u32) -> Result<Operand, NoMemory>
    ensures { IfOk result (λ o. o ≡ Operand.Sum (record {
      minus = false;
      leaf = Leaf.Field (record { pattern = left; field = 0 });
    } ∷ record {
      minus = true;
      leaf = Leaf.Field (record { pattern = right; field = 0 });
    } ∷ [])) }
{
    let mut leaves = Items::new(alloc);
    let first = Leaf::Field(Place {
        pattern: left,
        field: 0,
    });
    let second = Leaf::Field(Place {
        pattern: right,
        field: 0,
    });
    leaves.push(Signed {
        minus: false,
        leaf: first,
    })?;
    leaves.push(Signed {
        minus: true,
        leaf: second,
    })?;
    Ok(Operand::Sum(Term::new(leaves)))
}

/// x - y <= 2, of the first fields of two patterns.
pub fn near(alloc: Global, left: u32, right: u32) -> Result<Conjunct, NoMemory>
    ensures { IfOk result (λ c. conjunct_condition c ≡ Either (Compares (Operand.Sum (record {
      minus = false;
      leaf = Leaf.Field (record { pattern = left; field = 0 });
    } ∷ record {
      minus = true;
      leaf = Leaf.Field (record { pattern = right; field = 0 });
    } ∷ [])) Relation.LessEqual (Operand.Sum (record { minus = false; leaf = Leaf.Number (pos 2) } ∷ []))) Never) }
{
    let apart = difference(alloc, left, right)?;
    let most = number(alloc, 2)?;
    comparison(alloc, apart, Relation::LessEqual, most)
}

/// x <= y, of two patterns.
pub fn order(alloc: Global) -> Result<Conjunct, NoMemory>
    ensures { IfOk result (λ c. conjunct_condition c ≡ Either
        (Compares (Operand.Sum (record { minus = false; leaf = Leaf.Field (record { pattern = 0; field = 0 }) } ∷ []))
        Relation.LessEqual (Operand.Sum (record { minus = false; leaf = Leaf.Field (record { pattern = 1; field = 0 }) }
        ∷ []))) Never) }
{
    let left = variable(alloc, 0)?;
    let right = variable(alloc, 1)?;
    comparison(alloc, left, Relation::LessEqual, right)
}

/// The message of a kind with its integer.
pub fn message(alloc: Global, kind: u32, value: i64) -> Result<Message, NoMemory>
    ensures { IfOk result (λ m. m ≡ record { kind = kind; fields = Value.Int value ∷ [] }) }
{
    let mut fields = Fields::new(alloc);
    match fields.push(Value::Int(value)) {
        Ok(()) => Ok(Message { kind, fields }),
        Err(_) => Err(NoMemory),
    }
}

/// The message of a kind with an integer and a text.
pub fn worded(alloc: Global, kind: u32, value: i64, text: &[u8]) -> Result<Message, Fail> {
    let mut fields = Fields::new(alloc);
    let text = Text::from_bytes(alloc, text)?;
    if fields.push(Value::Int(value)).is_err() || fields.push(Value::Words(text)).is_err() {
        return Err(Fail::from(NoMemory));
    }
    Ok(Message { kind, fields })
}
