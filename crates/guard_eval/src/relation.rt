//! How two integers stand to each other.
ghost use Rattle.std.specs.Prelude.{◌≡◌};
ghost use Rattle.guard_eval.specs.Meaning.{int_relation, turned};

use join_base::Relation;

/// Whether the left integer has the relation to the right one.
#[inline]
pub fn int_relation(relation: Relation, left: i128, right: i128) -> bool
    ensures { result ≡ int_relation relation left right }
{
    match relation {
        Relation::Equal => left == right,
        Relation::NotEqual => left != right,
        Relation::Less => left < right,
        Relation::LessEqual => left <= right,
        Relation::Greater => left > right,
        Relation::GreaterEqual => left >= right,
    }
}

/// The relation with its sides exchanged.
pub fn turned(relation: Relation) -> Relation
    ensures { result ≡ turned relation }
{
    match relation {
        Relation::Equal => Relation::Equal,
        Relation::NotEqual => Relation::NotEqual,
        Relation::Less => Relation::Greater,
        Relation::LessEqual => Relation::GreaterEqual,
        Relation::Greater => Relation::Less,
        Relation::GreaterEqual => Relation::LessEqual,
    }
}
