//! Numbers with their values, in their order.
ghost use Rattle.std.specs.Prelude.{◌≡◌, ◌≢◌, OnOk};
ghost use Rattle.pattern_core.specs.Members.{IsIn};
ghost use Rattle.value_index.specs.declared.valued.Valued.{Valued as OneValued};
ghost use Rattle.value_index.specs.Columns.{valued};

use join_base::NoMemory;
use std::collections::BTreeSet;

/// A number whose message has the value at a field. They are ordered by their values, and then by their numbers, so
/// that those of a range of values stand next to each other.
#[derive(Clone, Copy, PartialEq, Eq, PartialOrd, Ord, Debug, Drop)]
pub(crate) struct Valued {
    pub value: i64,
    pub number: u32,
}

impl Valued {
    pub fn new(value: i64, number: u32) -> Valued
        ensures { result ≡ valued value number }
    {
        Valued { value, number }
    }
}

/// Adds a number with its value.
pub(crate) fn add_valued(all: &mut BTreeSet<Valued>, one: Valued) -> Result<(), NoMemory>
    ensures has { OnOk result (IsIn one all.new.keys) }
    ensures keeps { (v : OneValued) → IsIn v all.old.keys → IsIn v all.new.keys }
    ensures only { (v : OneValued) → v ≢ one → IsIn v all.new.keys → IsIn v all.old.keys }
{
    all.insert(one)?;
    Ok(())
}

/// Takes a number with its value out.
pub(crate) fn remove_valued(all: &mut BTreeSet<Valued>, one: Valued)
    ensures keeps { (v : OneValued) → v ≢ one → IsIn v all.old.keys → IsIn v all.new.keys }
    ensures adds_none { (v : OneValued) → IsIn v all.new.keys → IsIn v all.old.keys }
    ensures gone { ¬ IsIn one all.new.keys }
{
    all.remove(&one);
}
