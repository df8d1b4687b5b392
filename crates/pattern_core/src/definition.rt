//! A join definition without its body.
ghost use Rattle.std.specs.Prelude.{◌≡◌, IfOk};

use guard_eval::ConjunctList;
use join_base::{Items, NoMemory};
use std::alloc::Global;

/// The kinds that a definition joins, 1 to 8, and the conjuncts of its guard. Kinds are counted from 0.
/// With a window of n, from 1, it sees the latest n recorded messages alone.
#[derive(Drop)]
pub struct Definition {
    pub patterns: Items<u32>,
    pub conjuncts: ConjunctList,
    pub window: Option<u32>,
}

// An equal list of kinds.
fn copy_patterns(alloc: Global, patterns: &Items<u32>) -> Result<Items<u32>, NoMemory>
    ensures equal { IfOk result (λ p. p ≡ patterns.now) }
{
    let copied = patterns.as_slice().to_vec(alloc)?;
    Ok(Items::from_vec(copied))
}

impl Definition {
    /// An equal definition. `NoMemory` where there is no memory for it.
    pub fn copy(&self, alloc: Global) -> Result<Definition, NoMemory>
        ensures equal { IfOk result (λ d. d ≡ self.now) }
    {
        Ok(Definition {
            patterns: copy_patterns(alloc, &self.patterns)?,
            conjuncts: self.conjuncts.copy(alloc)?,
            window: self.window,
        })
    }
}
