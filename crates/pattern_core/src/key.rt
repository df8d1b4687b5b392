//! The key of a match.
ghost use Rattle.std.specs.Prelude.{◌≡◌};
ghost use Rattle.pattern_core.specs.Choice.{lesser_of};
ghost use Rattle.pattern_core.specs.Key.{key_cmp};

use crate::candidate::Candidate;
use std::cmp::Ordering;

/// The order of the choice: by the ascending numbers, the definition, and the numbers in pattern order.
pub fn fair_cmp(left: &Candidate, right: &Candidate) -> Ordering
    ensures { result ≡ key_cmp left.now right.now }
{
    let first = left.taken.ascending();
    let second = right.taken.ascending();
    first
        .as_slice()
        .cmp(second.as_slice())
        .then(left.rule.cmp(&right.rule))
        .then(left.taken.as_slice().cmp(right.taken.as_slice()))
}

/// The lesser of two candidates by `fair_cmp`, the first where they tie. Where one is missing it is the other.
pub fn better(best: Option<Candidate>, found: Option<Candidate>) -> Option<Candidate>
    ensures { result ≡ lesser_of best found }
{
    match best {
        None => found,
        Some(old) => match found {
            None => Some(old),
            Some(new) => {
                if fair_cmp(&old, &new).is_le() {
                    Some(old)
                } else {
                    Some(new)
                }
            }
        },
    }
}
