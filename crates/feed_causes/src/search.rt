//! The search for what led to a firing.
ghost use Rattle.std.specs.Prelude.{◌≡◌, false, length, replicate, IfOk};
ghost use Rattle.feed_causes.specs.Search.{AreMarks, Looks, origins_from};

use crate::arrivals::Arrival;
use crate::origins::origin_in;
use crate::taken::{mark_led, mark_taken};
use join_base::{Items, NoMemory};
use std::alloc::Global;

// A mark for each arrival, of which none is set.
fn no_marks(alloc: Global, all: &[Arrival]) -> Result<Vec<bool>, NoMemory>
    ensures { IfOk result (λ marks. marks.items ≡ replicate (length all.now) false) }
{
    let marks = vec![in alloc; false; all.len()]?;
    Ok(marks)
}

// Looks at the last arrival that waits, and marks what the firing took that posted it. `false` where none waits.
fn look(
    marks: &mut Vec<bool>,
    waiting: &mut Items<usize>,
    all: &[Arrival],
    origins: &[Option<usize>],
) -> Result<bool, NoMemory>
    requires origins { origins.now ≡ origins_from all.now 0 all.now }
    ensures looks { IfOk result (Looks all.now marks.old.items waiting.old marks.new.items waiting.new) }
{
    let Some(last) = waiting.pop() else {
        return Ok(false);
    };
    mark_led(marks, waiting, all, origin_in(origins, last))?;
    Ok(true)
}

/// A mark for each arrival: whether it led to the firing at a place. The origins are those of all arrivals.
pub(crate) fn marks_of(
    alloc: Global,
    all: &[Arrival],
    origins: &[Option<usize>],
    place: usize,
) -> Result<Items<bool>, NoMemory>
    requires origins { origins.now ≡ origins_from all.now 0 all.now }
    ensures marks { IfOk result (AreMarks all.now place) }
{
    let mut marks = no_marks(alloc, all)?;
    let mut waiting = Items::new(alloc);
    mark_taken(&mut marks, &mut waiting, all, place)?;
    'looking: while look(&mut marks, &mut waiting, all, origins)? {}
    Ok(Items::from_vec(marks))
}
