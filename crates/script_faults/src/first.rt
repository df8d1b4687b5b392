//! The fault that is reported.
ghost use Rattle.std.specs.Prelude.{◌≡◌, ◌==◌, ◌+◌, IfOk, OnOk};
ghost use Rattle.script_faults.specs.First.{earlier, fault_if, first_of, is_before, rank, too_many};
ghost use Rattle.script_faults.specs.Numbered.{at_most};

use crate::placed::Placed;
use join_base::NoMemory;
use script_grammar::ScriptCause;

/// A place of the text at which a rule of names or types is broken, and which.
#[derive(Clone, Copy, PartialEq, Eq, Debug)]
pub struct Fault {
    pub place: u64,
    pub cause: ScriptCause,
}

// Where a cause stands among those of one place.
fn rank(cause: ScriptCause) -> u32
    ensures { result ≡ rank cause }
{
    match cause {
        ScriptCause::TooMany => 0,
        ScriptCause::TwiceDeclared => 1,
        ScriptCause::UnknownMessage => 2,
        ScriptCause::UnknownActor => 3,
        ScriptCause::UnknownName => 4,
        ScriptCause::WrongCount => 5,
        ScriptCause::WrongType => 6,
        ScriptCause::StopNotLast => 7,
        ScriptCause::BadWindow => 8,
        ScriptCause::BadReply => 9,
        ScriptCause::NotText => 10,
        ScriptCause::BadToken => 11,
        ScriptCause::BadSyntax => 12,
    }
}

// Whether a fault is reported in place of another.
fn is_before(new: Fault, first: Fault) -> bool
    ensures { result ≡ is_before new first }
{
    new.place < first.place || new.place == first.place && rank(new.cause) < rank(first.cause)
}

/// Notes a fault, where it comes before the one found so far.
pub(crate) fn note(found: &mut Option<Fault>, cause: ScriptCause, place: u64)
    ensures { found.new ≡ earlier found.old (record { place = place; cause = cause }) }
{
    let new = Fault { place, cause };
    match *found {
        None => *found = Some(new),
        Some(first) => {
            if is_before(new, first) {
                *found = Some(new);
            }
        }
    }
}

/// Notes a fault, if there is one.
pub(crate) fn note_if(found: &mut Option<Fault>, is_fault: bool, cause: ScriptCause, place: u64)
    ensures { found.new ≡ first_of found.old (fault_if is_fault cause place) }
{
    if is_fault {
        note(found, cause, place);
    }
}

/// Notes the item behind the most that there may be.
pub(crate) fn note_too_many<T: Placed>(found: &mut Option<Fault>, most: usize, items: &[T])
    ensures { found.new ≡ first_of found.old (too_many most T.place items.now) }
{
    if let Some(item) = items.get(most) {
        note(found, ScriptCause::TooMany, item.place());
    }
}

// One more. What a `usize` can't count takes more than the memory.
fn one_more(number: usize) -> Result<usize, NoMemory>
    ensures { IfOk result (λ next. next ≡ number + 1) }
{
    match number.checked_add(1) {
        Some(next) => Ok(next),
        None => Err(NoMemory),
    }
}

/// Notes the item of this number where it is one too many, and counts it.
pub(crate) fn note_number(
    found: &mut Option<Fault>,
    most: usize,
    number: &mut usize,
    place: u64,
) -> Result<(), NoMemory>
    ensures found { found.new ≡ first_of found.old (at_most most number.old place) }
    ensures number { OnOk result (number.new ≡ number.old + 1) }
{
    note_if(found, *number == most, ScriptCause::TooMany, place);
    *number = one_more(*number)?;
    Ok(())
}

/// Counts an item.
pub(crate) fn count(number: &mut usize) -> Result<(), NoMemory>
    ensures { OnOk result (number.new ≡ number.old + 1) }
{
    *number = one_more(*number)?;
    Ok(())
}
