//! A turn: what waits on the links of an actor is brought to it.
ghost use Rattle.std.specs.Prelude.{◌≡◌, ◌⊎◌, ◌<◌, IfOk, IfErr, OnOk, OnErr};
ghost use Rattle.join_base.specs.Outside.{Rose};
ghost use Rattle.actor_cells.specs.Lawful.{IsLawful, cell_tag, history_of, tally_of};
ghost use Rattle.actor_cells.specs.Served.{AllSent, IsRefusing, StaysLawful, TakesInTurn};
ghost use Rattle.actor_pool.specs.Beside.{FitsSeen, KeepsOthers, Shows, setting_in};
ghost use Rattle.actor_pool.specs.Helpers.{IsHelperOf, HelperGoesOn, seat_of, pass_of, actor_count};
ghost use Rattle.actor_pool.specs.Turning.{ServedTurn, Faulted, FaultedBeside};

use crate::beside::Beside;
use crate::helper::{Helper, Noted};
use crate::nobody::Nobody;
use crate::pool::Pool;
use crate::room::note_room;
use actor_cells::{ActorSet, Cell, Turned};
use fair_semantics::Ending;
use join_base::{NoMemory, Steps};
use std::alloc::Global;
use std::sync::ledger::Ledger;

/// Why a turn did not serve its actor to the end.
#[derive(Clone, Copy, PartialEq, Eq, Debug)]
pub enum TurnFault {
    /// Another seat had the turn. The word is that of the actor, as the claim met it.
    Busy { word: u64 },
    /// The message that was refused still waits first on its link, or what stands beside the pool found no memory for
    /// what it was shown. The turn was given back.
    NoMemory,
}

// Serves a cell, and notes what is to be announced then.
fn serve_noted<L: Ledger>(
    alloc: Global,
    cell: &mut Cell,
    actor: u32,
    noted: &mut Noted,
    steps: &mut Steps<L>,
) -> Result<Turned, NoMemory>
    requires lawful { IsLawful cell.old }
    ensures kept { StaysLawful cell.old cell.new }
    ensures turned { IfOk result (TakesInTurn (tally_of cell.old) (tally_of cell.new)) }
    ensures sent { OnOk result (AllSent cell.new) }
    ensures refused { OnErr result (IsRefusing cell.new) }
{
    let before = cell.actor.arrivals();
    let served = cell.serve(alloc, steps);
    *noted = Noted {
        actor,
        moved: cell.moved,
        again: served == Ok(Turned::More),
        held: !cell.held.is_empty(),
        brought: cell.actor.arrivals() != before || cell.actor.ending() != Ending::Running,
        roomy: ActorSet::new(),
    };
    served
}

// Serves a cell, and shows what is then in it, also where there was no memory: what came before has arrived.
fn serve_and_show<R, B: Beside<R>, L: Ledger>(
    rt: &R,
    alloc: Global,
    cell: &mut Cell,
    actor: u32,
    beside: &mut B,
    noted: &mut Noted,
    steps: &mut Steps<L>,
) -> Result<Turned, NoMemory>
    requires lawful { IsLawful cell.old }
    requires below { actor < 32 }
    requires fits { B.fits beside.old actor (setting_in (cell_tag cell.old)) (history_of cell.old) }
    ensures kept { StaysLawful cell.old cell.new }
    ensures turned { IfOk result (TakesInTurn (tally_of cell.old) (tally_of cell.new)) }
    ensures sent { OnOk result (AllSent cell.new) }
    ensures refused { OnErr result (IsRefusing cell.new ⊎ B.wants) }
    ensures fits { B.fits beside.new actor (setting_in (cell_tag cell.new)) (history_of cell.new) }
    ensures others { KeepsOthers B.fits beside.old beside.new actor }
    ensures told { Rose (B.tells beside.old) (B.tells beside.new) }
{
    let served = serve_noted(alloc, cell, actor, noted, steps);
    let shown = beside.seen(rt, alloc, actor, &cell.actor);
    match served {
        Ok(turned) => match shown {
            Ok(()) => Ok(turned),
            Err(NoMemory) => Err(NoMemory),
        },
        Err(NoMemory) => Err(NoMemory),
    }
}

/// Tries once for the turn of an actor, as `turn` does. Who gets it serves the actor, shows it to what stands beside,
/// and gives the turn back.
///
/// What is kept of each actor fits what the helper has seen of it, before and after. At `Ok` and at `NoMemory` the
/// actor was shown at least once, and at `Busy` nothing was shown. At `NoMemory` a message was refused, as at that of
/// `turn`, or what stands beside found no memory: then all messages that the turn took have arrived. It waits only
/// where `seen` does.
pub fn turn_beside<R, B: Beside<R>, L: Ledger>(
    rt: &R,
    alloc: Global,
    pool: &Pool,
    helper: &mut Helper,
    actor: u32,
    beside: &mut B,
    steps: &mut Steps<L>,
) -> Result<Turned, TurnFault>
    requires own { IsHelperOf pool.now helper.old }
    requires exists { actor < actor_count pool.now }
    requires fits { FitsSeen B.fits (seat_of helper.old) beside.old }
    ensures goes_on { HelperGoesOn pool.now helper.old helper.new }
    ensures pass { pass_of helper.new ≡ pass_of helper.old }
    ensures served { IfOk result (λ turned. ServedTurn actor turned (seat_of helper.old) (seat_of helper.new)) }
    ensures fault { IfErr result (λ fault. FaultedBeside B.wants actor fault (seat_of helper.old)
        (seat_of helper.new)) }
    ensures fits { FitsSeen B.fits (seat_of helper.new) beside.new }
    ensures shown { Shows result (B.tells beside.old) (B.tells beside.new) }
{
    let mut held = match pool.turns.try_turn(&mut helper.seat, actor) {
        Ok(held) => held,
        Err(busy) => {
            helper.noted = Noted::none();
            return Err(TurnFault::Busy { word: busy.word });
        }
    };
    let noted = &mut helper.noted;
    let served = serve_and_show(rt, alloc, held.cell(), actor, beside, noted, steps);
    let asked = pool.turns.release(&mut helper.seat, held);
    helper.noted.again |= asked;
    note_room(pool, &mut helper.noted);
    match served {
        Ok(turned) => Ok(turned),
        Err(NoMemory) => Err(TurnFault::NoMemory),
    }
}

/// Tries once for the turn of an actor. Who gets it moves posts from the actor's outboxes to their links, brings what
/// waits on its inward links to it, at most 256 messages, and gives the turn back.
///
/// `More` comes exactly where 256 messages were taken, and `Dry` only where each inward link was looked at and showed
/// none: the tallies that the seat keeps, as found and as left, show it. `Busy` comes exactly where the one claim found
/// another seat at the actor: at each other answer it found none, and the cell that the lock held came back lawful,
/// with a history that goes on. At `NoMemory` the earlier messages of this turn have arrived, and the one that was
/// refused waits first on its link. It does not wait.
pub fn turn<L: Ledger>(
    alloc: Global,
    pool: &Pool,
    helper: &mut Helper,
    actor: u32,
    steps: &mut Steps<L>,
) -> Result<Turned, TurnFault>
    requires own { IsHelperOf pool.now helper.old }
    requires exists { actor < actor_count pool.now }
    ensures goes_on { HelperGoesOn pool.now helper.old helper.new }
    ensures pass { pass_of helper.new ≡ pass_of helper.old }
    ensures served { IfOk result (λ turned. ServedTurn actor turned (seat_of helper.old) (seat_of helper.new)) }
    ensures fault { IfErr result (λ fault. Faulted actor fault (seat_of helper.old) (seat_of helper.new)) }
{
    turn_beside(&(), alloc, pool, helper, actor, &mut Nobody, steps)
}
