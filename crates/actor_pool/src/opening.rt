//! Making a pool.
ghost use Rattle.std.specs.Prelude.{◌≡◌, ◌<◌, ◌≤◌, length, map, All, IfOk};
ghost use Rattle.turn_lock.specs.declared.view.Turn.TheVariants.{Free};
ghost use Rattle.turn_lock.specs.View.{IsFirst};
ghost use Rattle.turn_lock.specs.Seats.{view_of, IsOf};
ghost use Rattle.cell_links.specs.Ends.{link_count};
ghost use Rattle.actor_cells.specs.Lawful.{IsLawful, cell_tag};
ghost use Rattle.actor_pool.specs.Helpers.{IsHelperOf, IsFirstHelper, seat_of, actor_count, feed_count};
ghost use Rattle.actor_pool.specs.Posters.{IsPosterOf, IsSeated, feed_ends};

use crate::helper::{Helper, Noted};
use crate::pool::Pool;
use crate::poster::Poster;
use actor_cells::Cell;
use join_base::NoMemory;
use ready_queue::Tickets;
use std::alloc::Global;
use std::sync::atomic::AtomicU64;
use turn_lock::{CellList, TurnSeat, Turns};

// Gives each poster a seat of its own.
fn seat_all(
    alloc: Global,
    turns: &Turns<Cell>,
    seat: &mut TurnSeat<Cell>,
    mut ends: Vec<cell_links::FeedLinks>,
) -> Result<Vec<Poster>, NoMemory>
    requires own { IsOf turns.now seat.old }
    requires first { IsFirst 0 (view_of seat.old) }
    requires free { (view_of seat.old).turn ≡ Free }
    ensures own { IsOf turns.now seat.new }
    ensures free { (view_of seat.new).turn ≡ Free }
    ensures tags { (view_of seat.new).tags ≡ (view_of seat.old).tags }
    ensures first { IfOk result (λ posters. IsFirst (length ends.items) (view_of seat.new)) }
    ensures posters { IfOk result (λ posters. map feed_ends posters.items ≡ ends.items) }
    ensures seated { IfOk result (λ posters. All (IsSeated turns.now) posters.items) }
{
    ends.reverse();
    let mut posters = Vec::new(alloc);
    while let Some(own) = ends.pop() {
        let other = turns.split_seat(seat)?;
        posters.push(Poster {
            ends: own,
            seat: other,
        })?;
    }
    Ok(posters)
}

/// The cells, each behind its lock, with a seat for each poster and the first helper.
pub(crate) fn behind_locks(
    alloc: Global,
    cells: Vec<Cell>,
    ends: Vec<cell_links::FeedLinks>,
) -> Result<(Pool, Vec<Poster>, Helper), NoMemory>
    requires some { 0 < length cells.items }
    requires few { length cells.items ≤ 32 }
    requires feeds { length ends.items ≤ 16 }
    requires lawful { All IsLawful cells.items }
    requires links { All (λ p. link_count p ≡ length cells.items) ends.items }
    ensures own { IfOk result (λ made. IsHelperOf made.0 made.2) }
    ensures first { IfOk result (λ made. IsFirstHelper made.0 0 made.2) }
    ensures actors { IfOk result (λ made. actor_count made.0 ≡ length cells.items) }
    ensures feeds { IfOk result (λ made. feed_count made.0 ≡ length ends.items) }
    ensures posters { IfOk result (λ made. All (IsPosterOf made.0) made.1.items) }
    ensures ends { IfOk result (λ made. map feed_ends made.1.items ≡ ends.items) }
    ensures tags { IfOk result (λ made. (seat_of made.2).tags ≡ map cell_tag cells.items) }
{
    let actors = cells.len() as u32;
    let feeds = ends.len() as u32;
    let (tickets, pass) = Tickets::new(alloc, actors)?;
    let (turns, mut seat) = Turns::new(alloc, CellList::from_vec(cells))?;
    let posters = seat_all(alloc, &turns, &mut seat, ends)?;
    let pool = Pool {
        turns,
        tickets,
        ended: AtomicU64::new(0),
        failed: AtomicU64::new(0),
        waiting: AtomicU64::new(0),
        feeds,
        actors,
    };
    let helper = Helper {
        seat,
        pass,
        noted: Noted::none(),
    };
    Ok((pool, posters, helper))
}
