//! Closing a pool.
ghost use Rattle.std.specs.Prelude.{◌≡◌, length, map, All, IfOk, OnOk};
ghost use Rattle.turn_lock.specs.declared.view.Turn.TheVariants.{Free};
ghost use Rattle.turn_lock.specs.View.{IsFirst, HasSeenAll};
ghost use Rattle.turn_lock.specs.Seats.{view_of, IsOf};
ghost use Rattle.actor_cells.specs.AllLawful.{AreLawful};
ghost use Rattle.actor_cells.specs.Lawful.{cell_tag};
ghost use Rattle.actor_pool.specs.Helpers.{IsHelperOf, IsFirstHelper, seat_of, feed_count};
ghost use Rattle.actor_pool.specs.Posters.{IsPosterOf, IsSeated, feed_ends};
ghost use Rattle.actor_pool.specs.Whole.{HoldSeen};

use crate::helper::Helper;
use crate::pool::Pool;
use crate::poster::Poster;
use actor_cells::Cell;
use join_base::NoMemory;
use std::alloc::Global;
use turn_lock::{TurnSeat, Turns};

// Joins the seats of all posters, and gives the ends of their links.
fn join_all(
    alloc: Global,
    turns: &Turns<Cell>,
    seat: &mut TurnSeat<Cell>,
    mut posters: Vec<Poster>,
) -> Result<Vec<cell_links::FeedLinks>, NoMemory>
    requires own { IsOf turns.now seat.old }
    requires first { IsFirst (length posters.items) (view_of seat.old) }
    requires free { (view_of seat.old).turn ≡ Free }
    requires seated { All (IsSeated turns.now) posters.items }
    ensures own { IsOf turns.now seat.new }
    ensures free { (view_of seat.new).turn ≡ Free }
    ensures tags { (view_of seat.new).tags ≡ (view_of seat.old).tags }
    ensures seen { HasSeenAll (view_of seat.old) (view_of seat.new) }
    ensures first { OnOk result (IsFirst 0 (view_of seat.new)) }
    ensures ends { IfOk result (λ ends. ends.items ≡ map feed_ends posters.items) }
{
    posters.reverse();
    let mut ends = Vec::new(alloc);
    while let Some(poster) = posters.pop() {
        let Poster {
            ends: own,
            seat: other,
        } = poster;
        turns.join_seat(seat, other);
        ends.push(own)?;
    }
    Ok(ends)
}

impl Pool {
    /// Closes the pool when all its posters are back and the first helper has no other out: the seats of the posters
    /// are joined, and the lock gives its cells in order, each lawful and with its tag, with the ends of the posters.
    /// The history of each goes on from what the helper had seen.
    ///
    /// It does not wait.
    pub fn close(
        self,
        alloc: Global,
        posters: Vec<Poster>,
        helper: Helper,
    ) -> Result<(Vec<Cell>, Vec<cell_links::FeedLinks>), NoMemory>
        requires own { IsHelperOf self helper }
        requires first { IsFirstHelper self 0 helper }
        requires count { length posters.items ≡ feed_count self }
        requires posters { All (IsPosterOf self) posters.items }
        ensures lawful { IfOk result (λ made. AreLawful made.0.items) }
        ensures tags { IfOk result (λ made. map cell_tag made.0.items ≡ (seat_of helper).tags) }
        ensures seen { IfOk result (λ made. HoldSeen (seat_of helper) made.0.items) }
        ensures ends { IfOk result (λ made. made.1.items ≡ map feed_ends posters.items) }
    {
        let Pool { turns, .. } = self;
        let Helper { mut seat, .. } = helper;
        let ends = join_all(alloc, &turns, &mut seat, posters)?;
        let cells = turns.close(seat);
        Ok((cells.into_vec(), ends))
    }
}
