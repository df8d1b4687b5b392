//! A seat. It stands in a file alone, since the words on it import this file.
ghost use Rattle.std.specs.Prelude.{◌≡◌, ◌≤◌, true, [], length, vec_capacity};
ghost use Rattle.turn_lock.specs.View.{is_live, carried_of, room_for};

use crate::cell::TurnCell;
use crate::view::View;
use atomic_table::Seat;

/// What one thread takes turns with. What it knows is its view, which contracts alone read.
///
/// The first seat comes from `Turns::new`, and the others from `Turns::split_seat`. A seat may be sent to another
/// thread.
#[derive(Drop)]
pub struct TurnSeat<C: TurnCell> {
    pub(crate) seat: Seat<Option<C>, View<C::Tag, C::Entry, C::Tally>>,
    // Room for the list of `close`, in the first seat. In the lock it would ask that cells may be shared.
    pub(crate) room: Vec<C>,
    ghost live: { is_live seat.me.0.role ≡ true },
    ghost wide: { length seat.me.0.tags ≡ seat.table_id.slots },
    ghost carries: { seat.me.1 ≡ carried_of seat.me.0.turn },
    ghost empty: { room.items ≡ [] },
    ghost roomy: { room_for seat.me.0.role seat.table_id.slots ≤ vec_capacity room },
}
