//! The calls of the lock.
ghost use Rattle.std.specs.Prelude.{◌≡◌, ℕ, ◌+◌, ◌<◌, ◌≤◌, [], length, map, MatchBool, IfOk, IfErr, is_ok, if◌then◌else◌, All, Some, vec_capacity, slice_index};
ghost use mathlib.Core.Option.{some};
ghost use lib.ListN.{get_elem?};
ghost use Rattle.std.specs.Mem.Slots.{slots_items, slots_len, IsFull};
ghost use Rattle.turn_lock.specs.declared.view.Turn.TheVariants.{Free};
ghost use Rattle.turn_lock.specs.View.{is_live, carried_of, room_for, first_view, new_view, with_one_more, joined, flagged, marked, unmarked, seen_of, HasSeenAll, IsFirst, IsOther};
ghost use Rattle.turn_lock.specs.Rule.{HasFlag, LacksFlag, IsQueued, IsUnqueued};
ghost use Rattle.turn_lock.specs.Steps.{Gets, HasTurn, Misses, MayRelease, GivesBack, AskedMeanwhile, AskedNoMore, SetsMark, FindsMark, AreBack, AccountsAlone};
ghost use Rattle.turn_lock.specs.Lending.{cell_of, index_of};
ghost use Rattle.turn_lock.specs.Seats.{view_of, cell_count, IsOf, IsSameSeat};

use crate::cell::{CellList, TurnCell};
use crate::held::Held;
use crate::plays::{Claim, Clear, Flag, Mark, Meeting, Parting, Release, Settle, Unmark};
use crate::seat::TurnSeat;
use crate::turns::Turns;
use atomic_table::{Closed, Table};
use join_base::NoMemory;
use std::alloc::Global;
use std::snapshot::Snapshot;

const FLAG: u64 = 1;

const RUNNING: u64 = 2;

const QUEUED: u64 = 4;

/// Another seat is at the cell.
#[derive(Clone, Copy, PartialEq, Eq, Debug)]
pub struct Busy {
    /// The cell's word as the claim met it: bit 0 is FLAG, bit 1 is RUNNING, which is 1 here, and bit 2 is QUEUED.
    pub word: u64,
}

// Each cell for a slot, and the list that had them, now empty.
fn into_slots<C: Drop>(
    alloc: Global,
    mut cells: Vec<C>,
) -> Result<(Vec<Option<C>>, Vec<C>), NoMemory>
    ensures slots { IfOk result (λ r. r.0.items ≡ map Some cells.items) }
    ensures empty { IfOk result (λ r. r.1.items ≡ []) }
    ensures roomy { IfOk result (λ r. length cells.items ≤ vec_capacity r.1) }
{
    let Ok(mut slots) = Vec::with_capacity(alloc, cells.len()) else {
        return Err(NoMemory)
    };
    cells.reverse();
    while let Some(cell) = cells.pop() {
        if slots.push(Some(cell)).is_err() {
            return Err(NoMemory);
        }
    }
    Ok((slots, cells))
}

// The cells of a closed table in order, in the room that was kept for them.
fn unload<C: Drop>(mut closed: Closed<Option<C>, Global>, mut room: Vec<C>) -> Vec<C>
    requires full { IsFull closed.slots }
    requires home { (k : ℕ) → k < slots_len closed.slots → (c : C) × (get_elem? (slots_items closed.slots) k
        ≡ some (Some c)) }
    requires empty { room.items ≡ [] }
    requires roomy { slots_len closed.slots ≤ vec_capacity room }
    ensures count { length result.items ≡ slots_len closed.slots }
    ensures cells { (k : ℕ) (c : C) → get_elem? result.items k ≡ some c → get_elem? (slots_items closed.slots) k
        ≡ some (Some c) }
{
    let mut i = 0;
    while i < closed.slot_count() {
        let Some(cell) = closed.take(i) else {
            unreachable!()
        };
        let Ok(()) = room.push(cell) else {
            unreachable!()
        };
        i += 1;
    }
    closed.free();
    room
}

impl<C: TurnCell> Turns<C> {
    /// Makes a lock of 1 to 32 cells, each in its slot, with the first seat. That seat has seen nothing, has no turn,
    /// and has counted no seat out.
    ///
    /// It makes no atomic step. Memory goes to the words, the slots and the cells in them. Where there is none the
    /// answer is `NoMemory`, and the cells are dropped.
    pub fn new(alloc: Global, cells: CellList<C>) -> Result<(Turns<C>, TurnSeat<C>), NoMemory>
        requires some { 0 < length cells }
        requires few { length cells ≤ 32 }
        requires lawful { All C.lawful cells }
        ensures count { IfOk result (λ r. cell_count r.0 ≡ length cells) }
        ensures own { IfOk result (λ r. IsOf r.0 r.1) }
        ensures first { IfOk result (λ r. view_of r.1 ≡ first_view (map C.tag cells)) }
    {
        let cells = cells.into_vec();
        let about = Snapshot::of(&cells);
        let words = [0u64; 32];
        let count = cells.len();
        let (slots, room) = into_slots(alloc, cells)?;
        match Table::new(alloc, &words[..count], slots, &about) {
            Ok((table, seat)) => Ok((Turns { table }, TurnSeat { seat, room })),
            Err(_) => Err(NoMemory),
        }
    }

    /// Leaves word at a cell that it should get another turn, whether or not somebody is at it: an OR of its word with
    /// FLAG.
    ///
    /// The seat counts its flags cell by cell, and has one more. It takes no memory and does not wait.
    pub fn flag(&self, seat: &mut TurnSeat<C>, index: u32)
        requires own { IsOf self.now seat.old }
        requires exists { index < cell_count self.now }
        ensures own { IsSameSeat seat.old seat.new }
        ensures flagged { (word : ℕ) × (view_of seat.new ≡ flagged index word (view_of seat.old)) }
        ensures counted { slice_index (view_of seat.new).flags index ≡ slice_index (view_of seat.old).flags index + 1 }
    {
        self.table
            .shared
            .fetch_or::<Flag>(&mut seat.seat, index as usize, FLAG);
    }

    /// Puts the mark on a cell, an OR of its word with QUEUED, and answers whether it was missing there until now.
    ///
    /// The seat counts a try. It takes no memory and does not wait.
    pub fn mark(&self, seat: &mut TurnSeat<C>, index: u32) -> bool
        requires own { IsOf self.now seat.old }
        requires exists { index < cell_count self.now }
        ensures own { IsSameSeat seat.old seat.new }
        ensures marked { (word : ℕ) × MatchBool result (IsUnqueued word) (IsQueued word)
            × (view_of seat.new ≡ marked index word (view_of seat.old)) }
        ensures set { MatchBool result (SetsMark index (view_of seat.old) (view_of seat.new))
            (FindsMark index (view_of seat.old) (view_of seat.new)) }
    {
        let word = self
            .table
            .shared
            .fetch_or::<Mark>(&mut seat.seat, index as usize, QUEUED);
        word & QUEUED == 0
    }

    /// Removes the mark from a cell, if it is there, and leaves the other bits of its word.
    ///
    /// The seat counts its unmarks cell by cell, and has one more. It takes no memory and does not wait.
    pub fn unmark(&self, seat: &mut TurnSeat<C>, index: u32)
        requires own { IsOf self.now seat.old }
        requires exists { index < cell_count self.now }
        ensures own { IsSameSeat seat.old seat.new }
        ensures unmarked { (word : ℕ) × (view_of seat.new ≡ unmarked index word (view_of seat.old)) }
        ensures counted { slice_index (view_of seat.new).unmarks index
            ≡ slice_index (view_of seat.old).unmarks index + 1 }
    {
        self.table
            .shared
            .fetch_and::<Unmark>(&mut seat.seat, index as usize, !QUEUED);
    }

    /// Tries once for the turn of a cell. The try, a claim, is an OR of its word with RUNNING.
    ///
    /// If RUNNING was missing, this seat has the turn from then on. It clears FLAG, which adds one to its clears of
    /// that cell, and takes the cell out of its slot, which `Ok` carries. The cell is lawful, has its tag, and has a
    /// history that goes on from what this seat had seen. Its tally is noted as the one found.
    ///
    /// If RUNNING was there, `Busy` brings the word. The seat has counted the try and the claim, and noted the word;
    /// all else is as it was. The call takes no memory and does not wait.
    pub fn try_turn(&self, seat: &mut TurnSeat<C>, index: u32) -> Result<Held<C>, Busy>
        requires own { IsOf self.now seat.old }
        requires exists { index < cell_count self.now }
        requires free { (view_of seat.old).turn ≡ Free }
        ensures own { IsSameSeat seat.old seat.new }
        ensures place { IfOk result (λ held. index_of held ≡ index) }
        ensures got { IfOk result (λ held. Gets C.tag C.lawful C.history C.tally index
            (view_of seat.old) (cell_of held) (view_of seat.new)) }
        ensures turn { IfOk result (λ held. HasTurn C.tag C.history (index_of held) (cell_of held) (view_of seat.new)) }
        ensures cleared { IfOk result (λ held. slice_index (view_of seat.new).clears index
            ≡ slice_index (view_of seat.old).clears index + 1) }
        ensures busy { IfErr result (λ busy. Misses index (view_of seat.old) busy.word (view_of seat.new)) }
    {
        let shared = &self.table.shared;
        let place = index as usize;
        let word = shared.fetch_or::<Claim>(&mut seat.seat, place, RUNNING);
        if word & RUNNING != 0 {
            return Err(Busy { word });
        }
        shared.fetch_and::<Clear>(&mut seat.seat, place, !FLAG);
        let cell = shared.exchange(&mut seat.seat, place, None).unwrap();
        Ok(Held { index, cell })
    }

    /// Ends a turn: a step puts the cell into its slot, and the last one takes RUNNING out of the word.
    ///
    /// The answer is whether FLAG was in the word then. The turn cleared it at its beginning, and nobody else clears it
    /// during the turn, so it means that somebody asked for another turn meanwhile: the seat knows of one request more
    /// than it did. It has no turn any more, has seen all of the history, and notes the tally of the cell as the one
    /// put back.
    ///
    /// The caller has the turn of this cell, and brings a lawful cell with the tag of its place, whose history goes on
    /// from the one found. It takes no memory and does not wait.
    pub fn release(&self, seat: &mut TurnSeat<C>, held: Held<C>) -> bool
        requires own { IsOf self.now seat.old }
        requires turn { MayRelease C.tag C.lawful C.history (index_of held) (view_of seat.old) (cell_of held) }
        ensures own { IsSameSeat seat.old seat.new }
        ensures back { (word : ℕ) × MatchBool result (HasFlag word) (LacksFlag word)
            × GivesBack C.history C.tally (index_of held)
            (view_of seat.old) (cell_of held) word (view_of seat.new) }
        ensures asked { MatchBool result (AskedMeanwhile (index_of held) (view_of seat.old) (view_of seat.new))
            (AskedNoMore (index_of held) (view_of seat.old) (view_of seat.new)) }
        ensures seen { seen_of (view_of seat.new) (index_of held) ≡ C.history (cell_of held) }
    {
        let Held { index, cell } = held;
        let shared = &self.table.shared;
        let place = index as usize;
        let None = shared.exchange(&mut seat.seat, place, Some(cell)) else {
            unreachable!()
        };
        let word = shared.fetch_and::<Release>(&mut seat.seat, place, !RUNNING);
        word & FLAG != 0
    }

    /// Makes a seat for another thread. It has seen what the first seat has seen, knows of the requests that it knows
    /// of, and has done nothing. The first seat counts one more out.
    ///
    /// It is one step, a load of word 0. `NoMemory` would leave the first seat as it was; it is there for seats that
    /// need memory, which they don't yet. The call does not wait.
    pub fn split_seat(&self, seat: &mut TurnSeat<C>) -> Result<TurnSeat<C>, NoMemory>
        requires own { IsOf self.now seat.old }
        requires first { (out : ℕ) × IsFirst out (view_of seat.old) }
        requires free { (view_of seat.old).turn ≡ Free }
        ensures own { IsSameSeat seat.old seat.new }
        ensures kept { view_of seat.new ≡ (if is_ok result then with_one_more (view_of seat.old) else
            view_of seat.old) }
        ensures given { IfOk result (λ other. IsOf self.now other × (view_of other ≡ new_view (view_of seat.old))) }
    {
        let other = self.table.shared.split_seat::<Parting>(&mut seat.seat);
        let room = Vec::new(*seat.room.allocator());
        Ok(TurnSeat { seat: other, room })
    }

    /// Ends a seat that `split_seat` made. Of each cell, what either of the two has seen begins what the first seat has
    /// seen from then on. Their changes are added up, and the first seat counts one fewer out.
    ///
    /// It makes two steps, both loads of word 0: one joins the views, and one tells that a seat was out, and that of
    /// two lists seen the shorter begins the longer. It takes no memory and does not wait.
    pub fn join_seat(&self, seat: &mut TurnSeat<C>, other: TurnSeat<C>)
        requires own { IsOf self.now seat.old × IsOf self.now other }
        requires first { (out : ℕ) × IsFirst out (view_of seat.old) }
        requires other { IsOther (view_of other) }
        requires free { ((view_of seat.old).turn ≡ Free) × ((view_of other).turn ≡ Free) }
        ensures own { IsSameSeat seat.old seat.new }
        ensures view { view_of seat.new ≡ joined (view_of seat.old) (view_of other) }
        ensures seen { HasSeenAll (view_of seat.old) (view_of seat.new) × HasSeenAll (view_of other)
            (view_of seat.new) }
        ensures out { (out : ℕ) × IsFirst (out + 1) (view_of seat.old) × IsFirst out (view_of seat.new) }
    {
        let TurnSeat { seat: other, room } = other;
        drop(room);
        let shared = &self.table.shared;
        shared.join_seat::<Meeting>(&mut seat.seat, other);
        shared.load::<Settle>(&mut seat.seat, 0);
    }

    /// Ends the lock when all other seats have been joined, and gives its cells in order. Each is lawful, has its tag,
    /// and has a history that goes on from what the first seat has seen. That seat's changes account for FLAG and
    /// QUEUED of each cell.
    ///
    /// It makes no atomic step, takes no memory and does not wait.
    pub fn close(self, seat: TurnSeat<C>) -> CellList<C>
        requires own { IsOf self seat }
        requires first { IsFirst 0 (view_of seat) }
        requires free { (view_of seat).turn ≡ Free }
        ensures back { AreBack C.tag C.lawful C.history (view_of seat) result }
        ensures accounted { (i : ℕ) → i < length result → AccountsAlone (view_of seat) i }
    {
        let Turns { table } = self;
        let TurnSeat { seat, room } = seat;
        let cells = unload(table.close_with(seat), room);
        CellList::from_vec(cells)
    }
}
