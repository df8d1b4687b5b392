//! What a lock over one cell does, on one thread and on two, where memory is ample.
ghost use Rattle.std.specs.Prelude.{◌≡◌, ◌<◌, length, IfOk};
ghost use Rattle.turn_lock.specs.declared.view.Turn.TheVariants.{Free};
ghost use Rattle.turn_lock.specs.View.{IsFirst};
ghost use Rattle.turn_lock.specs.Seats.{view_of, cell_count, IsOf, IsStill};

use join_base::NoMemory;
use std::alloc::Global;
use std::cell::Cell;
use std::test::Fail;
use std::thread;
use std::thread::Threads;
use turn_lock::{Busy, CellList, TurnCell, TurnSeat, Turns};

/// A list of numbers. A `Cell` may not be shared, so a lock of these shows that cells need only be sent.
#[derive(Drop)]
struct Numbers {
    items: Vec<u64>,
    looks: Cell<u64>,
}

impl TurnCell for Numbers {
    type Tag = ();

    type Entry = u64;

    type Tally = u64;

    ghost tag = { λ _. tt };

    ghost lawful = { λ _. Unit {0} };

    ghost history = { λ c. c.items.items };

    ghost tally = { λ c. length c.items.items };
}

type Lock = Turns<Numbers>;

type NumbersSeat = TurnSeat<Numbers>;

fn one_cell(alloc: Global) -> Result<(Lock, NumbersSeat), NoMemory>
    ensures own { IfOk result (λ r. (0 < cell_count r.0) × IsOf r.0 r.1) }
    ensures first { IfOk result (λ r. ((view_of r.1).turn ≡ Free) × IsFirst 0 (view_of r.1)) }
{
    let mut cells = CellList::new(alloc);
    cells.push(Numbers {
        items: Vec::new(alloc),
        looks: Cell::new(0),
    })?;
    Turns::new(alloc, cells)
}

// A turn in which nothing happens: what its release answers, or the word found where another seat has the turn.
fn idle_turn(turns: &Lock, seat: &mut NumbersSeat) -> Result<bool, u64>
    requires own { IsOf turns.now seat.old }
    requires exists { 0 < cell_count turns.now }
    requires free { (view_of seat.old).turn ≡ Free }
    ensures { IsStill seat.old seat.new }
{
    match turns.try_turn(seat, 0) {
        Ok(held) => Ok(turns.release(seat, held)),
        Err(Busy { word }) => Err(word),
    }
}

// Whether t finds s at its turn before and after it asks for one, and s, which appends a number, is told of that.
fn flagged_turn(turns: &Lock, s: &mut NumbersSeat, t: &mut NumbersSeat, number: u64) -> bool
    requires own { IsOf turns.now s.old × IsOf turns.now t.old }
    requires exists { 0 < cell_count turns.now }
    requires free { ((view_of s.old).turn ≡ Free) × ((view_of t.old).turn ≡ Free) }
    ensures first { IsStill s.old s.new }
    ensures second { IsStill t.old t.new }
{
    let mut held = match turns.try_turn(s, 0) {
        Ok(held) => held,
        Err(_) => return false,
    };
    let before = idle_turn(turns, t);
    turns.flag(t, 0);
    let after = idle_turn(turns, t);
    let appended = held.cell().items.push(number).is_ok();
    let flagged = turns.release(s, held);
    appended && flagged && before == Err(2) && after == Err(3)
}

// Whether the seat gets the turn, finds the number last, and is not told of another request.
fn finds_last(turns: &Lock, seat: &mut NumbersSeat, number: u64) -> bool
    requires own { IsOf turns.now seat.old }
    requires exists { 0 < cell_count turns.now }
    requires free { (view_of seat.old).turn ≡ Free }
    ensures { IsStill seat.old seat.new }
{
    match turns.try_turn(seat, 0) {
        Ok(mut held) => {
            let found = held.cell().items.as_slice().ends_with(&[number]);
            let flagged = turns.release(seat, held);
            found && !flagged
        }
        Err(_) => false,
    }
}

fn a_flag_during_a_turn_is_told_at_its_end(alloc: Global) -> Result<bool, NoMemory> {
    let (turns, mut s) = one_cell(alloc)?;
    let mut t = turns.split_seat(&mut s)?;
    let flagged = flagged_turn(&turns, &mut s, &mut t, 5);
    let found = finds_last(&turns, &mut t, 5);
    turns.unmark(&mut t, 0);
    turns.join_seat(&mut s, t);
    let cells = turns.close(s);
    Ok(flagged && found && cells.len() == 1)
}

fn a_mark_outlives_a_turn(alloc: Global) -> Result<bool, NoMemory> {
    let (turns, mut s) = one_cell(alloc)?;
    let first = turns.mark(&mut s, 0);
    let turn = idle_turn(&turns, &mut s);
    let second = turns.mark(&mut s, 0);
    turns.unmark(&mut s, 0);
    let third = turns.mark(&mut s, 0);
    drop(turns.close(s));
    Ok(turn == Ok(false) && first && !second && third)
}

#[test]
fn flags_and_marks_are_told(rt: HostRuntime) -> Result<(), Fail> {
    let alloc = rt.alloc();
    let flag = a_flag_during_a_turn_is_told_at_its_end(alloc)?;
    let mark = a_mark_outlives_a_turn(alloc)?;
    assert!(rt; flag && mark);
    Ok(())
}

// Appends the number at each turn that is got, and counts how often.
fn append_often(turns: &Lock, mut seat: NumbersSeat, number: u64) -> (u64, NumbersSeat)
    requires own { IsOf turns.now seat }
    requires exists { 0 < cell_count turns.now }
    requires free { (view_of seat).turn ≡ Free }
    ensures { IsStill seat result.1 }
{
    let mut appended = 0u64;
    for _ in 0..10000 {
        match turns.try_turn(&mut seat, 0) {
            Ok(mut held) => {
                if held.cell().items.push(number).is_ok() {
                    appended = appended.saturating_add(1);
                }
                turns.release(&mut seat, held);
            }
            Err(_) => {}
        }
    }
    (appended, seat)
}

fn on_two_threads<R: Threads + Sync>(
    rt: &R,
    turns: &Lock,
    s: NumbersSeat,
    t: NumbersSeat,
) -> ((u64, NumbersSeat), (u64, NumbersSeat))
    requires own { IsOf turns.now s × IsOf turns.now t }
    requires exists { 0 < cell_count turns.now }
    requires free { ((view_of s).turn ≡ Free) × ((view_of t).turn ≡ Free) }
    ensures first { IsStill s result.0.1 }
    ensures second { IsStill t result.1.1 }
{
    thread::join(
        rt,
        move ||
            requires { IsOf turns.now s × (0 < cell_count turns.now) × ((view_of s).turn ≡ Free) }
            ensures { IsStill s result.1 }
        { append_often(turns, s, 1) },
        move ||
            requires { IsOf turns.now t × (0 < cell_count turns.now) × ((view_of t).turn ≡ Free) }
            ensures { IsStill t result.1 }
        { append_often(turns, t, 2) },
    )
}

// How many of the numbers are this one.
fn count_of(numbers: &[u64], wanted: u64) -> u64 {
    let mut count = 0u64;
    for &number in numbers {
        if number == wanted {
            count = count.saturating_add(1);
        }
    }
    count
}

// The cell has so many ones and twos and nothing else.
fn has_just(cells: CellList<Numbers>, ones: u64, twos: u64) -> bool {
    let cells = cells.into_vec();
    let Some(cell) = cells.as_slice().get(0) else {
        return false;
    };
    let items = cell.items.as_slice();
    count_of(items, 1) == ones
        && count_of(items, 2) == twos
        && items.len() as u64 == ones.saturating_add(twos)
}

// That each thread got a turn can't be asked: one may be put off while the other tries.
fn no_number_is_lost<R: Threads + Sync>(rt: &R, alloc: Global) -> Result<bool, NoMemory> {
    let (turns, mut s) = one_cell(alloc)?;
    let t = turns.split_seat(&mut s)?;
    let ((ones, mut s), (twos, t)) = on_two_threads(rt, &turns, s, t);
    turns.join_seat(&mut s, t);
    let cells = turns.close(s);
    Ok(has_just(cells, ones, twos) && (ones > 0 || twos > 0))
}

#[test]
fn two_threads_lose_no_number(rt: HostRuntime) -> Result<(), Fail> {
    let kept = no_number_is_lost(&rt, rt.alloc())?;
    assert!(rt; kept);
    Ok(())
}
