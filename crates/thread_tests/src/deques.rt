//! What deques of tickets do, on one thread and on two, where memory is ample.
ghost use Rattle.std.specs.Prelude.{◌≡◌, ◌<◌, ◌≤◌, IfOk, IfSome};
ghost use Rattle.steal_pool.specs.Passes.{made_for};

use join_base::NoMemory;
use std::alloc::Global;
use std::sync::Wait;
use std::test::Fail;
use std::thread;
use std::thread::Threads;
use steal_pool::{InOrder, StealPass, deques};

// The passes of two workers, for tickets of so many actors.
fn two_passes(alloc: Global, actors: u32) -> Result<Option<(StealPass, StealPass)>, NoMemory>
    requires actors { actors ≤ 32 }
    ensures made { IfOk result (λ passes. IfSome passes (λ p. made_for p.0 ≡ actors)) }
{
    let mut passes = deques::<InOrder>(alloc, 2, actors)?;
    let Some(second) = passes.pop() else {
        return Ok(None);
    };
    let Some(first) = passes.pop() else {
        return Ok(None);
    };
    Ok(Some((first, second)))
}

fn put_ticket(pass: &mut StealPass, actor: u32) -> bool
    requires exists { actor < made_for pass.old }
    ensures same { made_for pass.new ≡ made_for pass.old }
{
    pass.put(actor).is_ok()
}

fn take_ticket<R: Wait>(rt: &R, pass: &mut StealPass) -> Option<u32>
    ensures same { made_for pass.new ≡ made_for pass.old }
{
    pass.take(rt)
}

fn a_ticket_is_stolen<R: Wait>(rt: &R, alloc: Global) -> Result<bool, NoMemory> {
    let Some((mut first, mut second)) = two_passes(alloc, 5)? else {
        return Ok(false);
    };
    let three = put_ticket(&mut first, 3);
    let four = put_ticket(&mut first, 4);
    let stolen = take_ticket(rt, &mut second);
    let own = take_ticket(rt, &mut first);
    let none = take_ticket(rt, &mut first);
    let nobody = take_ticket(rt, &mut second);
    Ok(three && four && stolen == Some(3) && own == Some(4) && none == None && nobody == None)
}

#[test]
fn the_oldest_ticket_is_stolen(rt: HostRuntime) -> Result<(), Fail> {
    let stolen = a_ticket_is_stolen(&rt, rt.alloc())?;
    assert!(rt; stolen);
    Ok(())
}

// 1 for the ticket 0, 2 for the ticket 1, and 0 for none.
fn worth(ticket: Option<u32>) -> u64 {
    match ticket {
        Some(actor) => u64::from(actor).saturating_add(1),
        None => 0,
    }
}

// Puts the tickets 0 and 1 in turn, takes one of three itself, and adds up what it put and what it took.
fn put_often<R: Wait>(rt: &R, mut pass: StealPass) -> (u64, u64)
    requires two { 2 ≤ made_for pass }
{
    let mut sent = 0u64;
    let mut taken = 0u64;
    for turn in 0..10000u32 {
        if put_ticket(&mut pass, turn % 2) {
            sent = sent.saturating_add(worth(Some(turn % 2)));
        }
        if turn % 3 == 0 {
            taken = taken.saturating_add(worth(take_ticket(rt, &mut pass)));
        }
    }
    (sent, taken)
}

// Takes what comes, and adds it up.
fn take_often<R: Wait>(rt: &R, mut pass: StealPass) -> (u64, StealPass) {
    let mut taken = 0u64;
    for _ in 0..10000u32 {
        taken = taken.saturating_add(worth(take_ticket(rt, &mut pass)));
    }
    (taken, pass)
}

fn on_two_threads<R: Threads + Wait + Sync>(
    rt: &R,
    first: StealPass,
    second: StealPass,
) -> ((u64, u64), (u64, StealPass))
    requires two { 2 ≤ made_for first }
{
    thread::join(
        rt,
        move ||
            requires { 2 ≤ made_for first }
        { put_often(rt, first) },
        move || take_often(rt, second),
    )
}

fn no_ticket_is_lost<R: Threads + Wait + Sync>(rt: &R, alloc: Global) -> Result<bool, NoMemory> {
    let Some((first, second)) = two_passes(alloc, 2)? else {
        return Ok(false);
    };
    let ((sent, own), (stolen, second)) = on_two_threads(rt, first, second);
    let (left, _) = take_often(rt, second);
    Ok(sent > 0 && own.saturating_add(stolen).saturating_add(left) == sent)
}

#[test]
fn two_threads_that_steal_lose_no_ticket(rt: HostRuntime) -> Result<(), Fail> {
    let kept = no_ticket_is_lost(&rt, rt.alloc())?;
    assert!(rt; kept);
    Ok(())
}
