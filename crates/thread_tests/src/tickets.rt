//! What a queue of tickets does, on one thread and on two, where memory is ample.
ghost use Rattle.std.specs.Prelude.{◌≡◌, ◌<◌, ◌≤◌, IfSome, IsOk, MatchOption, OnErr, OnOk, Some};
ghost use Rattle.ready_queue.specs.View.{IsSole, ManyWait, WaitsFirst, first_view, with_put, with_taken};
ghost use Rattle.ready_queue.specs.Passes.{view_of, ticket_count, IsOf, IsSamePass};

use join_base::NoMemory;
use ready_queue::{Full, TicketPass, Tickets};
use std::alloc::Global;
use std::sync::Wait;
use std::test::Fail;
use std::thread;
use std::thread::Threads;

// Puts a ticket, under the rule in use.
fn put_ticket<R: Wait>(
    rt: &R,
    tickets: &Tickets,
    pass: &mut TicketPass,
    actor: u32,
) -> Result<(), Full>
    requires own { IsOf tickets.now pass.old }
    requires exists { actor < ticket_count tickets.now }
    ensures own { IsSamePass pass.old pass.new }
    ensures put { OnOk result (view_of pass.new ≡ with_put actor (view_of pass.old)) }
    ensures sole { OnErr result (IsSole (view_of pass.old) → ManyWait (ticket_count tickets.now) (view_of pass.old)) }
{
    tickets.put(rt, pass, actor)
}

// Takes a ticket, under the rule in use.
fn take_ticket<R: Wait>(rt: &R, tickets: &Tickets, pass: &mut TicketPass) -> Option<u32>
    requires own { IsOf tickets.now pass.old }
    ensures own { IsSamePass pass.old pass.new }
    ensures taken { IfSome result (λ actor. view_of pass.new ≡ with_taken actor (view_of pass.old)) }
    ensures sole { IsSole (view_of pass.old) → MatchOption result (ManyWait 0 (view_of pass.old)) (λ actor. WaitsFirst
        actor (view_of pass.old)) }
{
    tickets.take(rt, pass)
}

fn a_queue_of_two_tickets<R: Wait>(rt: &R, alloc: Global) -> Result<bool, NoMemory> {
    let (tickets, mut pass) = Tickets::new(alloc, 2)?;
    let first = put_ticket(rt, &tickets, &mut pass, 0);
    let second = put_ticket(rt, &tickets, &mut pass, 1);
    let third = put_ticket(rt, &tickets, &mut pass, 0);
    let put = first.is_ok() && second.is_ok() && third == Err(Full);
    let one = take_ticket(rt, &tickets, &mut pass);
    let two = take_ticket(rt, &tickets, &mut pass);
    let none = take_ticket(rt, &tickets, &mut pass);
    Ok(put && one == Some(0) && two == Some(1) && none == None)
}

// What the clauses tell of a new queue: it is not full, and gives back what was put.
fn put_and_take<R: Wait>(
    rt: &R,
    tickets: &Tickets,
    pass: &mut TicketPass,
) -> (Result<(), Full>, Option<u32>)
    requires own { IsOf tickets.now pass.old }
    requires first { view_of pass.old ≡ first_view }
    requires two { 2 ≤ ticket_count tickets.now }
    ensures put { IsOk result.0 }
    ensures taken { result.1 ≡ Some 1 }
{
    let put = put_ticket(rt, tickets, pass, 1);
    let taken = take_ticket(rt, tickets, pass);
    (put, taken)
}

fn a_new_queue_gives_back_what_was_put<R: Wait>(rt: &R, alloc: Global) -> Result<bool, NoMemory> {
    let (tickets, mut pass) = Tickets::new(alloc, 2)?;
    let (put, taken) = put_and_take(rt, &tickets, &mut pass);
    Ok(put.is_ok() && taken == Some(1))
}

fn a_pass_is_split_off_and_joined<R: Wait>(rt: &R, alloc: Global) -> Result<bool, NoMemory> {
    let (tickets, mut first) = Tickets::new(alloc, 32)?;
    let mut second = tickets.split_pass(&mut first)?;
    let put = put_ticket(rt, &tickets, &mut second, 31);
    tickets.join_pass(&mut first, second);
    let taken = take_ticket(rt, &tickets, &mut first);
    Ok(put.is_ok() && taken == Some(31))
}

#[test]
fn tickets_come_in_order(rt: HostRuntime) -> Result<(), Fail> {
    let alloc = rt.alloc();
    let two = a_queue_of_two_tickets(&rt, alloc)?;
    let new = a_new_queue_gives_back_what_was_put(&rt, alloc)?;
    let split = a_pass_is_split_off_and_joined(&rt, alloc)?;
    assert!(rt; two && new && split);
    Ok(())
}

// Puts the tickets 0 and 1 in turn, as far as there is room, and counts them.
fn put_often<R: Wait>(rt: &R, tickets: &Tickets, mut pass: TicketPass) -> (u64, TicketPass)
    requires own { IsOf tickets.now pass }
    requires two { 2 ≤ ticket_count tickets.now }
    ensures { IsSamePass pass result.1 }
{
    let mut put = 0u64;
    for turn in 0..10000u32 {
        if put_ticket(rt, tickets, &mut pass, turn % 2).is_ok() {
            put = put.saturating_add(1);
        }
    }
    (put, pass)
}

// Takes so many times what comes, and counts it.
fn take_often<R: Wait>(
    rt: &R,
    tickets: &Tickets,
    mut pass: TicketPass,
    times: u32,
) -> (u64, TicketPass)
    requires own { IsOf tickets.now pass }
    ensures { IsSamePass pass result.1 }
{
    let mut taken = 0u64;
    for _ in 0..times {
        if take_ticket(rt, tickets, &mut pass).is_some() {
            taken = taken.saturating_add(1);
        }
    }
    (taken, pass)
}

fn on_two_threads<R: Threads + Wait + Sync>(
    rt: &R,
    tickets: &Tickets,
    first: TicketPass,
    second: TicketPass,
) -> ((u64, TicketPass), (u64, TicketPass))
    requires own { IsOf tickets.now first × IsOf tickets.now second }
    requires two { 2 ≤ ticket_count tickets.now }
    ensures first { IsSamePass first result.0.1 }
    ensures second { IsSamePass second result.1.1 }
{
    thread::join(
        rt,
        move ||
            requires { IsOf tickets.now first × (2 ≤ ticket_count tickets.now) }
            ensures { IsSamePass first result.1 }
        { put_often(rt, tickets, first) },
        move ||
            requires { IsOf tickets.now second }
            ensures { IsSamePass second result.1 }
        { take_often(rt, tickets, second, 10000) },
    )
}

fn no_ticket_is_lost<R: Threads + Wait + Sync>(rt: &R, alloc: Global) -> Result<bool, NoMemory> {
    let (tickets, mut first) = Tickets::new(alloc, 3)?;
    let second = tickets.split_pass(&mut first)?;
    let ((put, mut first), (taken, second)) = on_two_threads(rt, &tickets, first, second);
    tickets.join_pass(&mut first, second);
    let (left, _) = take_often(rt, &tickets, first, 4);
    Ok(put >= 3 && taken.checked_add(left) == Some(put))
}

#[test]
fn two_threads_lose_no_ticket(rt: HostRuntime) -> Result<(), Fail> {
    let kept = no_ticket_is_lost(&rt, rt.alloc())?;
    assert!(rt; kept);
    Ok(())
}
