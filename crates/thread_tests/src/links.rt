//! What a link between two ends does, on one thread and on two, where memory is ample.
ghost use Rattle.std.specs.Prelude.{◌≡◌, ◌≤◌, [], true};
ghost use Rattle.post_ring.specs.Links.{identity_in, identity_out, has_met, waiting};

use join_base::{Fields, Message, NoMemory, Stamped};
use post_ring::{LinkIn, LinkOut, link, meet};
use std::alloc::Global;
use std::test::Fail;
use std::thread;
use std::thread::Threads;

// Sends a message of this kind. Where there is no room, the answer is the kind of the message that is handed back.
fn send(alloc: Global, first: &mut LinkIn, kind: u32, stamp: u64) -> Option<u32>
    requires small { stamp ≤ Stamped.GREATEST }
    ensures identity { identity_in first.new ≡ identity_in first.old }
{
    let fields = Fields::new(alloc);
    match first.push(Message { kind, fields }, stamp) {
        Ok(()) => None,
        Err(full) => Some(full.message.kind),
    }
}

// Whether the next message has this kind and this stamp.
fn gives(second: &mut LinkOut, kind: u32, stamp: u64) -> bool
    ensures identity { identity_out second.new ≡ identity_out second.old }
{
    match second.take() {
        Some(taken) => taken.message.kind == kind && taken.stamp == stamp,
        None => false,
    }
}

fn gives_nothing(second: &mut LinkOut) -> bool {
    second.take().is_none()
}

// What is taken where the ends have met and nothing waits.
fn taken_from_nothing(link: &mut LinkOut) -> Option<Stamped>
    requires met { has_met link.old ≡ true }
    requires none { waiting link.old ≡ [] }
    ensures none { result ≡ None }
{
    link.take()
}

// Whether the two ends meet with nothing between them.
fn meet_empty(first: &mut LinkIn, second: &mut LinkOut) -> bool
    requires one { identity_in first.old ≡ identity_out second.old }
{
    meet(first, second) == 0 && taken_from_nothing(second).is_none()
}

fn a_link_of_capacity_1(alloc: Global) -> Result<bool, NoMemory> {
    let (mut first, mut second) = link(alloc, 1)?;
    let sent = send(alloc, &mut first, 3, 5);
    let refused = send(alloc, &mut first, 4, 6);
    let given = gives(&mut second, 3, 5);
    let empty = meet_empty(&mut first, &mut second);
    let again = send(alloc, &mut first, 4, 6);
    Ok(sent == None && refused == Some(4) && given && empty && again == None)
}

fn messages_come_in_order(alloc: Global) -> Result<bool, NoMemory> {
    let (mut first, mut second) = link(alloc, 4)?;
    let early = gives_nothing(&mut second);
    send(alloc, &mut first, 0, 7);
    send(alloc, &mut first, 1, 8);
    let one = gives(&mut second, 0, 7);
    let two = gives(&mut second, 1, 8);
    let late = gives_nothing(&mut second);
    Ok(early && one && two && late)
}

#[test]
fn messages_wait_as_far_as_there_is_room(rt: HostRuntime) -> Result<(), Fail> {
    let alloc = rt.alloc();
    let full = a_link_of_capacity_1(alloc)?;
    let ordered = messages_come_in_order(alloc)?;
    assert!(rt; full && ordered);
    Ok(())
}

// Sends a message with each of these stamps, as far as there is room, and counts them.
fn send_often(alloc: Global, mut first: LinkIn) -> (u64, LinkIn)
    ensures { identity_in result.1 ≡ identity_in first }
{
    let mut sent = 0u64;
    for stamp in 0..10000u64 {
        if send(alloc, &mut first, 0, stamp).is_none() {
            sent = sent.saturating_add(1);
        }
    }
    (sent, first)
}

// Takes what comes, and counts it. The last number is 0 where the stamps rose.
fn take_often(mut second: LinkOut) -> (u64, u64, LinkOut)
    ensures { identity_out result.2 ≡ identity_out second }
{
    let (mut taken, mut least, mut faults) = (0u64, 0u64, 0u64);
    for _ in 0..10000 {
        if let Some(stamped) = second.take() {
            if stamped.stamp < least {
                faults = faults.saturating_add(1);
            }
            least = stamped.stamp.saturating_add(1);
            taken = taken.saturating_add(1);
        }
    }
    (taken, faults, second)
}

fn on_two_threads<R: Threads + Sync>(
    rt: &R,
    alloc: Global,
    first: LinkIn,
    second: LinkOut,
) -> ((u64, LinkIn), (u64, u64, LinkOut))
    ensures first { identity_in result.0.1 ≡ identity_in first }
    ensures second { identity_out result.1.2 ≡ identity_out second }
{
    thread::join(
        rt,
        move ||
            ensures { identity_in result.1 ≡ identity_in first }
        { send_often(alloc, first) },
        move ||
            ensures { identity_out result.2 ≡ identity_out second }
        { take_often(second) },
    )
}

fn no_message_is_lost<R: Threads + Sync>(rt: &R, alloc: Global) -> Result<bool, NoMemory> {
    let (first, second) = link(alloc, 16)?;
    let ((sent, mut first), (taken, faults, mut second)) = on_two_threads(rt, alloc, first, second);
    let waiting = meet(&mut first, &mut second);
    Ok(faults == 0 && sent >= 16 && taken.checked_add(waiting) == Some(sent))
}

#[test]
fn two_threads_lose_no_message(rt: HostRuntime) -> Result<(), Fail> {
    let kept = no_message_is_lost(&rt, rt.alloc())?;
    assert!(rt; kept);
    Ok(())
}
