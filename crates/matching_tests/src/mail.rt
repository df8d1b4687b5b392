ghost use Rattle.std.specs.Prelude.{◌≡◌, ◌<◌, IfOk};
ghost use Rattle.join_base.specs.Stamps.{greatest_stamp};
ghost use Rattle.mailbox_core.specs.Mail.{no_mail};

use join_base::{Fields, Message, NoMemory, Numbers, Source, Stamped};
use mailbox_core::{Mailbox, Parts};
use std::alloc::Global;
use std::test::Fail;

// A mailbox of an actor with two feeds and one actor as sources.
fn empty(alloc: Global) -> Result<Mailbox, NoMemory>
    ensures { IfOk result (λ m. m.mail ≡ no_mail 2 1) }
{
    let mailbox = Mailbox::new(alloc, 2, 1)?;
    Ok(mailbox)
}

// Makes room for a message and records it.
fn receive(
    alloc: Global,
    mailbox: &mut Mailbox,
    source: Source,
    kind: u32,
    came: u64,
) -> Result<u32, NoMemory>
    requires { came < greatest_stamp }
{
    mailbox.reserve_one()?;
    if mailbox.messages().len() >= 1000 || mailbox.latest() >= Stamped::GREATEST {
        return Err(NoMemory);
    }
    let fields = Fields::new(alloc);
    Ok(mailbox.append(source, Message { kind, fields }, came))
}

fn receive_three(alloc: Global, mailbox: &mut Mailbox) -> Result<(), NoMemory> {
    receive(alloc, mailbox, Source::Feed(1), 5, 0)?;
    receive(alloc, mailbox, Source::Actor(0), 6, 7)?;
    receive(alloc, mailbox, Source::Feed(2), 7, 3)?;
    Ok(())
}

// Three arrivals, of kinds 5, 6 and 7.
fn three(alloc: Global) -> Result<Mailbox, NoMemory> {
    let mut mailbox = empty(alloc)?;
    receive_three(alloc, &mut mailbox)?;
    Ok(mailbox)
}

// Which of the numbers from 0 to 4 are live.
fn live(mailbox: &Mailbox) -> [bool; 5] {
    [
        mailbox.is_live(0),
        mailbox.is_live(1),
        mailbox.is_live(2),
        mailbox.is_live(3),
        mailbox.is_live(4),
    ]
}

// Whether so many messages were recorded, this is the latest stamp, and these of the numbers from 0 to 4 are live.
fn has(mailbox: &Mailbox, recorded: usize, latest: u64, wanted: [bool; 5]) -> bool {
    mailbox.messages().len() == recorded && mailbox.latest() == latest && live(mailbox) == wanted
}

// Takes the last arrival back, if it is live, and gives its kind.
fn retract(mailbox: &mut Mailbox) -> Option<u32> {
    let last = mailbox.messages().len() as u32;
    if !mailbox.is_live(last) {
        return None;
    }
    Some(mailbox.retract_last().kind)
}

// Consumes the first and the third arrival.
fn consume_two(mailbox: &mut Mailbox) {
    if mailbox.messages().len() >= 3 {
        let mut numbers = Numbers::new();
        numbers.push(3);
        numbers.push(1);
        mailbox.consume(&numbers);
    }
}

// Whether the mailbox gives the message this number, and then has this latest stamp.
fn stamps(
    alloc: Global,
    mailbox: &mut Mailbox,
    source: Source,
    came: u64,
    number: u32,
    latest: u64,
) -> bool
    requires { came < greatest_stamp }
{
    receive(alloc, mailbox, source, number, came) == Ok(number) && mailbox.latest() == latest
}

// Whether a message of this kind is recorded at the place.
fn has_kind(mailbox: &Mailbox, place: usize, kind: u32) -> bool {
    match mailbox.messages().get(place) {
        Some(message) => message.kind == kind,
        None => false,
    }
}

#[test]
fn arrivals_are_numbered_and_stamped(rt: HostRuntime) -> Result<(), Fail> {
    let alloc = rt.alloc();
    let mut mailbox = empty(alloc)?;
    let all = has(&mailbox, 0, 0, [false; 5])
        && stamps(alloc, &mut mailbox, Source::Feed(1), 0, 1, 1)
        && stamps(alloc, &mut mailbox, Source::Actor(0), 7, 2, 8)
        && stamps(alloc, &mut mailbox, Source::Feed(2), 3, 3, 9)
        && has(&mailbox, 3, 9, [false, true, true, true, false]);
    assert!(rt; all && has_kind(&mailbox, 0, 1) && has_kind(&mailbox, 2, 3));
    Ok(())
}

#[test]
fn the_greatest_stamp_is_reached(rt: HostRuntime) -> Result<(), Fail> {
    let alloc = rt.alloc();
    let mut mailbox = empty(alloc)?;
    assert!(rt;
        stamps(
            alloc,
            &mut mailbox,
            Source::Actor(0),
            4294967294,
            1,
            Stamped::GREATEST
        )
    );
    Ok(())
}

#[test]
fn the_last_arrival_is_taken_back(rt: HostRuntime) -> Result<(), Fail> {
    let alloc = rt.alloc();
    let mut mailbox = three(alloc)?;
    let all = retract(&mut mailbox) == Some(7)
        && has(&mailbox, 2, 8, [false, true, true, false, false])
        && stamps(alloc, &mut mailbox, Source::Feed(1), 0, 3, 9)
        && has(&mailbox, 3, 9, [false, true, true, true, false]);
    assert!(rt; all);
    Ok(())
}

#[test]
fn consumed_numbers_are_no_longer_live(rt: HostRuntime) -> Result<(), Fail> {
    let alloc = rt.alloc();
    let mut mailbox = three(alloc)?;
    consume_two(&mut mailbox);
    let third = has(&mailbox, 3, 9, [false, false, true, false, false])
        && stamps(alloc, &mut mailbox, Source::Feed(1), 0, 4, 10)
        && has(&mailbox, 4, 10, [false, false, true, false, true]);
    mailbox.clear();
    let none = has(&mailbox, 4, 10, [false; 5])
        && stamps(alloc, &mut mailbox, Source::Feed(1), 0, 5, 11)
        && mailbox.is_live(5);
    assert!(rt; third && none);
    Ok(())
}

// Whether two late messages of the second feed and one of the actor are listed, and nothing is left.
fn are_late_listed(parts: &Parts) -> bool {
    parts.late.as_slice() == [(Source::Feed(2), 2), (Source::Actor(0), 1)].as_slice()
        && parts.left.len() == 0
}

#[test]
fn each_source_has_its_own_late_count(rt: HostRuntime) -> Result<(), Fail> {
    let mut mailbox = empty(rt.alloc())?;
    mailbox.add_late(Source::Feed(2));
    mailbox.add_late(Source::Feed(2));
    mailbox.add_late(Source::Actor(0));
    let counts = mailbox.late(Source::Feed(1)) == 0
        && mailbox.late(Source::Feed(2)) == 2
        && mailbox.late(Source::Actor(0)) == 1;
    let parts = mailbox.into_parts();
    assert!(rt; counts && are_late_listed(&parts));
    Ok(())
}

// Whether three arrivals are given, of which the second is left.
fn is_second_left(parts: &Parts) -> bool {
    let lists = parts.messages.len() == 3
        && parts.left.as_slice() == [2].as_slice()
        && parts.late.len() == 0;
    match parts.marks.as_slice() {
        [_, second, _] => {
            lists && second.source == Source::Actor(0) && second.stamp == 8 && second.came == 7
        }
        _ => false,
    }
}

#[test]
fn a_mailbox_gives_up_what_it_had(rt: HostRuntime) -> Result<(), Fail> {
    let mut mailbox = three(rt.alloc())?;
    consume_two(&mut mailbox);
    let parts = mailbox.into_parts();
    assert!(rt; is_second_left(&parts));
    Ok(())
}
