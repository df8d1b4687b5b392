//! A mailbox: the recorded arrivals, the unconsumed numbers and the late counts.
ghost use Rattle.std.specs.Prelude.{◌≡◌, ◌+◌, ◌<◌, ◌≤◌, ◌∷◌, [], ◌++◌, ◌-◌, true, All, IfOk, OnOk, Some, length, option_map, slice_get};
ghost use Rattle.join_base.specs.Stamps.{greatest_stamp};
ghost use Rattle.join_base.specs.Late.{HasCount, late_count, late_counts, late_more};
ghost use Rattle.join_base.specs.Taken.{contains_number, without};
ghost use Rattle.mailbox_core.specs.Inside.{last_stamp};
ghost use Rattle.mailbox_core.specs.Mail.{IsRecorded, IsSound, latest, recorded_messages, postmarks_of, no_mail, source_in, with_arrival, with_late, with_live, without_last};

use crate::late::LateCounts;
use crate::live::LiveNumbers;
use join_base::{Items, Message, NoMemory, Numbers, Source};
use std::alloc::Global;
use std::marker::Model;

/// What is recorded beside a message: its source, its own stamp, and the stamp that it carried. Both have 32 bits at
/// most.
#[derive(Clone, Copy, PartialEq, Eq, Debug)]
pub struct Postmark {
    pub source: Source,
    pub stamp: u32,
    pub came: u32,
}

// Each arrival has one.
const _: () = prove!(size_of::<Postmark>() == 16);

/// The arrivals of an actor, which are numbered from 1.
#[derive(Drop)]
pub struct Mailbox {
    messages: Vec<Message>,
    // The mark of each message.
    marks: Vec<Postmark>,
    live: LiveNumbers,
    late: LateCounts,
}

impl Model for Mailbox {
    ghost use Rattle.mailbox_core.specs.Mail.{HeldMail};
    ghost use Rattle.mailbox_core.specs.Inside.{held_of, IsKept};

    ghost Value = { HeldMail };

    ghost view = { held_of };

    ghost invariant = { IsKept };
}

/// What a mailbox had. The messages and the marks are as many, and belong together by their places.
#[derive(Drop)]
pub struct Parts {
    pub messages: Items<Message>,
    pub marks: Items<Postmark>,
    /// The unconsumed numbers, ascending.
    pub left: Items<u32>,
    /// The late counts above 0, those of the feeds first.
    pub late: Items<(Source, u64)>,
}

impl Mailbox {
    /// A mailbox without an arrival, of an actor that has so many feeds and actors as sources.
    pub fn new(alloc: Global, feeds: u32, actors: u32) -> Result<Mailbox, NoMemory>
        ensures empty { IfOk result (λ m. m.mail ≡ no_mail feeds actors) }
    {
        let late = LateCounts::new(alloc, feeds, actors)?;
        Ok(Mailbox {
            messages: Vec::new(alloc),
            marks: Vec::new(alloc),
            live: LiveNumbers::new(alloc),
            late,
        })
    }

    /// Makes room for one more arrival.
    pub fn reserve_one(&mut self) -> Result<(), NoMemory>
        ensures ok { OnOk result (1 ≤ self.new.room) }
        ensures same { self.new.mail ≡ self.old.mail }
        ensures kept { self.old.room ≤ self.new.room }
    {
        self.messages.reserve(1)?;
        self.marks.reserve(1)?;
        self.live.reserve_one()
    }

    /// Records a message with its source, a stamp of its own and the one that it carried, `came`. It gives the number,
    /// which is unconsumed. It takes no memory.
    pub fn append(&mut self, source: Source, message: Message, came: u64) -> u32
        requires room { 1 ≤ self.old.room }
        requires few { length self.old.mail.arrivals < 1000000 }
        requires came { came < greatest_stamp }
        requires latest { latest self.old.mail.arrivals < greatest_stamp }

        ensures recorded { self.new.mail ≡ with_arrival self.old.mail source message came }
        ensures number { result ≡ length self.old.mail.arrivals + 1 }
        ensures room { self.old.room ≤ self.new.room + 1 }
    {
        let stamp = latest_stamp(&self.marks).max(came) + 1;
        let mark = Postmark {
            source,
            stamp: stamp as u32,
            came: came as u32,
        };
        self.messages.push(message).unwrap();
        self.marks.push(mark).unwrap();
        self.live.push()
    }

    /// Takes the last arrival back, which is unconsumed. It leaves its place spare.
    pub fn retract_last(&mut self) -> Message
        requires last { contains_number self.old.mail.live (length self.old.mail.arrivals) ≡ true }

        ensures message { recorded_messages self.old.mail.arrivals ≡ recorded_messages self.new.mail.arrivals
            ++ result ∷ [] }
        ensures retracted { self.new.mail ≡ without_last self.old.mail }
        ensures room { 1 ≤ self.new.room }
    {
        self.live.pop();
        self.marks.pop();
        self.messages.pop().unwrap()
    }

    /// Takes the numbers out of the unconsumed ones.
    pub fn consume(&mut self, numbers: &Numbers)
        requires recorded { All (IsRecorded self.old.mail.arrivals) numbers.now }

        ensures consumed { self.new.mail ≡ with_live self.old.mail (without self.old.mail.live numbers.now) }
        ensures room { self.new.room ≡ self.old.room }
    {
        self.live.remove_all(numbers.as_slice());
    }

    /// Consumes all arrivals.
    pub fn clear(&mut self)
        ensures cleared { self.new.mail ≡ with_live self.old.mail [] }
        ensures room { self.new.room ≡ self.old.room }
    {
        self.live.clear();
    }

    /// Counts one more message of a source as late. A count at the last 64-bit number stays.
    pub fn add_late(&mut self, source: Source)
        requires exists { HasCount self.old.mail.late source }

        ensures late { self.new.mail ≡ with_late self.old.mail (late_more self.old.mail.late source) }
        ensures room { self.new.room ≡ self.old.room }
    {
        self.late.add(source);
    }

    /// The recorded messages: arrival n stands at place n - 1.
    pub fn messages(&self) -> &[Message]
        ensures messages { result.now ≡ recorded_messages self.now.mail.arrivals }
        ensures sound { IsSound self.now.mail }
    {
        self.live.law();
        self.messages.as_slice()
    }

    /// The source of an arrival.
    pub fn source_of(&self, number: u32) -> Source
        requires recorded { IsRecorded self.now.mail.arrivals number }
        ensures source { option_map source_in (slice_get self.now.mail.arrivals (number - 1)) ≡ Some result }
    {
        self.marks[(number - 1) as usize].source
    }

    /// Whether there is an arrival of this number and it is unconsumed.
    pub fn is_live(&self, number: u32) -> bool
        ensures { result ≡ contains_number self.now.mail.live number }
    {
        self.live.contains(number)
    }

    /// How many messages of a source were late.
    pub fn late(&self, source: Source) -> u64
        requires exists { HasCount self.now.mail.late source }
        ensures { result ≡ late_count self.now.mail.late source }
    {
        self.late.count(source)
    }

    /// The last arrival's own stamp, or 0.
    pub fn latest(&self) -> u64
        ensures latest { result ≡ latest self.now.mail.arrivals }
        ensures small { result ≤ greatest_stamp }
    {
        latest_stamp(&self.marks)
    }

    /// All that the mailbox had. It takes no memory.
    pub fn into_parts(self) -> Parts
        ensures messages { result.messages ≡ recorded_messages self.mail.arrivals }
        ensures marks { result.marks ≡ postmarks_of self.mail.arrivals }
        ensures left { result.left ≡ self.mail.live }
        ensures late { result.late ≡ late_counts self.mail.late }
        ensures sound { IsSound self.mail }
    {
        self.live.law();
        let Mailbox {
            messages,
            marks,
            live,
            late,
        } = self;
        Parts {
            messages: Items::from_vec(messages),
            marks: Items::from_vec(marks),
            left: live.into_items(),
            late: late.into_items(),
        }
    }
}

// The stamp of the last mark, or 0.
fn latest_stamp(marks: &[Postmark]) -> u64
    ensures { result ≡ last_stamp 0 marks.now }
{
    match marks.last() {
        None => 0,
        Some(mark) => u64::from(mark.stamp),
    }
}
