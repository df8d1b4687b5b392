//! The entries of a run.
ghost use Rattle.std.specs.Prelude.{◌≡◌, ◌+◌, ◌≤◌, [], OnOk, length, vec_capacity};
ghost use Rattle.mailbox_core.specs.Mail.{received_of};
ghost use Rattle.actor_turn.specs.Parts.{entries_of};

use crate::firings::Firings;
use crate::room::give_room_back;
use fair_semantics::{Entry, Fired};
use join_base::{Items, Message, NoMemory};
use mailbox_core::Postmark;
use std::alloc::Global;

// From so many arrivals on, room for entries is grown. Less is made anew, since an empty vector has nothing to move. A
// large block moves without its bytes, and where it were let go of, the allocator would no longer give later blocks of
// its size back.
const GROWN: usize = 1024;

/// Makes room for what one more arrival fires, and for the entries of all of them. It may leave room where there is no
/// memory.
pub fn reserve_entry(
    alloc: Global,
    firings: &mut Firings,
    entries: &mut Vec<Entry>,
    arrivals: usize,
) -> Result<(), NoMemory>
    requires few { arrivals ≤ 1000000 }
    requires empty { entries.old.items ≡ [] }

    ensures firings { firings.new.items ≡ firings.old.items }
    ensures one { OnOk result (length firings.new.items + 1 ≤ firings.new.room) }
    ensures entries { entries.new.items ≡ [] }
    ensures room { OnOk result (arrivals + 1 ≤ vec_capacity entries.new) }
    ensures kept { vec_capacity entries.old ≤ vec_capacity entries.new }
{
    firings.reserve_one()?;
    if entries.capacity() > arrivals {
        return Ok(());
    }
    if arrivals < GROWN {
        *entries = Vec::with_capacity(alloc, 2 * arrivals + 4)?;
    } else {
        entries.reserve(2 * arrivals)?;
    }
    Ok(())
}

/// The entries of messages, their marks and what they fired, put into the room that was made for them. It takes no
/// memory, and gives back the room of the three lists as they grow shorter.
pub fn into_entries(
    messages: Items<Message>,
    marks: Items<Postmark>,
    firings: Vec<Fired>,
    room: Vec<Entry>,
) -> Items<Entry>
    requires marked { length marks ≡ length messages }
    requires fired { length firings.items ≡ length messages }
    requires few { length messages ≤ 1000000 }
    requires empty { room.items ≡ [] }
    requires room { length messages ≤ vec_capacity room }

    ensures { result ≡ entries_of 1 (received_of messages marks) firings.items }
{
    let mut messages = messages.into_vec();
    let mut marks = marks.into_vec();
    let mut firings = firings;
    let mut entries = room;
    while let Some(message) = messages.pop() {
        let mark = marks.pop().unwrap();
        let firing = firings.pop().unwrap();
        let number = messages.len() as u32 + 1;
        let entry = Entry {
            number,
            source: mark.source,
            message,
            stamp: u64::from(mark.stamp),
            firing,
        };
        entries.push(entry).unwrap();
        give_room_back(&mut messages);
        give_room_back(&mut marks);
        give_room_back(&mut firings);
    }
    entries.reverse();
    entries.shrink_to_fit();
    Items::from_vec(entries)
}
