//! The arrivals of an actor, numbered in their order: what was recorded of each, which are unconsumed, and how many
//! messages of each source were late. Recorded are source, message, a stamp of its own, and the stamp that it carried.
//!
//! Only `Mailbox::new` and `reserve_one` take memory: after `reserve_one` one `append` can't fail. `retract_last` takes
//! the last arrival back, `consume` takes the numbers of a match out of the unconsumed ones and `clear` all, `add_late`
//! counts a late message. `messages`, `is_live`, `late` and `latest` read, and `into_parts` hands everything on. A
//! message is stored once. Each call takes constant time, `append` and `clear` on average and `consume` for each
//! number, but for `into_parts`.
//!
//! Contracts see a `HeldMail`: the mail, of which each call has one equation between old and new, and for how many
//! arrivals there is room. Times and sizes are not in the contracts. Tests make each call with ample memory.
#![tactic(auto)]

mod late;
mod live;
mod mailbox;

pub use mailbox::{Mailbox, Parts, Postmark};
