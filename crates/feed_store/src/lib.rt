//! The posts of a feed: the first ones whole, and the others in little room.
//!
//! - `Feed` is seen as the list of its posts, each an actor's number and a message. `with_room` makes one that holds no
//!   post yet. `push` appends one, and without memory nothing changes. `into_parts` gives those that stand whole, and
//!   those behind them.
//! - `Packed` is a list of posts in little room, and `PackedReader` what is left of one.
//! - `FeedReader` is seen as the list of the posts that are left. `next` takes the first, and `next_target` passes over
//!   it.
//! - `packed` and `unpacked` lead from a list of posts to a feed and back, and `packed_all` and `unpacked_all` from the
//!   lists of several feeds.
//!
//! That the room is little is not part of a contract: 12 bytes a packed post, 2 a value, 8 an integer, and the bytes of
//! texts. Nor is it how many stand whole: some 3 MB of them.
//! Only tested: that calls succeed where memory is ample.
#![tactic(auto)]

mod feed;
mod feed_reader;
mod kept;
mod lists;
mod packed;
mod packed_reader;
mod reading;

pub use feed::{Feed, Feeds};
pub use feed_reader::FeedReader;
pub use lists::{packed_all, unpacked_all};
pub use packed::Packed;
pub use packed_reader::PackedReader;
