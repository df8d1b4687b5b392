//! Values, messages, assignments, lists, texts, quoting, and the outside: what every layer speaks of.
//!
//! - **Lists**: `Items<T>` is seen as a list, and its calls do what they do on one.
//! - **Texts**: `Bytes`, `BoundedText`, `Name` and `Word` are seen as their bytes. A `BoundedText` is UTF-8, of at most
//!   120 bytes as `Text` and 1,920 as `Line`, and a `Name` is no keyword: that is part of the type, and `bytes` tells
//!   it. A short text stands in place.
//! - **Messages**: `Value`, `Fields` (at most 8 values, up to three integers or one text in place), `ValueRef`,
//!   `Message`, `Stamped`, `Source`; `recorded_message` is the message of an arrival number.
//! - **Assignments**: `Slots` and `Numbers`, which take no memory, are seen as lists of at most 8. `Steps` counts
//!   without memory.
//! - **Quoting**: `write_quoted` and `read_quoted` are exact for the quoted form; by `quoted_law` none begins another.
//! - **Integers**: `read_integer` and `write_number`, in decimal.
//! - **The outside**: the traits `Inputs` and `Sink`, with `MemoryInputs` and `MemorySink` over memory.
//!
//! Only tested: that calls succeed where memory is ample.
#![tactic(auto)]

mod fields;
mod integer;
mod items;
mod memory;
mod message;
mod outside;
mod quoted;
mod slots;
mod steps;
mod stored;
mod text;

pub use fields::{Fields, PushFault, ValueRef};
pub use integer::{read_integer, write_number};
pub use items::{Items, NoMemory};
pub use memory::{MemoryInputs, MemorySink};
pub use message::{
    FeedList, Message, MessageList, Posts, Relation, Sort, Source, Stamped, Value, recorded_message,
};
pub use outside::{Failed, FetchFault, Inputs, Sink};
pub use quoted::{
    QuoteFault, quoted_law, quoted_or_none, read_quoted, read_quoted_text, write_quoted,
};
pub use slots::{Numbers, Slots};
pub use steps::Steps;
pub use text::{BoundedText, Bytes, Line, Name, Text, TextFault, Word, WordList, byte_at};
