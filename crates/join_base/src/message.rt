//! What actors send each other.
ghost use Rattle.std.specs.Prelude.{◌≡◌, ◌-◌, ◌≤◌, length, IfOk, slice_get, Some};

use crate::fields::Fields;
use crate::items::{Items, NoMemory};
use crate::text::Text;
use std::alloc::Global;

/// A field of a message.
#[derive(Drop)]
pub enum Value {
    Int(i64),
    Words(Text),
}

impl Value {
    pub fn copy(&self, alloc: Global) -> Result<Value, NoMemory>
        ensures equal { IfOk result (λ v. v ≡ self.now) }
    {
        match self {
            Value::Int(n) => Ok(Value::Int(*n)),
            Value::Words(text) => Ok(Value::Words(text.copy(alloc)?)),
        }
    }
}

/// A message of a kind, with its fields.
#[derive(Drop)]
pub struct Message {
    pub kind: u32,
    pub fields: Fields,
}

impl Message {
    pub fn copy(&self, alloc: Global) -> Result<Message, NoMemory>
        ensures equal { IfOk result (λ m. m ≡ self.now) }
    {
        Ok(Message {
            kind: self.kind,
            fields: self.fields.copy(alloc)?,
        })
    }
}

/// A message with the stamp that it carries: that of the arrival whose body sent it, or 0 where it is from a feed.
#[derive(Drop)]
pub struct Stamped {
    pub message: Message,
    /// At most `Stamped::GREATEST`.
    pub stamp: u64,
}

impl Stamped {
    /// The greatest stamp that there is.
    pub const GREATEST: u64 = 4294967295;

    pub fn copy(&self, alloc: Global) -> Result<Stamped, NoMemory>
        ensures equal { IfOk result (λ s. s ≡ self.now) }
    {
        Ok(Stamped {
            message: self.message.copy(alloc)?,
            stamp: self.stamp,
        })
    }
}

/// Where a message came from: a feed counted from 1, or an actor counted from 0.
#[derive(Clone, Copy, PartialEq, Eq, Debug)]
pub enum Source {
    Feed(u32),
    Actor(u32),
}

/// What a field holds.
#[derive(Clone, Copy, PartialEq, Eq, Debug)]
pub enum Sort {
    Int,
    Words,
}

/// How two operands are compared.
#[derive(Clone, Copy, PartialEq, Eq, Debug)]
pub enum Relation {
    Equal,
    NotEqual,
    Less,
    LessEqual,
    Greater,
    GreaterEqual,
}

/// The recorded messages of an actor, as a list of their own. Arrival n is the message at place n - 1.
pub type MessageList = Items<Message>;

/// The message of an arrival.
pub fn recorded_message(messages: &[Message], number: u32) -> &Message
    requires some { 1 ≤ number }
    requires within { number ≤ length messages.now }
    ensures item { slice_get messages.now (number - 1) ≡ Some result.now }
{
    &messages[(number - 1) as usize]
}

/// Messages, each with the actor that it is for.
pub type Posts = Items<(u32, Message)>;

/// The posts of each feed.
pub type FeedList = Items<Posts>;
