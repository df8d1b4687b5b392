//! The lines of a log.
use fair_semantics::{Effect, Ending, Limits, LogVersion};
use join_base::{Items, Message, Numbers, Source};

/// What the first line of a log says.
#[derive(Clone, Copy, PartialEq, Eq, Debug)]
pub struct Head {
    pub version: LogVersion,
    pub limits: Limits,
    /// How many feeds there were, from 1 to 16.
    pub feeds: u32,
}

/// What the line of an arrival says.
#[derive(Drop)]
pub struct Arrival {
    pub number: u32,
    /// 0 in a plain log.
    pub stamp: u64,
    pub source: Source,
    pub message: Message,
}

/// A line behind the first one.
#[derive(Drop)]
pub enum LogLine {
    /// The heading of an actor, which is counted from 0.
    Heading(u32),
    Arrives(Arrival),
    /// A firing, whose effects are lines of their own.
    Fires {
        rule: u32,
        taken: Numbers,
    },
    Does(Effect),
    /// How many messages of a source were late.
    IsLate(Source, u64),
    Ends {
        ending: Ending,
        left: Items<u32>,
        partials: u64,
    },
}
