//! Why a log is not that of some feeds.
use log_replay::LogRefusal;

/// Where a log and its feeds differ first.
#[derive(Clone, Copy, PartialEq, Eq, Debug)]
pub struct Difference {
    /// The line of the log, from 1 on: an arrival that is not the next row of its feed, or the end of an actor of which
    /// the log has more or fewer late messages of a feed than the feed has rows left.
    pub line: u64,
    /// The feed, from 1 on.
    pub feed: u32,
    /// The next row of that feed for the actor, from 1 on among all rows of the feed. `None` where no row is left.
    pub row: Option<u64>,
}

/// Why a log is not that of some feeds.
#[derive(Clone, Copy, PartialEq, Eq, Debug)]
pub enum AuditRefusal {
    /// `check_log` refuses the log by itself, or there was no memory.
    Log(LogRefusal),
    /// The log is accepted by itself, and its first line has this number of feeds, and not that of the feeds given.
    Feeds(u32),
    /// The log is accepted by itself and has as many feeds, and this is the first line that is not that of the feeds.
    Row(Difference),
}
