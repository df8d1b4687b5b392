//! Why the words and the files come to no plan and no run.
use join_base::NoMemory;
use script_reader::{ScriptCause, ScriptFault};
use sensor_feed::FeedCause;

/// Why a line of a log is refused.
#[derive(Clone, Copy, PartialEq, Eq, Debug)]
pub enum LogCause {
    /// The text is the log of no run of the plan, and the line may not stand where it stands.
    Bad,
    /// The line is not that of what the actors do with the arrivals.
    Differs,
}

/// What is refused. The files are numbered by their place among the words: the script is 1, feed K is K + 1,
/// and a log is 2.
#[derive(Clone, Copy, PartialEq, Eq, Debug)]
pub enum Refusal {
    /// The file of this number has too many bytes.
    TooLong(u32),
    /// The script has this fault.
    Script {
        place: u64,
        cause: ScriptCause,
    },
    /// The record of this number in the feed of this number is in fault.
    Feed {
        feed: u32,
        row: u64,
        cause: FeedCause,
    },
    /// The line of this number is the first in fault.
    Log {
        line: u64,
        cause: LogCause,
    },
}

/// Why there is no reply.
#[derive(Clone, Copy, PartialEq, Eq, Debug)]
pub enum Stop {
    Refused(Refusal),
    /// A file could not be read.
    ReadFault,
    NoMemory,
}

impl From<NoMemory> for Stop {
    ghost use Rattle.std.specs.Prelude.{◌≡◌};
    ghost use Rattle.script_files.specs.declared.stop.Stop.TheVariants.{NoMemory};

    ghost from_gives = { λ _ e. e ≡ NoMemory };

    fn from(_: NoMemory) -> Stop {
        Stop::NoMemory
    }
}

impl From<ScriptFault> for Stop {
    ghost use Rattle.std.specs.Prelude.{◌≡◌};
    ghost use Rattle.script_files.specs.Loading.{script_stop};

    ghost from_gives = { λ fault e. e ≡ script_stop fault };

    fn from(fault: ScriptFault) -> Stop {
        match fault {
            ScriptFault::Bad { place, cause } => Stop::Refused(Refusal::Script { place, cause }),
            ScriptFault::NoMemory => Stop::NoMemory,
        }
    }
}
