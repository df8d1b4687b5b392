//! Why bytes are no script.
use join_base::NoMemory;
use thiserror::Error;

/// The cause of a refusal. A text that is read has one of the first three; the others are faults of its tree.
#[derive(Clone, Copy, PartialEq, Eq, Debug, Error)]
pub enum ScriptCause {
    /// The bytes are not UTF-8.
    #[error("not UTF-8")]
    NotText,
    /// No token begins there.
    #[error("no token begins here")]
    BadToken,
    /// No script goes on with this token, or the text ends too early.
    #[error("no script goes on like this")]
    BadSyntax,
    /// There are more actors, messages, fields, definitions, patterns, comparisons, leaves, statements or items than
    /// allowed.
    #[error("too many")]
    TooMany,
    /// The name was declared before.
    #[error("declared twice")]
    TwiceDeclared,
    /// No message has this name.
    #[error("no such message")]
    UnknownMessage,
    /// No actor has this name.
    #[error("no such actor")]
    UnknownActor,
    /// No variable of the definition has this name.
    #[error("no such variable")]
    UnknownName,
    /// The message has another number of fields.
    #[error("another number of fields")]
    WrongCount,
    /// An integer stands where a text has to, or the other way round.
    #[error("another type")]
    WrongType,
    /// A `stop` is not the last statement of its body.
    #[error("stop is not last")]
    StopNotLast,
    /// The number of a window is 0 or greater than 1,000,000.
    #[error("a window from 1 to 1000000 is wanted")]
    BadWindow,
    /// No pattern has the number of a reply, or an earlier reply of the body names the same pattern.
    #[error("no pattern to reply to")]
    BadReply,
}

/// Where a script is refused.
#[derive(Clone, Copy, PartialEq, Eq, Debug, Error)]
pub enum ScriptFault {
    #[error("at byte {place}: {cause}")]
    Bad { place: u64, cause: ScriptCause },
    #[error("out of memory")]
    NoMemory,
}

impl From<NoMemory> for ScriptFault {
    ghost use Rattle.std.specs.Prelude.{◌≡◌};
    ghost use Rattle.script_grammar.specs.declared.fault.ScriptFault.TheVariants.{NoMemory};

    ghost from_gives = { λ _ e. e ≡ NoMemory };

    fn from(_: NoMemory) -> ScriptFault {
        ScriptFault::NoMemory
    }
}
