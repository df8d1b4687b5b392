//! What a run shows.
ghost use Rattle.std.specs.Prelude.{◌≡◌, ◌==◌, not, None, Some, MatchOption};
ghost use Rattle.fair_semantics.specs.Fits.{IsFrom1To};

use join_base::{Items, Line, Message, Numbers, Source, Value};
use std::marker::Model;

/// The limits of each actor of a run, both from 1 to 1,000,000.
#[derive(Clone, Copy, PartialEq, Eq, Debug)]
pub struct Limits {
    /// How many arrivals an actor records at most.
    pub arrivals: u32,
    /// How many partial matches an actor keeps at most, counted over all its definitions.
    pub partials: u64,
}

/// How one arrival came out.
#[derive(Clone, Copy, PartialEq, Eq, Debug)]
pub enum Outcome {
    /// The choice fired.
    Fired,
    /// No match was complete, and the message was recorded and waits.
    Kept,
    /// The actor had ended, and the message was counted as late.
    Late,
    /// The message was recorded, and the actor ended: it would have kept too many partial matches.
    Jammed,
    /// The actor was full, the message did not fit, or no stamp was left: the actor ended, and the message was counted
    /// as late.
    Spent,
}

/// Whether an actor still runs, or how it ended.
#[derive(Clone, Copy, PartialEq, Eq, Debug)]
pub enum Ending {
    Running,
    Stopped,
    Jammed,
    Spent,
}

/// What a body did.
#[derive(Drop)]
pub enum Effect {
    Print(Line),
    /// A message for an actor, which is counted from 0.
    Post { target: u32, message: Message },
    /// A value for whoever sent the arrival with this number.
    Reply { number: u32, value: Value },
}

/// The match that fired at an arrival.
#[derive(Drop)]
pub struct Firing {
    /// The number of the definition, from 1.
    pub rule: u32,
    /// The arrival numbers that it took, in pattern order.
    pub taken: Numbers,
    /// What the body did, in order.
    pub effects: Items<Effect>,
}

/// The firing of an arrival, or none. A clause sees an optional firing.
///
/// It stands in a block of its own: many arrivals fire nothing, and then it takes the room of two words.
#[derive(Drop)]
pub struct Fired {
    firing: Option<Box<Firing>>,
}

impl Model for Fired {
    ghost use Rattle.std.specs.Prelude.{Option};
    ghost use Rattle.fair_semantics.specs.declared.run.Firing.{Firing as OneFiring};
    ghost use Rattle.fair_semantics.specs.Fired.{unboxed};

    ghost Value = { Option OneFiring };

    ghost view = { λ a. unboxed a.firing };
}

impl Fired {
    /// No firing.
    pub fn none() -> Fired
        ensures none { result ≡ None }
    {
        Fired { firing: None }
    }

    /// The firing in this block.
    pub fn from_box(firing: Box<Firing>) -> Fired
        ensures firing { result ≡ Some firing.value }
    {
        Fired {
            firing: Some(firing),
        }
    }

    /// The firing, where there is one.
    #[inline]
    pub fn get(&self) -> Option<&Firing>
        ensures same { MatchOption result (self.now ≡ None) (λ firing. self.now ≡ Some firing.now) }
    {
        match &self.firing {
            None => None,
            Some(boxed) => Some(&**boxed),
        }
    }
}

/// A recorded arrival.
#[derive(Drop)]
pub struct Entry {
    /// The arrival number, from 1.
    pub number: u32,
    pub source: Source,
    pub message: Message,
    /// 1 more than the greater of the arrival's before it, or 0, and the one that the message carried.
    /// In a plain run it is 0.
    pub stamp: u64,
    pub firing: Fired,
}

/// The run of one actor.
#[derive(Drop)]
pub struct ActorRun {
    /// The arrivals in order.
    pub entries: Items<Entry>,
    /// The late counts above 0: those of the feeds, and then those of the actors.
    pub late: Items<(Source, u64)>,
    pub ending: Ending,
    /// The arrival numbers that were not consumed, ascending.
    pub left: Items<u32>,
    /// The number of partial matches over all definitions.
    pub partials: u64,
}

// Whether the arrivals of a log have stamps.
#[derive(Clone, Copy, PartialEq, Eq, Debug)]
enum Form {
    Plain,
    Stamped,
}

/// The version of a run and of its log. A clause sees the number in the log's first line.
///
/// A plain run, `joinlog 1`, has no stamps and no replies. In a stamped one, `joinlog 2`, each arrival has a stamp, and
/// a firing may have replies.
#[derive(Clone, Copy, PartialEq, Eq, Debug)]
pub struct LogVersion {
    form: Form,
}

impl Model for LogVersion {
    ghost use Rattle.std.specs.Prelude.{ℕ};

    ghost Value = { ℕ };

    ghost use Rattle.fair_semantics.specs.Version.{version_number, version_form, version_form-number};

    ghost view = { λ v. version_number v.form };

    ghost inverse = { λ number. record { form = version_form number } };

    ghost inverse_ok = { λ v h i. record { form = version_form-number v.form i } };
}

impl LogVersion {
    /// The version without stamps and replies.
    #[inline]
    pub fn plain() -> LogVersion
        ensures { result ≡ 1 }
    {
        LogVersion { form: Form::Plain }
    }

    /// The version with stamps, and with the replies of the firings.
    #[inline]
    pub fn stamped() -> LogVersion
        ensures { result ≡ 2 }
    {
        LogVersion {
            form: Form::Stamped,
        }
    }

    /// The version that a first line names by its number.
    #[inline]
    pub fn numbered(number: u32) -> LogVersion
        requires { IsFrom1To 2 number }
        ensures { result ≡ number }
    {
        if number == 1 {
            LogVersion::plain()
        } else {
            LogVersion::stamped()
        }
    }

    /// The number in the first line of a log.
    #[inline]
    pub fn number(self) -> u32
        ensures { result ≡ self }
    {
        match self.form {
            Form::Plain => 1,
            Form::Stamped => 2,
        }
    }

    /// Whether each arrival has a stamp: the definitions ask whether the version is not 1.
    #[inline]
    pub fn has_stamps(self) -> bool
        ensures { result ≡ not (self == 1) }
    {
        self.form == Form::Stamped
    }

    /// Whether a firing may have replies: the definitions ask whether the version is 2.
    #[inline]
    pub fn has_replies(self) -> bool
        ensures { result ≡ (self == 2) }
    {
        self.form == Form::Stamped
    }
}

/// The run of a plan.
#[derive(Drop)]
pub struct Run {
    pub version: LogVersion,
    pub limits: Limits,
    /// How many feeds there were, from 1 to 16.
    pub feeds: u32,
    /// The runs of the actors, in order of declaration.
    pub actors: Items<ActorRun>,
}
