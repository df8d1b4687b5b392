//! How the program ends.
ghost use Rattle.std.specs.Prelude.{◌≡◌};
ghost use Rattle.join_command.specs.Numbers.{number_of};

/// The status of a call, whose number is the exit status of the program.
#[derive(Clone, Copy, PartialEq, Eq, Debug)]
pub enum Status {
    /// The output was written.
    Done,
    /// The output was written, and an actor met a limit.
    Limits,
    /// The words are no command.
    Usage,
    /// The script can't be read, or has a fault of names and types.
    ScriptRefused,
    /// A feed has a record in fault.
    FeedRefused,
    /// A line of the log is in fault.
    LogRefused,
    /// A file could not be read. Nothing was written.
    ReadFault,
    /// The output could not be written whole.
    WriteFault,
    /// There was no memory. Nothing was written.
    NoMemory,
    /// A file is too long.
    TooLong,
}

impl Status {
    /// The exit status: 0 for `Done`, and so on in their order to 9 for `TooLong`.
    pub fn number(self) -> u8
        ensures number { result ≡ number_of self }
    {
        self as u8
    }
}
