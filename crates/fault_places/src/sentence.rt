//! A sentence for each cause, and the list of commands.
use crate::cause::{LogCause, RowCause, log_cause, row_cause};

/// Each message of the program itself begins so. One on a place in a file begins with that.
pub const PROGRAM: &[u8] = b"joinactors: ";

/// The commands with their words, and the options of `run` with their ranges.
pub const USAGE: &[u8] = b"usage:
  run SCRIPT FEED.. [OPTION N]..    1 to 16 feeds
  ask SCRIPT FEED.. [OPTION N]..    as run, and then the answer for each row
  watch SCRIPT FEED.. [OPTION N]..  as run, and then the totals of each actor
  check SCRIPT
  lint SCRIPT
  replay SCRIPT LOG
  load N                            N from 1 to 20000
the options of run, ask and watch, each at most once:
  --workers N     1 to 64, usually 4
  --ring N        1 to 4096, usually 64
  --arrivals N    1 to 1000000, usually 50000
  --partials N    1 to 1000000, usually 65536
  --pool P        queue or steal, usually queue; for run alone
  --monitors N    1 to 8, usually 1; for watch alone
";

pub const NO_MEMORY: &[u8] = b"joinactors: there was not enough memory\n";

/// An actor that has ended takes nothing more, so a run that meets a limit goes on without it.
pub const LIMITS: &[u8] =
    b"joinactors: an actor ended at a limit, and what came to it later is counted as late
  end jammed: at --partials, end spent: at --arrivals
";

/// Why a row is refused for a cause.
pub fn row_sentence(cause: RowCause) -> &'static [u8] {
    match cause {
        RowCause::UnknownActor =>
            b"the first field is no actor's name (there is no line of headings, and blanks count)",
        RowCause::UnknownMessage => b"the second field is no message's name (blanks count)",
        RowCause::WrongCount =>
            b"the row has not as many fields as its message, or names no message",
        RowCause::BadInt =>
            b"a field of type int is not a whole number of 64 bits, written like 7 or -7 without blanks",
        RowCause::NotText => b"a field of type text is not UTF-8",
        RowCause::TooLong => b"a field of type text has more than 120 bytes",
    }
}

/// Why a row is refused, by the name of the cause.
pub fn feed_sentence(cause: &[u8]) -> &'static [u8] {
    match row_cause(cause) {
        Some(cause) => row_sentence(cause),
        None => b"refused",
    }
}

// Why this is no head of a log.
fn head_sentence(line: &[u8]) -> &'static [u8] {
    match line.strip_prefix(b"joinlog ".as_slice()) {
        None => b"a log begins with its head: joinlog 2 arrivals N partials N feeds N",
        Some([b'1' | b'2', b' ', ..]) => b"no log of this script goes on like this",
        Some(_) => b"logs of versions 1 and 2 are read",
    }
}

// Why this is no line of a log.
fn line_sentence(line: &[u8], number: u64, is_ended: bool) -> &'static [u8] {
    match line {
        _ if !is_ended => b"the log ends within this line",
        [.., b'\r'] => b"the line ends in a carriage return, and a log has none",
        _ if number == 1 => head_sentence(line),
        _ => b"no log of this script goes on like this",
    }
}

/// Why a line differs that should stand there as it is: it says something else of a post.
pub fn post_sentence(line: &[u8]) -> &'static [u8] {
    match line {
        [b'e', ..] => b"a message that an actor of this script posts to this one never arrives",
        _ => b"the actor that it comes from posts something else to this one, or nothing more",
    }
}

/// Why a line of a log is refused, and whether a line feed ends it.
pub fn log_sentence(cause: &[u8], line: &[u8], number: u64, is_ended: bool) -> &'static [u8] {
    match log_cause(cause) {
        Some(LogCause::LogFault) => line_sentence(line, number, is_ended),
        Some(LogCause::Differs) =>
            b"the actors of this script do something else with these arrivals",
        None => b"refused",
    }
}
