//! The form of a log, and of what each change of it is to come to.
//!
//! Below each line stands a mark for each of its bytes. A `.` is a byte in whose place no other may stand: with another
//! the line is none. What else may stand in place of a byte is said by the rows of its mark.

use crate::answer::Answer;

/// What another byte comes to.
#[derive(Clone, Copy)]
pub enum Wanted {
    /// The log of another run, with so many arrivals.
    Accepted(u64),
    /// No log, by this line.
    Bad(u64),
    /// No log, by the next line.
    BadNext,
    /// A log that differs in this line.
    Differs(u64),
    /// A log that differs in the line that was changed.
    DiffersHere,
}

/// In place of a byte with this mark, these bytes come to this.
pub type MarkedByte = (u8, &'static [u8], Wanted);

/// A line with its marks, and what comes of the log where the line is dropped, stands twice, or stands behind the next
/// one.
#[derive(Clone, Copy)]
pub struct Line {
    pub text: &'static str,
    pub marks: &'static str,
    pub dropped: Answer,
    pub doubled: Answer,
    pub exchanged: Answer,
}

/// In place of the line of this number this text, and what comes of it.
pub type Replaced = (usize, &'static str, Answer);

/// In place of the line of this number this text.
pub type Other = (usize, &'static str);

/// What was read with one line changed, and what its expected run has in place of lines of the log.
pub type Expected = (Other, &'static [Other]);

/// A log of the script, which is accepted with so many arrivals.
#[derive(Clone, Copy)]
pub struct Log {
    pub name: &'static str,
    pub script: &'static str,
    pub arrivals: u64,
    pub lines: &'static [Line],
    pub marks: &'static [MarkedByte],
    pub replaced: &'static [Replaced],
    pub expected: &'static [Expected],
}

/// The digits of a number.
pub const DIGITS: &[u8] = b"0123456789";

/// The digits with which a number begins that is not 0.
pub const LEADING: &[u8] = b"123456789";

/// The bytes that stand for themselves in a quoted text.
pub const PLAIN: &[u8] =
    b" !#$%&'()*+,-./0123456789:;<=>?@ABCDEFGHIJKLMNOPQRSTUVWXYZ[]^_`abcdefghijklmnopqrstuvwxyz{|}~";
