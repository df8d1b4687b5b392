//! Why a log was not read.
use thiserror::Error;

/// Why a log was not read.
#[derive(Clone, Copy, PartialEq, Eq, Debug, Error)]
pub enum LogFault {
    /// The bytes are the log of no run of the plan. Lines are counted from 1.
    #[error("line {line} may not stand there")]
    Bad { line: u64 },
    /// There was no memory. Nothing is said of the bytes.
    #[error("out of memory")]
    NoMemory,
}
