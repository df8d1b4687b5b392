//! Why a log was refused.

/// Why a log was refused. Lines are counted from 1.
#[derive(Clone, Copy, PartialEq, Eq, Debug)]
pub enum LogRefusal {
    /// The bytes are the log of no run of the plan, and this line may not stand where it stands.
    Bad { line: u64 },
    /// The bytes are the log of a run, and this is its first line in fault: it differs from that line of the log of the
    /// expected run, or says of a post what the expected run does not have.
    Differs { line: u64 },
    /// There was no memory. Nothing is said of the bytes.
    NoMemory,
}
