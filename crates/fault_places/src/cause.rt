//! The causes of refusals, by the names that the program writes.

/// Why a row is refused.
#[derive(Clone, Copy)]
pub enum RowCause {
    UnknownActor,
    UnknownMessage,
    WrongCount,
    BadInt,
    NotText,
    TooLong,
}

const ROW_CAUSES: &[(&[u8], RowCause)] = &[
    (b"UnknownActor", RowCause::UnknownActor),
    (b"UnknownMessage", RowCause::UnknownMessage),
    (b"WrongCount", RowCause::WrongCount),
    (b"BadInt", RowCause::BadInt),
    (b"NotText", RowCause::NotText),
    (b"TooLong", RowCause::TooLong),
];

/// The cause of a row that has this name.
pub fn row_cause(name: &[u8]) -> Option<RowCause> {
    for (known, cause) in ROW_CAUSES {
        if *known == name {
            return Some(*cause);
        }
    }
    None
}

/// Why a line of a log is refused.
#[derive(Clone, Copy)]
pub enum LogCause {
    LogFault,
    Differs,
}

/// The cause of a line of a log that has this name.
pub fn log_cause(name: &[u8]) -> Option<LogCause> {
    if name == b"LogFault".as_slice() {
        Some(LogCause::LogFault)
    } else if name == b"Differs".as_slice() {
        Some(LogCause::Differs)
    } else {
        None
    }
}
