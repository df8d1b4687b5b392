//! The causes for which a script is refused, by the names that the program writes.

/// Why a script is refused.
#[derive(Clone, Copy)]
pub enum Cause {
    NotText,
    BadToken,
    BadSyntax,
    TooMany,
    TwiceDeclared,
    UnknownMessage,
    UnknownActor,
    UnknownName,
    WrongCount,
    WrongType,
    StopNotLast,
    BadWindow,
    BadReply,
}

const CAUSES: &[(&[u8], Cause)] = &[
    (b"NotText", Cause::NotText),
    (b"BadToken", Cause::BadToken),
    (b"BadSyntax", Cause::BadSyntax),
    (b"TooMany", Cause::TooMany),
    (b"TwiceDeclared", Cause::TwiceDeclared),
    (b"UnknownMessage", Cause::UnknownMessage),
    (b"UnknownActor", Cause::UnknownActor),
    (b"UnknownName", Cause::UnknownName),
    (b"WrongCount", Cause::WrongCount),
    (b"WrongType", Cause::WrongType),
    (b"StopNotLast", Cause::StopNotLast),
    (b"BadWindow", Cause::BadWindow),
    (b"BadReply", Cause::BadReply),
];

/// The cause of this name.
pub fn cause_named(name: &[u8]) -> Option<Cause> {
    for (known, cause) in CAUSES {
        if *known == name {
            return Some(*cause);
        }
    }
    None
}

/// Why a script is refused for a cause, where it can't be shown.
pub fn cause_sentence(cause: Cause) -> &'static [u8] {
    match cause {
        Cause::NotText => b"from here on the file is not UTF-8",
        Cause::BadToken => b"no word, number, text or sign begins here, or it is too long",
        Cause::BadSyntax => b"a script doesn't go on like this",
        Cause::TooMany => b"this is one more than the limit",
        Cause::TwiceDeclared => b"there is an earlier declaration of the name that stands here",
        Cause::UnknownMessage => b"no message has the name that stands here",
        Cause::UnknownActor => b"no actor has the name that stands here",
        Cause::UnknownName => b"no variable of this definition has the name that stands here",
        Cause::WrongCount => b"the number of fields is not that of the message that is named here",
        Cause::WrongType => b"an int stands where a text is wanted, or a text where an int is",
        Cause::StopNotLast => b"stop has to be the last statement of its body",
        Cause::BadWindow => b"the number of a window is from 1 to 1000000",
        Cause::BadReply => b"no pattern has this number, or the body has replied to it before",
    }
}

/// The same, by the name of the cause.
pub fn plain_sentence(cause: &[u8]) -> &'static [u8] {
    match cause_named(cause) {
        Some(cause) => cause_sentence(cause),
        None => b"refused",
    }
}
