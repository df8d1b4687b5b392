//! What is told of a cause at a place.
use crate::around::{Around, Reach, see_around};
use crate::cause::{Cause, cause_named, cause_sentence, plain_sentence};
use crate::messages::{field_count, field_of};
use crate::quotes::text_sentence;
use crate::sights::Side;
use crate::spot::{Part, Sight, Spot, Step};
use crate::wanted::wanted_behind;
use join_base::{Bytes, NoMemory, Sort, byte_at, read_integer, write_number};
use std::alloc::Global;

/// What is told of a fault: where its mark stands, and a sentence.
#[derive(Drop)]
pub struct Hint {
    pub place: usize,
    pub sentence: Bytes,
}

const MAX_WORD: usize = 64;

const QUOTED: &[u8] = b"a text stands in double quotes: \"hall\"";

// A word as it is shown.
fn shown(word: &[u8]) -> &[u8] {
    match word.split_at_checked(MAX_WORD) {
        Some((front, _)) => front,
        None => word,
    }
}

// Appends pieces one after the other.
fn push_pieces(out: &mut Bytes, pieces: &[&[u8]]) -> Result<(), NoMemory> {
    for piece in pieces {
        out.push_all(piece)?;
    }
    Ok(())
}

fn push_count(out: &mut Bytes, count: usize, one: &[u8], many: &[u8]) -> Result<(), NoMemory> {
    write_number(out, count as i128)?;
    if count == 1 {
        out.push_all(one)
    } else {
        out.push_all(many)
    }
}

// Why no token begins at a sign of ASCII.
fn sign_sentence(sign: u8) -> &'static [u8] {
    match sign {
        b'=' => b"this is no sign (equal is ==)",
        b'|' => b"this is no sign (or is ||)",
        b'.' => b"numbers are whole, and names have no dot: count in a smaller unit",
        b'*' | b'%' =>
            b"there is no product and no quotient, only sums: compute it before the feed is written",
        b'/' => b"there is no quotient, and a comment begins with //",
        b'#' => b"a comment begins with //",
        b'\'' | b'`' => QUOTED,
        b'[' | b']' => b"there are no lists, and fields stand in ( )",
        b'0'..=b'9' => b"the number is greater than 9223372036854775807",
        b'A'..=b'Z' | b'a'..=b'z' | b'_' => b"the name has more than 64 bytes",
        _ => b"no word, number, text or sign begins here",
    }
}

// Why no token begins where these bytes stand.
fn token_sentence(rest: &[u8]) -> &'static [u8] {
    match rest {
        [b'"', behind @ ..] => text_sentence(behind),
        [0xE2, 0x80, 0x98..=0x9F, ..] | [0xC2, 0xAB | 0xBB, ..] => QUOTED,
        [0xEF, 0xBB, 0xBF, ..] => b"a byte order mark stands here; save the file without one",
        [0x80..=0xFF, ..] => b"outside a text in double quotes there are letters of ASCII alone",
        _ => sign_sentence(byte_at(rest, 0)),
    }
}

// Which limit is met at a spot.
fn limit_sentence(spot: Spot) -> &'static [u8] {
    match spot {
        Spot::MessageName => b"a script has at most 64 messages",
        Spot::FirstField | Spot::Field => b"a message has at most 8 fields",
        Spot::ActorName => b"a script has at most 32 actors",
        Spot::Definition => b"an actor has at most 16 definitions",
        Spot::PatternKind => b"a definition has at most 8 patterns",
        Spot::Term(Part::Left, Step::Begin) => b"a guard has at most 64 comparisons",
        Spot::Term(_, _) => b"a sum has at most 64 parts",
        Spot::Statement => b"a body has at most 16 statements",
        Spot::FirstItem | Spot::Item => b"a print has at most 16 items",
        _ => b"this is one more than the limit",
    }
}

// What has a name at a spot.
fn named_sentence(spot: Spot) -> &'static [u8] {
    match spot {
        Spot::MessageName => b"an earlier message has the name ",
        Spot::ActorName => b"an earlier actor has the name ",
        Spot::FirstField | Spot::Field => b"an earlier field of this message has the name ",
        _ => b"there is an earlier declaration of the name ",
    }
}

fn push_twice(out: &mut Bytes, spot: Spot, word: &[u8]) -> Result<(), NoMemory> {
    match spot {
        Spot::FirstVariable | Spot::Variable => {
            out.push_all(b"a variable stands once in a definition: name this one otherwise, as ")?;
            push_pieces(
                out,
                &[word, b"2, and compare them: if ", word, b" == ", word, b"2"],
            )
        }
        _ => {
            out.push_all(named_sentence(spot))?;
            out.push_all(word)
        }
    }
}

fn push_wrong_count(alloc: Global, out: &mut Bytes, around: &Around<'_>) -> Result<(), NoMemory> {
    let word = around.word();
    let fields = field_count(alloc, around.text, word)?.unwrap_or(0);
    let values = around.value_count()?;
    push_pieces(out, &[b"message ", shown(word), b" has "])?;
    push_count(out, fields, b" field", b" fields")?;
    out.push_all(b", and here ")?;
    push_count(out, values, b" stands", b" stand")
}

// What stands at a token: a text, or an int.
fn found_words(sort: Option<Sort>) -> &'static [u8] {
    match sort {
        Some(Sort::Words) => b" is a text",
        _ => b" is an int",
    }
}

// What a field is, where a value of another type stands.
fn wanted_words(sort: Option<Sort>) -> &'static [u8] {
    match sort {
        Some(Sort::Words) => b" is an int",
        _ => b" is a text",
    }
}

// Appends a word between what is told in front of it and behind it.
fn push_around(out: &mut Bytes, front: &[u8], word: &[u8], back: &[u8]) -> Result<(), NoMemory> {
    push_pieces(out, &[front, shown(word), back])
}

// Appends of which type a field is.
fn push_field(out: &mut Bytes, name: &[u8], kind: &[u8], wanted: &[u8]) -> Result<(), NoMemory> {
    push_pieces(
        out,
        &[b"the field ", shown(name), b" of ", shown(kind), wanted],
    )
}

// The name of a field, counted from 0, of the message of a kind.
fn field_name<'a>(
    alloc: Global,
    text: &'a [u8],
    kind: &[u8],
    field: usize,
) -> Result<&'a [u8], NoMemory> {
    match field_of(alloc, text, kind, field)? {
        Some(found) => Ok(found.name),
        None => Ok(&[]),
    }
}

// The value of a post that has another type than its field.
fn push_wrong_value(
    alloc: Global,
    out: &mut Bytes,
    around: &Around<'_>,
    sort: Option<Sort>,
) -> Result<(), NoMemory> {
    let (kind, field) = around.post();
    let name = field_name(alloc, around.text, kind, field)?;
    push_field(out, name, kind, wanted_words(sort))?;
    push_around(out, b", and ", around.word(), found_words(sort))
}

// What is told in front of a word of another type than is wanted, and behind it.
type Mistype = (&'static [u8], &'static [u8]);

const IN_PRINT: Mistype = (
    b"a text in a print stands without parentheses, and ",
    b" is a text",
);

const IN_SUM: Mistype = (b"a sum is of ints alone, and ", b" is a text");

const IN_ORDER: Mistype = (b"<, <=, > and >= compare ints alone, and ", b" is a text");

// A side of a comparison has another type than the other one.
fn side_mistype(sort: Option<Sort>) -> Mistype {
    match sort {
        Some(Sort::Words) => (b"the left side is an int, and ", b" is a text"),
        _ => (b"the left side is a text, and ", b" is an int"),
    }
}

// What is told of a leaf of a term, where it is not a value of a post.
fn term_mistype(part: Part, step: Step, sort: Option<Sort>, is_in_sum: bool) -> Option<Mistype> {
    let is_text = matches!(sort, Some(Sort::Words));
    match (part, step) {
        (Part::Item, Step::Begin) if !is_in_sum => Some(IN_PRINT),
        (_, Step::Leaf) => Some(IN_SUM),
        _ if is_text && is_in_sum => Some(IN_SUM),
        (Part::Left, _) => Some(IN_ORDER),
        (Part::Value, _) => None,
        _ => Some(side_mistype(sort)),
    }
}

// The same at any spot.
fn mistype_at(spot: Spot, sort: Option<Sort>, is_in_sum: bool) -> Option<Mistype> {
    match spot {
        Spot::Term(part, step) => term_mistype(part, step, sort, is_in_sum),
        Spot::FirstValue => None,
        _ => Some(side_mistype(sort)),
    }
}

fn push_wrong_type(alloc: Global, out: &mut Bytes, around: &Around<'_>) -> Result<(), NoMemory> {
    let sort = around.sort()?;
    match mistype_at(around.here.spot, sort, around.is_in_sum()) {
        Some((front, back)) => push_around(out, front, around.word(), back),
        None => push_wrong_value(alloc, out, around, sort),
    }
}

fn push_bad_reply(out: &mut Bytes, around: &Around<'_>) -> Result<(), NoMemory> {
    let count = around.pattern_count();
    let wanted = read_integer(around.word()).unwrap_or(0);
    if wanted >= 1 && wanted as u64 <= count as u64 {
        return out.push_all(b"an earlier reply of this body is to the same pattern");
    }
    out.push_all(b"the definition has ")?;
    push_count(
        out,
        count,
        b" pattern, so the number is 1",
        b" patterns, and the number counts them from 1",
    )
}

// Appends a sentence and the word at the token.
fn push_named(out: &mut Bytes, sentence: &[u8], word: &[u8]) -> Result<(), NoMemory> {
    push_pieces(out, &[sentence, b" ", shown(word)])
}

// Appends what is told of a cause that the token has.
fn push_at(
    alloc: Global,
    out: &mut Bytes,
    around: &Around<'_>,
    cause: Cause,
) -> Result<(), NoMemory> {
    let spot = around.here.spot;
    let word = around.word();
    match cause {
        Cause::TooMany => out.push_all(limit_sentence(spot)),
        Cause::TwiceDeclared => push_twice(out, spot, shown(word)),
        Cause::UnknownMessage => push_named(out, b"no message has the name", word),
        Cause::UnknownActor => push_named(out, b"no actor has the name", word),
        Cause::UnknownName => push_named(out, b"no variable of this definition has the name", word),
        Cause::WrongCount => push_wrong_count(alloc, out, around),
        Cause::WrongType => push_wrong_type(alloc, out, around),
        Cause::BadReply => push_bad_reply(out, around),
        _ => out.push_all(cause_sentence(cause)),
    }
}

// What of a script a cause is told by.
fn reach_of(cause: Cause) -> Reach {
    match cause {
        Cause::WrongType | Cause::BadReply => Reach::Definition,
        _ => Reach::Token,
    }
}

// Appends what is told of a cause that the token at a place has.
fn push_by_script(
    alloc: Global,
    out: &mut Bytes,
    text: &[u8],
    place: usize,
    cause: Cause,
) -> Result<(), NoMemory> {
    let around = see_around(alloc, text, place, reach_of(cause))?;
    push_at(alloc, out, &around, cause)
}

fn token_hint(alloc: Global, text: &[u8], place: usize, cause: Cause) -> Result<Hint, NoMemory> {
    let mut sentence = Bytes::new(alloc);
    push_by_script(alloc, &mut sentence, text, place, cause)?;
    Ok(Hint { place, sentence })
}

// A hint of a sentence, and of what is told in front of it.
fn plain_hint(alloc: Global, place: usize, front: &[u8], back: &[u8]) -> Result<Hint, NoMemory> {
    let mut sentence = Bytes::new(alloc);
    push_pieces(&mut sentence, &[front, back])?;
    Ok(Hint { place, sentence })
}

// What is told in front, where the script ends.
fn end_sentence(sight: Sight) -> &'static [u8] {
    match sight {
        Sight::End => b"the script ends too early: ",
        _ => &[],
    }
}

// What is told where a script doesn't go on with a token.
fn wanted_hint(alloc: Global, around: &Around<'_>) -> Result<Hint, NoMemory> {
    let seen = around.here;
    let before = around.before;
    let (side, wanted) = wanted_behind(before.sight, seen.spot, seen.sight);
    let place = match side {
        Side::Here => seen.start,
        Side::Behind => before.end,
    };
    plain_hint(alloc, place, end_sentence(seen.sight), wanted)
}

fn syntax_hint(alloc: Global, text: &[u8], place: usize) -> Result<Hint, NoMemory> {
    let around = see_around(alloc, text, place, Reach::Token)?;
    wanted_hint(alloc, &around)
}

/// What is told of a cause at a place of a script.
pub fn hint_of(alloc: Global, text: &[u8], place: usize, cause: &[u8]) -> Result<Hint, NoMemory> {
    match cause_named(cause) {
        Some(Cause::BadToken) => {
            let (_, rest) = text.split_at(place.min(text.len()));
            plain_hint(alloc, place, token_sentence(rest), &[])
        }
        Some(Cause::BadSyntax) => syntax_hint(alloc, text, place),
        None | Some(Cause::NotText) => plain_hint(alloc, place, plain_sentence(cause), &[]),
        Some(cause) => token_hint(alloc, text, place, cause),
    }
}
