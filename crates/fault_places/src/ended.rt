//! Actors that ended at a limit, as the log of a run tells of them while it is written.
ghost use Rattle.std.specs.Prelude.{◌≤◌, ◌<◌, length, IfSome};

use crate::part::{Part, note_of, push_parts};
use crate::sentence::{LIMITS, PROGRAM};
use join_base::{Bytes, NoMemory};
use memchr::{memchr, memmem};
use std::alloc::Global;
use std::mem;

// What stands in front of how an actor ended, behind the line before. A text of a log has no line feed.
const END: &[u8] = b"\nend ";

// With two bytes more it is known whether that was at a limit.
const END_LEN: usize = 7;

/// Looks at a log piece by piece, and keeps what is to be told of actors that ended at a limit.
#[derive(Drop)]
pub struct EndWatch {
    alloc: Global,
    // What was seen of a section that did not end yet. A log that comes in one piece leaves nothing here.
    open: Vec<u8>,
    arrivals: u64,
    partials: u64,
    has_jammed: bool,
    told: Bytes,
}

// The number in front, or 0.
fn number_in(text: &[u8]) -> u64 {
    let mut value: u64 = 0;
    for digit in text {
        if !digit.is_ascii_digit() {
            return value;
        }
        value = value
            .saturating_mul(10)
            .saturating_add(u64::from(*digit - b'0'));
    }
    value
}

// The number at the end, behind the last space.
fn last_number(line: &[u8]) -> u64 {
    let count = line.iter().rev().take_while(|b| **b != b' ').count();
    let (_, number) = line.split_at(line.len().saturating_sub(count));
    number_in(number)
}

// The number behind a word and a space.
fn number_behind(line: &[u8], word: &[u8]) -> u64 {
    for place in 0..line.len() {
        let (_, rest) = line.split_at(place);
        if let Some(rest) = rest.strip_prefix(word) {
            return number_in(rest);
        }
    }
    0
}

// Appends which actor ended, and behind which arrival.
fn push_actor(told: &mut Bytes, name: &[u8], arrival: u64) -> Result<(), NoMemory> {
    push_parts(
        told,
        &[
            Part::Text(PROGRAM),
            Part::Text(b"actor "),
            Part::Text(name),
            Part::Text(b" ended behind arrival "),
            Part::Number(i128::from(arrival)),
        ],
    )
}

// Appends the limit that it met.
fn push_limit<'a>(
    told: &mut Bytes,
    front: &'a [u8],
    most: u64,
    back: &'a [u8],
) -> Result<(), NoMemory> {
    push_parts(
        told,
        &[
            Part::Text(front),
            Part::Number(i128::from(most)),
            Part::Text(back),
        ],
    )
}

// What is told behind a number, of one and of many.
fn behind_number(number: u64, one: &'static [u8], many: &'static [u8]) -> &'static [u8] {
    if number == 1 { one } else { many }
}

fn later_messages(count: u64) -> &'static [u8] {
    behind_number(count, b" later message\n", b" later messages\n")
}

// Appends how many messages it did not look at.
fn push_late(told: &mut Bytes, late: u64) -> Result<(), NoMemory> {
    push_parts(
        told,
        &[
            Part::Text(b", and did not look at "),
            Part::Number(i128::from(late)),
            Part::Text(later_messages(late)),
        ],
    )
}

// The first line, and what stands behind its end, where there is a line.
fn next_line(text: &[u8]) -> Option<(&[u8], &[u8])>
    ensures shorter { IfSome result (λ p. length p.1.now < length text.now) }
{
    if text.is_empty() {
        return None;
    }
    match memchr(b'\n', text) {
        Some(place) => Some((text.split_at(place).0, text.split_at(place + 1).1)),
        None => Some((text, &[])),
    }
}

// What stands behind the end of the first line. A line without an end is still to come, and stays.
fn behind_line(text: &[u8]) -> &[u8]
    ensures within { length result.now ≤ length text.now }
{
    match memchr(b'\n', text) {
        Some(place) => text.split_at(place + 1).1,
        None => text,
    }
}

// Where a line begins that tells how an actor ended. It is not the first one, and enough of it is there.
fn end_place(text: &[u8]) -> Option<usize>
    ensures behind { IfSome result (λ place. 0 < place) }
    ensures within { IfSome result (λ place. place ≤ length text.now) }
{
    match memmem::find(text, END) {
        Some(place) if place + END_LEN <= text.len() => Some(place + 1),
        _ => None,
    }
}

// A section, and what stands from its last line on, where one ends. None ends in front of this place.
fn cut_section(text: &[u8], from: usize) -> Option<(&[u8], &[u8])>
    ensures shorter { IfSome result (λ p. length p.1.now < length text.now) }
{
    let (_, searched) = text.split_at(from.min(text.len()));
    let skipped = text.len() - searched.len();
    match end_place(searched) {
        Some(place) => Some(text.split_at(skipped + place)),
        None => None,
    }
}

// What the lines of a section tell: the actor, its last arrival, and how many messages were late.
#[derive(Clone, Copy)]
struct Section<'a> {
    name: &'a [u8],
    arrival: u64,
    late: u64,
}

// What they tell with one line more.
fn with_line<'a>(section: Section<'a>, line: &'a [u8]) -> Section<'a> {
    let Section {
        name,
        arrival,
        late,
    } = section;
    match line {
        [b'0'..=b'9', ..] => Section {
            name,
            arrival: number_in(line),
            late,
        },
        [b'l', ..] => Section {
            name,
            arrival,
            late: late.saturating_add(last_number(line)),
        },
        _ => Section {
            name: line.strip_prefix(b"actor ".as_slice()).unwrap_or(name),
            arrival,
            late,
        },
    }
}

fn section_of(text: &[u8]) -> Section<'_> {
    let mut section = Section {
        name: &[],
        arrival: 0,
        late: 0,
    };
    let mut rest = text;
    'lines: while let Some((line, behind)) = next_line(rest) {
        section = with_line(section, line);
        rest = behind;
    }
    section
}

impl EndWatch {
    pub fn new(alloc: Global) -> EndWatch {
        EndWatch {
            alloc,
            open: Vec::new(alloc),
            arrivals: 0,
            partials: 0,
            has_jammed: false,
            told: Bytes::new(alloc),
        }
    }

    // Appends what is told of an actor that met a limit: this number between these words.
    fn push_told(
        &mut self,
        section: &[u8],
        front: &[u8],
        most: u64,
        back: &[u8],
    ) -> Result<(), NoMemory> {
        let section = section_of(section);
        push_actor(&mut self.told, section.name, section.arrival)?;
        push_limit(&mut self.told, front, most, back)?;
        push_late(&mut self.told, section.late)
    }

    fn push_jammed(&mut self, section: &[u8]) -> Result<(), NoMemory> {
        self.has_jammed = true;
        let most = self.partials;
        let back = behind_number(
            most,
            b" partial match (--partials)",
            b" partial matches (--partials)",
        );
        self.push_told(section, b": it would keep more than ", most, back)
    }

    fn push_spent(&mut self, section: &[u8]) -> Result<(), NoMemory> {
        let most = self.arrivals;
        let back = behind_number(most, b" message (--arrivals)", b" messages (--arrivals)");
        self.push_told(section, b": it records at most ", most, back)
    }

    // The first section has the head of the log in front, with the limits.
    fn see_head(&mut self, section: &[u8]) {
        if let Some((line, _)) = next_line(section) {
            if line.starts_with(b"joinlog ") {
                self.arrivals = number_behind(line, b"arrivals ");
                self.partials = number_behind(line, b"partials ");
            }
        }
    }

    // Looks at a section, and at what stands from its last line on.
    fn see_section(&mut self, section: &[u8], end: &[u8]) -> Result<(), NoMemory> {
        self.see_head(section);
        if end.starts_with(b"end j") {
            self.push_jammed(section)
        } else if end.starts_with(b"end sp") {
            self.push_spent(section)
        } else {
            Ok(())
        }
    }

    // Looks at the sections that end in these bytes, and gives what stands behind them. None ends in front of this
    // place.
    fn see_sections<'a>(&mut self, bytes: &'a [u8], from: usize) -> Result<&'a [u8], NoMemory> {
        let mut rest = bytes;
        let mut from = from;
        'sections: while let Some((section, end)) = cut_section(rest, from) {
            self.see_section(section, end)?;
            rest = behind_line(end);
            from = 0;
        }
        Ok(rest)
    }

    // Looks at what is open, in which no section ends in front of this place.
    fn see_open(&mut self, from: usize) -> Result<(), NoMemory> {
        if cut_section(self.open.as_slice(), from).is_none() {
            return Ok(());
        }
        let open = mem::replace(&mut self.open, Vec::new(self.alloc));
        let rest = self.see_sections(open.as_slice(), from)?;
        self.open.extend_from_slice(rest)?;
        Ok(())
    }

    /// Looks at the next bytes of the log. Lines are read where they stand, and those of an actor only where it ended
    /// at a limit.
    pub fn see(&mut self, bytes: &[u8]) -> Result<(), NoMemory> {
        if self.open.is_empty() {
            let rest = self.see_sections(bytes, 0)?;
            self.open.extend_from_slice(rest)?;
            return Ok(());
        }
        // The end of a section may have begun in the piece before.
        let from = self.open.len().saturating_sub(END_LEN);
        self.open.extend_from_slice(bytes)?;
        self.see_open(from)
    }

    /// Whether one of them had too many partial matches.
    pub fn has_jammed(&self) -> bool {
        self.has_jammed
    }

    /// What is told of the actors of a run that met a limit.
    pub fn note(&self) -> Result<Bytes, NoMemory> {
        let told = self.told.bytes();
        let told = if told.is_empty() { LIMITS } else { told };
        note_of(self.alloc, &[Part::Text(told)])
    }
}
