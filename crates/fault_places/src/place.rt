//! Lines and places on them.
ghost use Rattle.std.specs.Prelude.{◌≡◌, ◌+◌, ◌-◌, ◌≤◌, ◌<◌, length, take, drop, count_by, IfSome};
ghost use Rattle.std.specs.List.{prefix_len, suffix_len};
ghost use Rattle.fault_places.specs.Places.{begins_character, column_number, ends_line, front_len, is_inside_line, line_back, line_front, line_number};

/// A place in a text, counted from 1: its line, and its character on that line.
#[derive(Clone, Copy, PartialEq, Eq, Debug)]
pub struct Place {
    pub line: usize,
    pub column: usize,
}

fn ends_line(b: u8) -> bool
    ensures { result ≡ ends_line b }
{
    b == b'\n'
}

fn is_inside_line(b: u8) -> bool
    ensures { result ≡ is_inside_line b }
{
    !ends_line(b)
}

/// Whether this is the first byte of a character.
pub fn begins_character(b: u8) -> bool
    ensures { result ≡ begins_character b }
{
    b < 128 || 192 <= b
}

// How many lines end in these bytes.
fn line_ends(bytes: &[u8]) -> usize
    ensures count { result ≡ count_by ends_line bytes.now }
    ensures within { result ≤ length bytes.now }
{
    let mut count = 0;
    for b in bytes {
        if ends_line(*b) {
            count += 1;
        }
    }
    count
}

// How many characters begin in these bytes.
fn characters(bytes: &[u8]) -> usize
    ensures count { result ≡ count_by begins_character bytes.now }
    ensures within { result ≤ length bytes.now }
{
    let mut count = 0;
    for b in bytes {
        if begins_character(*b) {
            count += 1;
        }
    }
    count
}

// The bytes in front of a place, and those from it on.
fn cut(text: &[u8], place: usize) -> (&[u8], &[u8])
    ensures front { result.0.now ≡ take place text.now }
    ensures back { result.1.now ≡ drop place text.now }
{
    if place <= text.len() {
        text.split_at(place)
    } else {
        (text, &[])
    }
}

// How many bytes at the end stand on one line.
fn last_line_len(bytes: &[u8]) -> usize
    ensures len { result ≡ suffix_len is_inside_line bytes.now }
    ensures within { result ≤ length bytes.now }
{
    let mut start = bytes.len();
    'back: while start > 0 && is_inside_line(bytes[start - 1]) {
        start -= 1;
    }
    bytes.len() - start
}

// How many bytes in front stand on one line.
fn first_line_len(bytes: &[u8]) -> usize
    ensures len { result ≡ prefix_len is_inside_line bytes.now }
    ensures within { result ≤ length bytes.now }
{
    bytes.iter().take_while(|b| is_inside_line(**b)).count()
}

/// What the line of a place has in front of it, and from it on. A place past the end is the end.
pub fn line_around(text: &[u8], place: usize) -> (&[u8], &[u8])
    ensures front { result.0.now ≡ line_front text.now place }
    ensures back { result.1.now ≡ line_back text.now place }
{
    let (front, back) = cut(text, place);
    let (_, front) = front.split_at(front.len() - last_line_len(front));
    let (back, _) = back.split_at(first_line_len(back));
    (front, back)
}

/// The line and the column of a place.
pub fn place_of(text: &[u8], place: usize) -> Place
    ensures line { result.line ≡ line_number text.now place }
    ensures column { result.column ≡ column_number text.now place }
{
    let (front, _) = cut(text, place);
    let (line, _) = line_around(text, place);
    Place {
        line: line_ends(front) + 1,
        column: characters(line) + 1,
    }
}

/// Where the line of this number begins, where there is one.
pub fn line_start(text: &[u8], number: u64) -> Option<usize>
    ensures within { IfSome result (λ place. place ≤ length text.now) }
    ensures line { IfSome result (λ place. line_number text.now place ≡ number) }
    ensures begins { IfSome result (λ place. front_len text.now place ≡ 0) }
{
    if number == 1 {
        return Some(0);
    }
    let mut line: u64 = 1;
    for place in 0..text.len() {
        if ends_line(text[place]) {
            line += 1;
            if line == number {
                return Some(place + 1);
            }
        }
    }
    None
}
