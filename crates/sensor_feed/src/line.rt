//! The lines of a feed without double quotes, cut in place.
ghost use Rattle.std.specs.Prelude.{◌≡◌, [], IfOk, List, ℕ, true, drop, map};
ghost use Rattle.std.specs.List.{list_all, prefix_len};
ghost use Rattle.sensor_feed.specs.Line.{CutsLine, IsPlain, TakesLine, ends_row, is_no_quote};

use join_base::{NoMemory, byte_at};

// It goes through all bytes, so that many are compared at once.
fn has_no_quote(bytes: &[u8]) -> bool
    ensures { result ≡ list_all is_no_quote bytes.now }
{
    let mut plain = true;
    for byte in bytes {
        plain = plain & (*byte != b'"');
    }
    plain
}

fn ends_row(byte: u8) -> bool
    ensures { result ≡ ends_row byte }
{
    byte == b'\r' || byte == b'\n'
}

// The most commas of a line that is cut in place. A list of more fields would take far more than the record of csv.
const MANY: usize = 1000;

// Whether a line has more than so many commas.
fn counts_many(bytes: &[u8]) -> bool {
    let mut commas = 0usize;
    for byte in bytes {
        if *byte == b',' {
            commas = commas.saturating_add(1);
            if commas > MANY {
                return true;
            }
        } else if ends_row(*byte) {
            commas = 0;
        }
    }
    false
}

// Whether there is a line end among these bytes.
fn has_end(bytes: &[u8]) -> bool {
    for byte in bytes {
        if ends_row(*byte) {
            return true;
        }
    }
    false
}

// Whether a line has very many commas. Such a line has a whole block of half as many bytes, so that of most feeds only
// the first line end of each block is looked for.
fn has_long_line(bytes: &[u8]) -> bool {
    for block in bytes.chunks_exact(MANY / 2) {
        if !has_end(block) {
            return counts_many(bytes);
        }
    }
    false
}

/// Whether the lines of these bytes may be cut in place. Then the records are the lines, cut at the commas: no byte is
/// a double quote, and the first is none of a byte order mark. It says no too where a line has very many fields.
pub fn is_plain(bytes: &[u8]) -> bool
    ensures { result ≡ true → IsPlain bytes.now }
{
    if byte_at(bytes, 0) == 0xEF {
        return false;
    }
    if has_long_line(bytes) {
        return false;
    }
    has_no_quote(bytes)
}

// How many line ends are in front.
fn line_ends(text: &[u8]) -> usize
    ensures { result ≡ prefix_len ends_row text.now }
{
    text.iter().take_while(|byte| ends_row(**byte)).count()
}

// Appends the fields of the first line, and gives what is behind it.
fn cut_line<'a>(text: &'a [u8], fields: &mut Vec<&'a [u8]>) -> Result<&'a [u8], NoMemory>
    requires plain { list_all is_no_quote text.now ≡ true }
    requires empty { fields.old.items ≡ [] }
    ensures { IfOk result (λ rest. CutsLine text.now (map (λ field. field.now) fields.new.items) rest.now) }
{
    let mut start = 0;
    for place in 0..text.len() {
        let byte = text[place];
        if byte == b',' {
            fields.push(&text[start..place])?;
            start = place + 1;
        } else if ends_row(byte) {
            fields.push(&text[start..place])?;
            return Ok(text.split_at(place + 1).1);
        }
    }
    fields.push(text.split_at(start).1)?;
    Ok(text.split_at(text.len()).1)
}

/// Puts the fields of the first line that is not empty in the place of what `fields` had, and gives what is behind it.
/// `None` where there is no such line.
pub fn take_line<'a>(
    text: &'a [u8],
    fields: &mut Vec<&'a [u8]>,
) -> Result<Option<&'a [u8]>, NoMemory>
    requires plain { list_all is_no_quote text.now ≡ true }
    ensures { IfOk result (λ rest. TakesLine text.now (map (λ field. field.now) fields.new.items) rest) }
{
    let line = text.split_at(line_ends(text)).1;
    if line.is_empty() {
        return Ok(None);
    }
    fields.clear();
    Ok(Some(cut_line(line, fields)?))
}
