//! The row of a feed, as its file has it.
ghost use Rattle.std.specs.Prelude.{◌≤◌, length};

use csv::{ByteRecord, Reader, ReaderBuilder};
use join_base::NoMemory;
use std::alloc::Global;

fn is_line_end(b: u8) -> bool {
    b == b'\n' || b == b'\r'
}

// How many of these bytes in front are line ends.
fn line_ends_len(bytes: &[u8]) -> usize
    ensures { result ≤ length bytes.now }
{
    bytes.iter().take_while(|b| is_line_end(**b)).count()
}

// Where a row begins in a piece of the file, which may begin with the mark of its encoding and with line ends.
fn row_start(piece: &[u8]) -> usize
    ensures { result ≤ length piece.now }
{
    match piece {
        [0xEF, 0xBB, 0xBF, rest @ ..] => 3 + line_ends_len(rest),
        _ => line_ends_len(piece),
    }
}

// The bytes in front of the line ends at their end.
fn without_line_ends(bytes: &[u8]) -> &[u8] {
    let behind = bytes.iter().rev().take_while(|b| is_line_end(**b)).count();
    let (row, _) = bytes.split_at(bytes.len().saturating_sub(behind));
    row
}

// The row between two places of the file, and where it begins.
fn row_between(bytes: &[u8], start: u64, end: u64) -> (usize, &[u8]) {
    let end = end.min(bytes.len() as u64) as usize;
    let start = start.min(end as u64) as usize;
    let piece = &bytes[start..end];
    let skipped = row_start(piece);
    (start + skipped, without_line_ends(&piece[skipped..]))
}

/// A row of a feed: where it begins, its bytes, and its fields.
#[derive(Drop)]
pub struct Row<'a> {
    pub place: usize,
    pub bytes: &'a [u8],
    pub fields: ByteRecord,
}

// Reads up to the record of this number, and says between which places of the file it stands, where there is one.
fn read_to(
    reader: &mut Reader<&[u8]>,
    fields: &mut ByteRecord,
    row: u64,
) -> Result<Option<(u64, u64)>, NoMemory> {
    for number in 1..u64::MAX {
        let start = reader.position().byte();
        match reader.read_byte_record(fields) {
            Ok(true) if number == row => return Ok(Some((start, reader.position().byte()))),
            Ok(true) => {}
            Ok(false) => break,
            Err(_) => return Err(NoMemory),
        }
    }
    fields.clear();
    Ok(None)
}

// A reader of all records, which may differ in length. Without a header row csv would keep copies of the first record,
// so it is given an empty one.
fn reader_of(alloc: Global, bytes: &[u8]) -> Result<Reader<&[u8]>, NoMemory> {
    let mut reader = ReaderBuilder::new()
        .flexible(true)
        .from_reader(alloc, bytes);
    match reader.set_byte_headers(ByteRecord::new(alloc)) {
        Ok(()) => Ok(reader),
        Err(_) => Err(NoMemory),
    }
}

/// The record of this number, counted from 1. Where there is no such record, it has no fields, and its place is the
/// end.
pub fn row_at(alloc: Global, bytes: &[u8], row: u64) -> Result<Row<'_>, NoMemory> {
    let mut reader = reader_of(alloc, bytes)?;
    let mut fields = ByteRecord::new(alloc);
    let (place, bytes) = match read_to(&mut reader, &mut fields, row)? {
        Some((start, end)) => row_between(bytes, start, end),
        None => (bytes.len(), bytes.split_at(bytes.len()).1),
    };
    Ok(Row {
        place,
        bytes,
        fields,
    })
}
