//! A record in either form.
ghost use Rattle.std.specs.Prelude.{◌≡◌, List, ℕ, length, map, slice_get};
ghost use Rattle.std.specs.Option.{option_map};
ghost use Rattle.csv.specs.Records.{fields_of};
ghost use Rattle.sensor_feed.specs.Row.{fields_in};

use csv::ByteRecord;

/// A record: a line that was cut at its commas, or what csv has read.
#[derive(Clone, Copy)]
pub enum Row<'a> {
    Line(&'a [&'a [u8]]),
    Read(&'a ByteRecord),
}

fn line_at<'a>(fields: &'a [&'a [u8]], place: usize) -> Option<&'a [u8]>
    ensures { option_map (λ field. field.now) result ≡ slice_get (map (λ field. field.now) fields.now) place }
{
    match fields.get(place) {
        Some(field) => Some(*field),
        None => None,
    }
}

fn read_at(read: &ByteRecord, place: usize) -> Option<&[u8]>
    ensures { option_map (λ field. field.now) result ≡ slice_get (fields_of read.now) place }
{
    read.get(place)
}

/// The field at a place, counted from 0.
pub fn field_at(row: Row<'_>, place: usize) -> Option<&[u8]>
    ensures { option_map (λ field. field.now) result ≡ slice_get (fields_in row.entry) place }
{
    match row {
        Row::Line(fields) => line_at(fields, place),
        Row::Read(read) => read_at(read, place),
    }
}

/// How many fields there are.
pub fn field_count(row: Row<'_>) -> usize
    ensures { result ≡ length (fields_in row.entry) }
{
    match row {
        Row::Line(fields) => fields.len(),
        Row::Read(read) => read.len(),
    }
}
