//! Counts in the output.
ghost use Rattle.std.specs.Prelude.{◌≡◌, ◌++◌, OnOk};
ghost use Rattle.std.specs.Fmt.{decimal};

use join_base::{Bytes, NoMemory, write_number};

/// Appends the decimal form of a count.
pub fn write_count(text: &mut Bytes, count: u64) -> Result<(), NoMemory>
    ensures { OnOk result (text.new ≡ text.old ++ decimal count) }
{
    write_number(text, i128::from(count))
}
