//! Writing bytes piece by piece.
ghost use Rattle.std.specs.Prelude.{length};
ghost use Rattle.join_base.specs.Outside.{WriteCause};
ghost use Rattle.counted_sink.specs.Counting.{StopsAtFault, WritesFew, WritesFewWhereTold, fault_count};
ghost use Rattle.counted_sink.specs.Writing.{Writes};

use crate::counted::CountingSink;
use join_base::Failed;

/// Writes the bytes to the sink, as many at a time as it takes, in at most one write for each byte. A write that fails
/// is the last one.
pub fn write_all<S: CountingSink>(out: &mut S, bytes: &[u8]) -> Result<(), Failed>
    ensures told { Writes (S.taken out.old) (S.taken out.new) bytes.now result }
    ensures cause { WriteCause (S.faults out.old) (S.faults out.new) result }
    // At most one write for each byte, and where the sink tells, for each byte that it took and one that failed.
    ensures few { WritesFew (S.writes out.old) (S.writes out.new) (length bytes.now) }
    ensures taken { WritesFewWhereTold (S.taken out.old) (S.taken out.new) (S.writes out.old) (S.writes out.new)
        (fault_count result) }
    ensures stops { StopsAtFault (S.writes out.old) (S.writes out.new) result }
{
    let mut done = 0;
    'pieces: while done < bytes.len() {
        let (_, rest) = bytes.split_at(done);
        match out.write(rest) {
            Ok(count) => done += count,
            Err(failed) => return Err(failed),
        }
    }
    Ok(())
}
