//! Output whose writes are counted.
ghost use Rattle.std.specs.Prelude.{◌≡◌, ◌<◌, ℕ, List, Option, length, IfOk};
ghost use Rattle.join_base.specs.Outside.{IsCount, WriteCause, WriteTells};
ghost use Rattle.counted_sink.specs.Counting.{WriteCount, with_write};

use join_base::{Failed, Sink};

/// Where output goes, with a count of the writes.
pub trait CountingSink {
    /// The bytes taken, where it tells them.
    ghost taken: { Self → Option (List ℕ) };

    /// How many faults there were. It never falls, and stands still at the last 64-bit number.
    ghost faults: { Self → ℕ };

    /// How many writes were made, and how many of them failed. Each number stands still at the last 64-bit number.
    ghost writes: { Self → WriteCount };

    /// Takes some bytes at the front of the piece, at least one, and says how many. The count of faults rises exactly
    /// where it fails. Each call counts as one write.
    fn write(&mut self, piece: &[u8]) -> Result<usize, Failed>
        requires some { 0 < length piece.now }
        ensures count { IfOk result (IsCount piece.now) }
        ensures told { WriteTells (taken self.old) (taken self.new) piece.now result }
        ensures cause { WriteCause (faults self.old) (faults self.new) result }
        ensures counted { writes self.new ≡ with_write (writes self.old) result };
}

/// A sink, and how often it was written to.
#[derive(Drop)]
pub struct Counted<S: Sink + Drop> {
    sink: S,
    made: u64,
    failed: u64,
    latest_failed: bool,
}

impl<S: Sink + Drop> Counted<S> {
    /// The sink, with no write so far.
    pub fn new(sink: S) -> Counted<S>
        ensures sink { result.sink ≡ sink }
        ensures made { result.made ≡ 0 }
        ensures failed { result.failed ≡ 0 }
    {
        Counted {
            sink,
            made: 0,
            failed: 0,
            latest_failed: false,
        }
    }

    /// The sink, without its count.
    pub fn into_sink(self) -> S
        ensures same { result ≡ self.sink }
    {
        self.sink
    }
}

impl<S: Sink + Drop> CountingSink for Counted<S> {
    ghost taken = { λ c. S.taken c.sink };

    ghost faults = { λ c. S.faults c.sink };

    ghost writes = { λ c. record { made = c.made; failed = c.failed; latest_failed = c.latest_failed } };

    fn write(&mut self, piece: &[u8]) -> Result<usize, Failed> {
        self.made = self.made.saturating_add(1);
        match self.sink.write(piece) {
            Ok(count) => {
                self.latest_failed = false;
                Ok(count)
            }
            Err(failed) => {
                self.failed = self.failed.saturating_add(1);
                self.latest_failed = true;
                Err(failed)
            }
        }
    }
}
