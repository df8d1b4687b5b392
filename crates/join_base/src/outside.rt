//! What a program reads and writes, as traits that say what comes of it.
ghost use Rattle.std.specs.Prelude.{ℕ, List, Option, ◌<◌, ◌≤◌, length, IfOk};
ghost use Rattle.join_base.specs.Outside.{Told, FetchTells, FetchCause, WriteTells, WriteCause, IsCount};

use crate::items::NoMemory;
use crate::text::Bytes;
use std::alloc::Global;

/// The outside failed, and its count of faults rose.
#[derive(Clone, Copy, PartialEq, Eq, Debug)]
pub struct Failed;

/// Why a fetch gave nothing.
#[derive(Clone, Copy, PartialEq, Eq, Debug)]
pub enum FetchFault {
    /// The name has no bytes that can be read.
    Failed,
    /// It has more bytes than were asked for.
    TooLong,
    NoMemory,
}

impl From<NoMemory> for FetchFault {
    ghost use Rattle.std.specs.Prelude.{◌≡◌};
    ghost use Rattle.join_base.specs.declared.outside.FetchFault.TheVariants.{NoMemory};

    ghost from_gives = { λ _ e. e ≡ NoMemory };

    fn from(_: NoMemory) -> FetchFault {
        FetchFault::NoMemory
    }
}

/// Files by name.
pub trait Inputs {
    /// What it holds and which names were asked, where it tells them.
    ghost tells: { Self → Option Told };

    /// How many faults there were. It never falls, and stands still at the last 64-bit number.
    ghost faults: { Self → ℕ };

    /// The bytes of a name, of which there are at most `max`. What it holds stays. The count of faults rises exactly
    /// where the answer is `Failed`.
    fn fetch(&mut self, alloc: Global, name: &str, max: u64) -> Result<Bytes, FetchFault>
        ensures within { IfOk result (λ bytes. length bytes ≤ max) }
        ensures told { FetchTells (tells self.old) (tells self.new) name.now max result }
        ensures cause { FetchCause (faults self.old) (faults self.new) result };
}

/// Where output goes.
pub trait Sink {
    /// The bytes taken, where it tells them.
    ghost taken: { Self → Option (List ℕ) };

    /// How many faults there were. It never falls, and stands still at the last 64-bit number.
    ghost faults: { Self → ℕ };

    /// Takes some bytes at the front of the piece, at least one, and says how many. The count of faults rises exactly
    /// where it fails.
    fn write(&mut self, piece: &[u8]) -> Result<usize, Failed>
        requires some { 0 < length piece.now }
        ensures count { IfOk result (IsCount piece.now) }
        ensures told { WriteTells (taken self.old) (taken self.new) piece.now result }
        ensures cause { WriteCause (faults self.old) (faults self.new) result };
}
