//! Inputs and a sink in memory, which tell all that they hold. They stand in for the outside in tests.
ghost use Rattle.std.specs.Prelude.{◌≡◌, ◌⊎◌, ℕ, List, [], ◌∷◌, ◌++◌, ◌+◌, ◌-◌, ◌<◌, ◌≤◌, length, min, true, false, IfOk, OnOk, OnErr, Err, Some, None, MatchOption};
ghost use Rattle.join_base.specs.Outside.{content_of, FetchTells, FetchCause, WriteTells, WriteCause, IsCount};
ghost use Rattle.join_base.specs.Memory.{one_more, is_among};

use crate::items::NoMemory;
use crate::outside::{Failed, FetchFault, Inputs, Sink};
use crate::text::{Bytes, Word, WordList};
use std::alloc::Global;
use std::marker::Model;

// Whether a call is among those that fail.
fn is_among(calls: &[u64], call: u64) -> bool
    ensures { result ≡ is_among calls.now call }
{
    calls.contains(&call)
}

// The bytes of a name.
fn find<'a>(files: &'a [(Word, Bytes)], name: &str) -> Option<&'a Bytes>
    ensures { MatchOption result (content_of files.now name.now ≡ None) (λ b. content_of files.now name.now
        ≡ Some b.now) }
{
    for (other, bytes) in files {
        if other.as_str().as_bytes() == name.as_bytes() {
            return Some(bytes);
        }
    }
    None
}

/// Files in memory. A name that was not put there is a fault, and so is each call that `fail` names.
#[derive(Drop)]
pub struct MemoryInputs {
    files: Vec<(Word, Bytes)>,
    asked: WordList,
    failing: Vec<u64>,
    calls: u64,
    faults: u64,
}

impl Model for MemoryInputs {
    ghost use Rattle.join_base.specs.Memory.{InputsHeld};

    ghost Value = { InputsHeld };

    ghost view = { λ a. record {
      files = a.files.items;
      asked = a.asked;
      failing = a.failing.items;
      calls = a.calls;
      faults = a.faults;
    } };
}

impl MemoryInputs {
    ghost use Rattle.join_base.specs.Memory.{InputsHeld, no_inputs, with_file, with_failing_fetch};

    pub fn new(alloc: Global) -> MemoryInputs
        ensures empty { result ≡ no_inputs }
    {
        MemoryInputs {
            files: Vec::new(alloc),
            asked: WordList::new(alloc),
            failing: Vec::new(alloc),
            calls: 0,
            faults: 0,
        }
    }

    /// Gives the name these bytes, in place of those that it had.
    pub fn put(&mut self, alloc: Global, name: &str, bytes: Bytes) -> Result<(), NoMemory>
        ensures ok { OnOk result (self.new ≡ with_file self.old name.now bytes) }
        ensures err { OnErr result (self.new ≡ self.old) }
    {
        let word = Word::from_text(alloc, name)?;
        self.files.insert(0, (word, bytes))?;
        Ok(())
    }

    /// Has the call of this number fail, counted from 1.
    pub fn fail(&mut self, call: u64) -> Result<(), NoMemory>
        ensures ok { OnOk result (self.new ≡ with_failing_fetch self.old call) }
        ensures err { OnErr result (self.new ≡ self.old) }
    {
        self.failing.push(call)?;
        Ok(())
    }

    // Counts a fault.
    fn failed(&mut self) -> FetchFault
        ensures answer { result ≡ FetchFault.Failed }
        ensures counted { self.new ≡ record self.old { faults = one_more self.old.faults } }
        ensures cause { FetchCause self.old.faults self.new.faults (Err result) }
    {
        self.faults = self.faults.saturating_add(1);
        FetchFault::Failed
    }
}

impl Inputs for MemoryInputs {
    ghost use Rattle.join_base.specs.Memory.{told_by, FetchLeaves};

    ghost tells = { λ s. Some (told_by s) };

    ghost faults = { λ s. s.faults };

    fn fetch(&mut self, alloc: Global, name: &str, max: u64) -> Result<Bytes, FetchFault>
        ensures within { IfOk result (λ bytes. length bytes ≤ max) }
        ensures told { FetchTells (Some (told_by self.old)) (Some (told_by self.new)) name.now max result }
        ensures cause { FetchCause self.old.faults self.new.faults result }
        ensures leaves { FetchLeaves self.old self.new name.now result }
    {
        let asked = Word::from_text(alloc, name)?;
        self.asked.push(asked)?;
        self.calls = self.calls.saturating_add(1);
        if is_among(&self.failing, self.calls) {
            return Err(self.failed());
        }
        let Some(bytes) = find(&self.files, name) else {
            return Err(self.failed());
        };
        if bytes.bytes().len() as u64 > max {
            return Err(FetchFault::TooLong);
        }
        let own = bytes.copy(alloc)?;
        Ok(own)
    }
}

/// A sink in memory with room for so many bytes. A write takes no memory. It fails where no room is left, and at each
/// call that `fail` names.
#[derive(Drop)]
pub struct MemorySink {
    taken: Vec<u8>,
    room: usize,
    most: u64,
    failing: Vec<u64>,
    calls: u64,
    faults: u64,
}

impl Model for MemorySink {
    ghost use Rattle.std.specs.Prelude.{◌≤◌, length, vec_capacity};
    ghost use Rattle.join_base.specs.Memory.{SinkHeld};

    ghost Value = { SinkHeld };

    ghost view = { λ a. record {
      taken = a.taken.items;
      room = a.room;
      most = a.most;
      failing = a.failing.items;
      calls = a.calls;
      faults = a.faults;
    } };

    ghost invariant = { λ a. (1 ≤ a.most) × (length a.taken.items ≤ a.room) × (a.room ≤ vec_capacity a.taken) };
}

impl MemorySink {
    ghost use Rattle.join_base.specs.Memory.{SinkHeld, empty_sink, with_failing_write};

    /// A sink with room for `room` bytes, of which one write takes at most `most`.
    pub fn new(alloc: Global, room: u64, most: u64) -> Result<MemorySink, NoMemory>
        requires { 1 ≤ most }
        ensures empty { IfOk result (λ s. s ≡ empty_sink room most) }
    {
        let room = room as usize;
        let taken = Vec::with_capacity(alloc, room)?;
        Ok(MemorySink {
            taken,
            room,
            most,
            failing: Vec::new(alloc),
            calls: 0,
            faults: 0,
        })
    }

    /// Has the call of this number fail, counted from 1.
    pub fn fail(&mut self, call: u64) -> Result<(), NoMemory>
        ensures ok { OnOk result (self.new ≡ with_failing_write self.old call) }
        ensures err { OnErr result (self.new ≡ self.old) }
    {
        self.failing.push(call)?;
        Ok(())
    }

    /// The bytes taken.
    pub fn bytes(&self) -> &[u8]
        ensures same { result.now ≡ self.now.taken }
    {
        self.taken.as_slice()
    }
}

impl Sink for MemorySink {
    ghost use Rattle.join_base.specs.Memory.{WriteLeaves};

    ghost taken = { λ s. Some s.taken };

    ghost faults = { λ s. s.faults };

    fn write(&mut self, piece: &[u8]) -> Result<usize, Failed>
        requires some { 0 < length piece.now }
        ensures count { IfOk result (IsCount piece.now) }
        ensures told { WriteTells (Some self.old.taken) (Some self.new.taken) piece.now result }
        ensures cause { WriteCause self.old.faults self.new.faults result }
        ensures leaves { WriteLeaves self.old self.new piece.now result }
    {
        self.calls = self.calls.saturating_add(1);
        let left = self.room - self.taken.len();
        if left == 0 || is_among(&self.failing, self.calls) {
            self.faults = self.faults.saturating_add(1);
            return Err(Failed);
        }
        let most = (left as u64).min(self.most).min(piece.len() as u64) as usize;
        match self.taken.extend_from_slice(&piece[..most]) {
            Ok(()) => Ok(most),
            Err(_) => unreachable!(),
        }
    }
}
