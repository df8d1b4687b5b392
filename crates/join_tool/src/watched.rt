//! Output that is looked at on its way.
ghost use Rattle.std.specs.Prelude.{◌≡◌};

use fault_places::EndWatch;
use join_base::{Bytes, Failed, NoMemory, Sink};
use std::alloc::Global;

/// A sink that looks at what another one takes, for actors that ended at a limit.
#[derive(Drop)]
pub struct WatchedSink<S: Sink + Drop> {
    pub sink: S,
    watch: EndWatch,
    is_lost: bool,
}

impl<S: Sink + Drop> WatchedSink<S> {
    pub fn new(alloc: Global, sink: S) -> WatchedSink<S> {
        WatchedSink {
            sink,
            watch: EndWatch::new(alloc),
            is_lost: false,
        }
    }

    // Looks at bytes that were taken. Without memory it looks no more.
    fn see(&mut self, bytes: &[u8])
        ensures same { self.new.sink ≡ self.old.sink }
    {
        if !self.is_lost {
            self.is_lost = self.watch.see(bytes).is_err();
        }
    }

    /// Whether an actor had too many partial matches.
    pub fn has_jammed(&self) -> bool {
        self.watch.has_jammed()
    }

    /// What is told of actors that ended at a limit.
    pub fn note(&self) -> Result<Bytes, NoMemory> {
        if self.is_lost {
            return Err(NoMemory);
        }
        self.watch.note()
    }
}

impl<S: Sink + Drop> Sink for WatchedSink<S> {
    ghost taken = { λ w. S.taken w.sink };

    ghost faults = { λ w. S.faults w.sink };

    fn write(&mut self, piece: &[u8]) -> Result<usize, Failed> {
        let count = self.sink.write(piece)?;
        self.see(&piece[..count]);
        Ok(count)
    }
}
