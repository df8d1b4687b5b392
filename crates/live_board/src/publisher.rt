//! A publisher. It stands in a file alone, since the words on it import this file.
ghost use Rattle.std.specs.Prelude.{◌≡◌, length};

use crate::note::BoardNote;
use crate::shared_writer::SharedWriter;
use std::sync::{Mutex, Wait};

/// Publishes the totals of each actor that it is shown, and keeps the note of the latest publish of each. Contracts see
/// the notes, one or none for each number below 32 (`notes_of`).
#[derive(Drop)]
pub struct Publisher<'a, W: Wait + Drop> {
    pub(crate) writer: &'a Mutex<SharedWriter<W>>,
    pub(crate) notes: Vec<Option<BoardNote>>,
    // How often it was shown an actor.
    pub(crate) shown: u64,
    ghost room: { length notes.items ≡ 32 },
}
