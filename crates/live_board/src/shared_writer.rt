//! A writer that threads share.
ghost use Rattle.std.specs.Prelude.{◌≡◌};

use crate::writer::BoardWriter;
use std::sync::Wait;

/// A writer that may lie in a `Mutex`. It keeps the handle `R`, as `&R` of a program's, since its drop ends the board,
/// which waits.
pub struct SharedWriter<R: Wait + Drop> {
    pub(crate) writer: BoardWriter,
    rt: R,
}

impl<R: Wait + Drop> Drop for SharedWriter<R> {
    fn drop(self) {
        let Self { writer, rt } = self;
        writer.close(&rt);
    }
}

impl<R: Wait + Drop> SharedWriter<R> {
    /// The writer of a board, with the handle that its end waits with.
    pub fn new(writer: BoardWriter, rt: R) -> SharedWriter<R>
        ensures writer { result.writer ≡ writer }
    {
        SharedWriter { writer, rt }
    }

    /// The writer, which `close` ends.
    pub fn into_writer(self) -> BoardWriter
        ensures writer { result ≡ self.writer }
    {
        let Self { writer, rt: _ } = self;
        writer
    }
}
