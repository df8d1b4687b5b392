//! Real files and real output: the edge of the program, which tells nothing of its bytes.
ghost use Rattle.std.specs.Prelude.{◌≡◌, ◌<◌, ◌≤◌, ◌+◌, ◌^◌, ℕ, List, length, IfOk, IfSome, OnOk, None, min};
ghost use Rattle.join_base.specs.Outside.{FetchCause, FetchTells, IsCount, WriteCause, WriteTells};

use join_base::{Bytes, Failed, FetchFault, Inputs, Sink};
use std::alloc::Global;
use std::fs;
use std::io::{self, ErrorKind, Read, Write};
use std::rt::Files;

/// How often a read or a write is made where signals interrupt it.
pub const MAX_TRIES: u32 = 1_000;

// Reads some bytes, or none at the end.
fn read_some<F: Read>(file: &mut F, buffer: &mut [u8]) -> io::Result<usize>
    ensures within { IfOk result (λ count. count ≤ length buffer.old) }
    ensures same_length { length buffer.new ≡ length buffer.old }
{
    for _ in 0..MAX_TRIES {
        match file.read(buffer) {
            Ok(count) => return Ok(count),
            Err(error) => {
                if error.kind() != ErrorKind::Interrupted {
                    return Err(error);
                }
            }
        }
    }
    Err(io::Error::from(ErrorKind::Interrupted))
}

// Room for this many bytes.
fn buffer_of(alloc: Global, size: usize) -> io::Result<Vec<u8>>
    ensures { IfOk result (λ buffer. length buffer.items ≡ size) }
{
    let buffer = vec![in alloc; 0u8; size]?;
    Ok(buffer)
}

fn append(bytes: &mut Vec<u8>, piece: &[u8]) -> io::Result<()>
    ensures { OnOk result (length bytes.new.items ≡ length bytes.old.items + length piece.now) }
{
    bytes.extend_from_slice(piece)?;
    Ok(())
}

/// Reads to the end. There are none where there are more than `max` bytes, of which a few past them were read. Want of
/// memory is `OutOfMemory`, and a reader that is interrupted again and again `Interrupted`.
pub fn read_up_to<F: Read + Drop>(alloc: Global, mut file: F, max: u64) -> io::Result<Option<Bytes>>
    ensures within { IfOk result (λ found. IfSome found (λ bytes. length bytes ≤ max)) }
{
    let mut bytes = Vec::new(alloc);
    let size = max.saturating_add(1).min(65_536) as usize;
    let mut buffer = buffer_of(alloc, size)?;
    'pieces: while bytes.len() as u64 <= max {
        let count = read_some(&mut file, buffer.as_mut_slice())?;
        if count == 0 {
            return Ok(Some(Bytes::from_vec(bytes)));
        }
        append(&mut bytes, &buffer[..count])?;
    }
    Ok(None)
}

/// The files of the file system, by their paths. They keep the error of the latest fetch that failed.
#[derive(Drop)]
pub struct FileInputs<'a, R: Files> {
    rt: &'a R,
    fetches: u64,
    faults: u64,
    error: Option<io::Error>,
}

impl<'a, R: Files> FileInputs<'a, R> {
    pub fn new(rt: &'a R) -> FileInputs<'a, R>
        ensures no_fault { result.faults ≡ 0 }
    {
        FileInputs {
            rt,
            fetches: 0,
            faults: 0,
            error: None,
        }
    }

    /// How many files were asked for.
    pub fn fetches(&self) -> u64 {
        self.fetches
    }

    /// Why the latest fetch that failed did so.
    pub fn error(&self) -> Option<io::Error> {
        self.error
    }
}

// The bytes of a file, of which there are at most `max`.
fn read_file<R: Files>(rt: &R, alloc: Global, name: &str, max: u64) -> io::Result<Option<Bytes>>
    ensures within { IfOk result (λ found. IfSome found (λ bytes. length bytes ≤ max)) }
{
    let file = fs::open(rt, name)?;
    read_up_to(alloc, file, max)
}

impl<'a, R: Files> Inputs for FileInputs<'a, R> {
    ghost tells = { λ _. None };

    ghost faults = { λ s. s.faults };

    /// A file that is missing, a folder, or one that can't be read is `Failed`, and so is one whose reads are
    /// interrupted again and again. Reading ends soon behind `max` bytes, so a device that never ends is `TooLong`.
    fn fetch(&mut self, alloc: Global, name: &str, max: u64) -> Result<Bytes, FetchFault> {
        self.fetches = self.fetches.saturating_add(1);
        match read_file(self.rt, alloc, name, max) {
            Ok(Some(bytes)) => Ok(bytes),
            Ok(None) => Err(FetchFault::TooLong),
            Err(error) => {
                // Want of memory is no fault of the file.
                if error.kind() == ErrorKind::OutOfMemory {
                    return Err(FetchFault::NoMemory);
                }
                self.error = Some(error);
                self.faults = self.faults.saturating_add(1);
                Err(FetchFault::Failed)
            }
        }
    }
}

/// How many bytes at the front of its output a sink keeps. The line of a refusal is shorter.
pub const FRONT: usize = 64;

/// Output to a writer of the system. It keeps the front of the output, and the error of the latest write that failed.
#[derive(Drop)]
pub struct OutSink<W: Write + Drop> {
    writer: W,
    front: [u8; 64],
    kept: usize,
    error: Option<io::Error>,
    faults: u64,
}

impl<W: Write + Drop> OutSink<W> {
    pub fn new(writer: W) -> OutSink<W>
        ensures no_fault { result.faults ≡ 0 }
    {
        OutSink {
            writer,
            front: [0; 64],
            kept: 0,
            error: None,
            faults: 0,
        }
    }

    /// The front of what was written.
    pub fn front(&self) -> &[u8] {
        &self.front[..self.kept.min(FRONT)]
    }

    /// Why the latest write that failed did so.
    pub fn error(&self) -> Option<io::Error> {
        self.error
    }
}

// Writes some bytes of the piece, or again where a signal came between.
fn write_some<W: Write>(writer: &mut W, piece: &[u8]) -> io::Result<usize>
    requires some { 0 < length piece.now }
    ensures count { IfOk result (IsCount piece.now) }
{
    for _ in 0..MAX_TRIES {
        match writer.write(piece) {
            Ok(0) => return Err(io::Error::from(ErrorKind::WriteZero)),
            Ok(count) => return Ok(count),
            Err(error) => {
                if error.kind() != ErrorKind::Interrupted {
                    return Err(error);
                }
            }
        }
    }
    Err(io::Error::from(ErrorKind::Interrupted))
}

// Puts the front of the bytes behind those that are kept, as far as there is room, and answers how many there are then.
fn keep_front(front: &mut [u8; 64], kept: usize, bytes: &[u8]) -> usize {
    let mut count = kept;
    for b in bytes.iter().take(FRONT) {
        if count < FRONT {
            front[count] = *b;
            count += 1;
        }
    }
    count
}

impl<W: Write + Drop> Sink for OutSink<W> {
    ghost taken = { λ _. None };

    ghost faults = { λ s. s.faults };

    /// A write that takes nothing is a fault, as is one that the system refuses.
    fn write(&mut self, piece: &[u8]) -> Result<usize, Failed> {
        match write_some(&mut self.writer, piece) {
            Ok(count) => {
                self.kept = keep_front(&mut self.front, self.kept, &piece[..count]);
                Ok(count)
            }
            Err(error) => {
                self.error = Some(error);
                self.faults = self.faults.saturating_add(1);
                Err(Failed)
            }
        }
    }
}
