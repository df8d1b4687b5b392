//! Files of the machine, readers that are interrupted, and writers without room.
use join_base::{FetchFault, Inputs, Sink};
use std::alloc::Global;
use std::fs;
use std::io::{self, ErrorKind, Read};
use std::rt::Files;
use std::test::Fail;
use system_files::{FileInputs, MAX_TRIES, OutSink, read_up_to};

const FEED: &[u8] = b"m,a,1\nm,b,2\n";

// Whether a fetch gives the bytes of the feed.
fn is_fetched<R: Files>(inputs: &mut FileInputs<'_, R>, alloc: Global, name: &str) -> bool {
    match inputs.fetch(alloc, name, 12) {
        Ok(bytes) => bytes.bytes() == FEED,
        Err(_) => false,
    }
}

// Whether a fetch of at most so many bytes answers this fault.
fn is_refused<R: Files>(
    inputs: &mut FileInputs<'_, R>,
    alloc: Global,
    name: &str,
    max: u64,
    fault: FetchFault,
) -> bool {
    match inputs.fetch(alloc, name, max) {
        Ok(_) => false,
        Err(found) => found == fault,
    }
}

#[test]
fn files_are_read(rt: HostRuntime) -> Result<(), Fail> {
    let alloc = rt.alloc();
    let name = "command_tests_feed";
    fs::write(&rt, name, FEED)?;
    let mut inputs = FileInputs::new(&rt);
    let whole = is_fetched(&mut inputs, alloc, name);
    let short = is_refused(&mut inputs, alloc, name, 11, FetchFault::TooLong);
    fs::remove_file(&rt, name)?;
    // The file that is gone, a folder, a file whose bytes can't be read, and a device without an end.
    let others = is_refused(&mut inputs, alloc, name, 12, FetchFault::Failed)
        && is_refused(&mut inputs, alloc, ".", 12, FetchFault::Failed)
        && is_refused(&mut inputs, alloc, "/proc/self/mem", 12, FetchFault::Failed)
        && is_refused(
            &mut inputs,
            alloc,
            "/dev/zero",
            100_000,
            FetchFault::TooLong,
        );
    assert!(rt; whole && short && others);
    Ok(())
}

// A reader that is interrupted so many times in front of each answer, and then gives a byte while there are some.
#[derive(Drop)]
struct Interrupted {
    times: u32,
    left: u32,
    bytes: u32,
}

impl Read for Interrupted {
    fn read(&mut self, buffer: &mut [u8]) -> io::Result<usize> {
        if self.left > 0 {
            self.left -= 1;
            return Err(io::Error::from(ErrorKind::Interrupted));
        }
        self.left = self.times;
        if self.bytes == 0 || buffer.is_empty() {
            return Ok(0);
        }
        self.bytes -= 1;
        buffer[0] = b'k';
        Ok(1)
    }
}

// One with three bytes.
fn three_bytes(times: u32) -> Interrupted {
    Interrupted {
        times,
        left: 0,
        bytes: 3,
    }
}

fn three_are_read(alloc: Global) -> bool {
    match read_up_to(alloc, three_bytes(MAX_TRIES - 1), 3) {
        Ok(Some(bytes)) => bytes.bytes() == b"kkk".as_slice(),
        _ => false,
    }
}

fn it_gives_up(alloc: Global) -> bool {
    match read_up_to(alloc, three_bytes(MAX_TRIES), 3) {
        Err(error) => error.kind() == ErrorKind::Interrupted,
        Ok(_) => false,
    }
}

#[test]
fn interrupted_reads_are_made_again(rt: HostRuntime) {
    assert!(rt; three_are_read(rt.alloc()) && it_gives_up(rt.alloc()));
}

// Whether a writer that takes all has the feed.
fn is_written(alloc: Global) -> bool {
    let mut written = Vec::new(alloc);
    let mut sink = OutSink::new(&mut written);
    sink.write(FEED) == Ok(12) && written.as_slice() == FEED
}

// Whether a writer with room for four bytes takes so many, and then none.
fn is_full() -> bool {
    let mut room = [0u8; 4];
    let mut full = OutSink::new(room.as_mut_slice());
    full.write(FEED) == Ok(4) && full.write(b"1").is_err() && room.as_slice() == b"m,a,".as_slice()
}

#[test]
fn output_goes_to_a_writer(rt: HostRuntime) {
    assert!(rt; is_written(rt.alloc()) && is_full());
}
