//! Files at the limits of their length.
use crate::calls::{bytes_of, gives};
use join_base::{Bytes, MemoryInputs, NoMemory};
use join_command::Status;
use std::alloc::Global;
use std::sync::Wait;
use std::thread::Threads;

// Its proof has the count as it is: a number that stands in the call would be counted out.
fn spaces(alloc: Global, count: usize) -> Result<Bytes, NoMemory> {
    Ok(Bytes::from_vec(vec![in alloc; b' '; count]?))
}

// The script is the file s, and long has one byte more than a script or a feed may have.
fn long_inputs(alloc: Global) -> Result<MemoryInputs, NoMemory> {
    let mut inputs = MemoryInputs::new(alloc);
    inputs.put(alloc, "long", spaces(alloc, 16_777_217)?)?;
    inputs.put(alloc, "f", bytes_of(alloc, b"")?)?;
    inputs.put(
        alloc,
        "s",
        bytes_of(alloc, b"message a(x: int) actor m { }")?,
    )?;
    Ok(inputs)
}

fn a_log_may_be_longer<R: Threads + Wait + Sync>(rt: &R, alloc: Global) -> Result<bool, NoMemory> {
    let mut inputs = long_inputs(alloc)?;
    let words = ["replay", "s", "long"].as_slice();
    let refused = b"refused log line 1 LogFault\n".as_slice();
    gives(rt, alloc, words, &mut inputs, Status::LogRefused, refused)
}

fn the_file_has_its_number<R: Threads + Wait + Sync>(
    rt: &R,
    alloc: Global,
) -> Result<bool, NoMemory> {
    let mut inputs = long_inputs(alloc)?;
    let words = ["run", "s", "f", "long", "f"].as_slice();
    let refused = b"refused file 3 too long\n".as_slice();
    gives(rt, alloc, words, &mut inputs, Status::TooLong, refused)
}

#[test]
fn a_feed_is_too_long_where_a_log_is_not(rt: HostRuntime) {
    let log = a_log_may_be_longer(&rt, rt.alloc());
    let feed = the_file_has_its_number(&rt, rt.alloc());
    assert!(rt; log == Ok(true) && feed == Ok(true));
}
