use join_base::{Bytes, FetchFault, Inputs, MemoryInputs, MemorySink, NoMemory, Sink};
use std::alloc::Global;
use std::test::Fail;

// The text under a name, put twice, where the second call fails.
fn inputs(alloc: Global) -> Result<MemoryInputs, NoMemory> {
    let mut inputs = MemoryInputs::new(alloc);
    for text in [b"one", b"two"] {
        let mut bytes = Bytes::new(alloc);
        bytes.push_all(text)?;
        inputs.put(alloc, "a", bytes)?;
    }
    inputs.fail(2)?;
    Ok(inputs)
}

fn gives(answer: Result<Bytes, FetchFault>, bytes: &[u8]) -> bool {
    match answer {
        Ok(found) => found.bytes() == bytes,
        Err(_) => false,
    }
}

fn fails(answer: Result<Bytes, FetchFault>, fault: FetchFault) -> bool {
    match answer {
        Ok(_) => false,
        Err(found) => found == fault,
    }
}

#[test]
fn inputs_in_memory_fail_where_they_are_told_to(rt: HostRuntime) -> Result<(), Fail> {
    let alloc = rt.alloc();
    let mut inputs = inputs(alloc)?;
    let all = gives(inputs.fetch(alloc, "a", 3), b"two")
        && fails(inputs.fetch(alloc, "a", 3), FetchFault::Failed)
        && fails(inputs.fetch(alloc, "a", 2), FetchFault::TooLong)
        && fails(inputs.fetch(alloc, "b", 3), FetchFault::Failed)
        && gives(inputs.fetch(alloc, "a", 3), b"two");
    assert!(rt; all);
    Ok(())
}

fn is_filled(out: &mut MemorySink) -> bool {
    out.write(b"abc") == Ok(2)
        && out.write(b"c").is_err()
        && out.write(b"c") == Ok(1)
        && out.write(b"defg") == Ok(2)
        && out.write(b"fg").is_err()
        && out.bytes() == b"abcde".as_slice()
}

#[test]
fn a_sink_in_memory_takes_some_bytes_up_to_its_room(rt: HostRuntime) -> Result<(), Fail> {
    let mut out = MemorySink::new(rt.alloc(), 5, 2)?;
    out.fail(2)?;
    assert!(rt; is_filled(&mut out));
    Ok(())
}
