//! Calls of the top call over files and a sink in memory.
use join_base::{Bytes, MemoryInputs, MemorySink, NoMemory, Word, WordList};
use join_command::{Counted, FreeGate, Gate, NoView, Status, join_main};
use std::alloc::Global;
use std::sync::Wait;
use std::thread::Threads;

pub fn bytes_of(alloc: Global, text: &[u8]) -> Result<Bytes, NoMemory> {
    let mut bytes = Bytes::new(alloc);
    bytes.push_all(text)?;
    Ok(bytes)
}

pub fn inputs_of(alloc: Global, files: &[(&str, &[u8])]) -> Result<MemoryInputs, NoMemory> {
    let mut inputs = MemoryInputs::new(alloc);
    for (name, content) in files {
        inputs.put(alloc, name, bytes_of(alloc, content)?)?;
    }
    Ok(inputs)
}

fn words_of(alloc: Global, texts: &[&str]) -> Result<WordList, NoMemory> {
    let mut words = WordList::new(alloc);
    for text in texts {
        words.push(Word::from_text(alloc, text)?)?;
    }
    Ok(words)
}

// The status of the words over the inputs and the sink, past the gate, and the sink then.
fn carry_out<R: Threads + Wait + Sync, G: Gate>(
    rt: &R,
    alloc: Global,
    texts: &[&str],
    inputs: &mut MemoryInputs,
    sink: MemorySink,
    gate: &G,
) -> Result<(Status, MemorySink), NoMemory> {
    let words = words_of(alloc, texts)?;
    let mut out = Counted::new(sink);
    let status = join_main(rt, alloc, &words, inputs, &mut out, gate, &mut NoView);
    Ok((status, out.into_sink()))
}

/// Whether the words end with the status, and the sink has the output and nothing else.
pub fn writes<R: Threads + Wait + Sync>(
    rt: &R,
    alloc: Global,
    texts: &[&str],
    inputs: &mut MemoryInputs,
    sink: MemorySink,
    status: Status,
    output: &[u8],
) -> Result<bool, NoMemory> {
    let (found, out) = carry_out(rt, alloc, texts, inputs, sink, &FreeGate)?;
    Ok(found == status && out.bytes() == output)
}

/// The same with a sink that takes all.
pub fn gives<R: Threads + Wait + Sync>(
    rt: &R,
    alloc: Global,
    texts: &[&str],
    inputs: &mut MemoryInputs,
    status: Status,
    output: &[u8],
) -> Result<bool, NoMemory> {
    let sink = MemorySink::new(alloc, 100_000, 100_000)?;
    writes(rt, alloc, texts, inputs, sink, status, output)
}

/// The status of the words past the gate, and what they write.
pub fn answer_to<R: Threads + Wait + Sync, G: Gate>(
    rt: &R,
    alloc: Global,
    texts: &[&str],
    inputs: &mut MemoryInputs,
    gate: &G,
) -> Result<(Status, Bytes), NoMemory> {
    let sink = MemorySink::new(alloc, 100_000, 100_000)?;
    let (status, out) = carry_out(rt, alloc, texts, inputs, sink, gate)?;
    let output = bytes_of(alloc, out.bytes())?;
    Ok((status, output))
}

/// Whether a replay of the script, which is the file s, accepts the log.
pub fn is_accepted<R: Threads + Wait + Sync>(
    rt: &R,
    alloc: Global,
    inputs: &mut MemoryInputs,
    log: Bytes,
) -> Result<bool, NoMemory> {
    inputs.put(alloc, "log", log)?;
    let (status, output) = answer_to(rt, alloc, &["replay", "s", "log"], inputs, &FreeGate)?;
    Ok(status == Status::Done && output.bytes().starts_with(b"accepted "))
}
