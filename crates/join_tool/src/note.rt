//! What a person is told on standard error. Nothing rests on it: the output and the status stand before.
use crate::remark::{feeds_remark, script_remark, script_to_remark};
use crate::wanted::wanted_line;
use crate::watched::WatchedSink;
use command_words::Request;
use fault_places::{
    NO_MEMORY, differing_note, long_note, read_note, refusal_note, refusal_note_by, unseen_note,
    words_note, write_note,
};
use join_base::{Bytes, NoMemory, Word, WordList};
use join_command::{Counted, MAX_FILE, MAX_LOG, Status, command_of, write_all};
use std::alloc::Global;
use std::io::{self, Write};
use system_files::{FileInputs, OutSink, read_again};

// The file of a command that is fetched with this number, counted from 1.
fn file_of<'a>(command: &Request<'a>, number: u64) -> Option<&'a Word> {
    let behind_script = number.checked_sub(2);
    match (command, behind_script) {
        (Request::Run(run) | Request::Ask(run) | Request::Watch { run, .. }, Some(place)) => {
            run.feeds.as_slice().get(place as usize).copied()
        }
        (Request::Replay { log, .. }, Some(0)) => Some(*log),
        (Request::Run(run) | Request::Ask(run) | Request::Watch { run, .. }, None) => Some(
            run.script,
        ),
        (Request::Check { script }, None)
        | (Request::Lint { script }, None)
        | (Request::Replay { script, .. }, None) => Some(*script),
        _ => None,
    }
}

// The most bytes of that file.
fn most_of(command: &Request<'_>, number: u64) -> u64 {
    match command {
        Request::Replay { .. } if number == 2 => MAX_LOG,
        _ => MAX_FILE,
    }
}

fn words_of(alloc: Global, error: io::Error) -> Result<String, NoMemory> {
    let words = format!(in alloc; "{error}")?;
    Ok(words)
}

fn read_fault_note(alloc: Global, name: &str, error: Option<io::Error>) -> Result<Bytes, NoMemory> {
    match error {
        Some(error) => read_note(alloc, name, words_of(alloc, error)?.as_str()),
        None => Ok(Bytes::new(alloc)),
    }
}

// What is told of a feed or the script of a run, where the script can be read again.
fn run_note(
    rt: &HostRuntime,
    script: &Word,
    name: &str,
    text: &[u8],
    line: &[u8],
) -> Result<Bytes, NoMemory> {
    match read_again(rt, script.as_str(), MAX_LOG) {
        Some(script) => refusal_note_by(rt.alloc(), name, text, script.bytes(), line),
        None => refusal_note(rt.alloc(), name, text, line),
    }
}

// What is told of the script or the log of a replay.
fn replay_note(
    rt: &HostRuntime,
    script: &Word,
    name: &str,
    text: &[u8],
    line: &[u8],
) -> Result<Bytes, NoMemory> {
    match wanted_line(rt, script, text, line) {
        Some(wanted) => differing_note(rt.alloc(), name, text, Some(wanted.bytes()), line),
        None => refusal_note(rt.alloc(), name, text, line),
    }
}

// What is told of the file whose refusal was written.
fn refused_note(
    rt: &HostRuntime,
    command: &Request<'_>,
    name: &str,
    line: &[u8],
) -> Result<Bytes, NoMemory> {
    let Some(text) = read_again(rt, name, MAX_LOG) else {
        return unseen_note(rt.alloc(), name, line);
    };
    match command {
        Request::Run(run) | Request::Ask(run) | Request::Watch { run, .. } => run_note(
            rt,
            run.script,
            name,
            text.bytes(),
            line,
        ),
        Request::Replay { script, .. } => replay_note(rt, *script, name, text.bytes(), line),
        _ => refusal_note(rt.alloc(), name, text.bytes(), line),
    }
}

// What is told of the file that was fetched last.
fn file_note(
    rt: &HostRuntime,
    words: &WordList,
    status: Status,
    inputs: &FileInputs<'_, HostRuntime>,
    line: &[u8],
) -> Result<Bytes, NoMemory> {
    let alloc = rt.alloc();
    let Some(command) = command_of(alloc, words)? else {
        return Ok(Bytes::new(alloc));
    };
    let fetches = inputs.fetches();
    let Some(name) = file_of(&command, fetches) else {
        return Ok(Bytes::new(alloc));
    };
    match status {
        Status::ReadFault => read_fault_note(alloc, name.as_str(), inputs.error()),
        Status::TooLong => long_note(alloc, name.as_str(), most_of(&command, fetches)),
        _ => refused_note(rt, &command, name.as_str(), line),
    }
}

fn write_fault_note(alloc: Global, error: Option<io::Error>) -> Result<Bytes, NoMemory> {
    match error {
        Some(error) => write_note(alloc, words_of(alloc, error)?.as_str()),
        None => Ok(Bytes::new(alloc)),
    }
}

fn note_of<W: Write + Drop>(
    rt: &HostRuntime,
    words: &WordList,
    status: Status,
    inputs: &FileInputs<'_, HostRuntime>,
    out: &WatchedSink<OutSink<W>>,
) -> Result<Bytes, NoMemory> {
    let alloc = rt.alloc();
    match status {
        Status::Done => Ok(Bytes::new(alloc)),
        Status::Limits => out.note(),
        Status::Usage => words_note(alloc, words),
        Status::NoMemory => Err(NoMemory),
        Status::WriteFault => write_fault_note(alloc, out.sink.error()),
        Status::ScriptRefused
        | Status::FeedRefused
        | Status::LogRefused
        | Status::ReadFault
        | Status::TooLong => file_note(rt, words, status, inputs, out.sink.front()),
    }
}

/// Writes to standard error what it takes.
pub fn tell_bytes(rt: &HostRuntime, bytes: &[u8]) {
    // Where standard error takes nothing there is nobody to tell.
    let _ = write_all(&mut Counted::new(OutSink::new(rt.stderr())), bytes);
}

pub fn tell_no_memory(rt: &HostRuntime) {
    tell_bytes(rt, NO_MEMORY);
}

// What is remarked besides, where the script has no fault.
fn remark_of(
    rt: &HostRuntime,
    words: &WordList,
    status: Status,
    has_jammed: bool,
) -> Result<Bytes, NoMemory> {
    let alloc = rt.alloc();
    let mut out = Bytes::new(alloc);
    match (status, command_of(alloc, words)?) {
        (Status::Done | Status::Limits | Status::FeedRefused, Some(command)) => {
            if let Some(script) = script_to_remark(&command, has_jammed) {
                out.push_all(script_remark(rt, script)?.bytes())?;
            }
            out.push_all(feeds_remark(rt, &command)?.bytes())?;
        }
        _ => {}
    }
    Ok(out)
}

fn tell_all(rt: &HostRuntime, note: Result<Bytes, NoMemory>) {
    match note {
        Ok(note) => tell_bytes(rt, note.bytes()),
        Err(NoMemory) => tell_no_memory(rt),
    }
}

/// Tells why a call came to nothing, or that an actor met a limit, and what else is to be remarked.
pub fn tell<W: Write + Drop>(
    rt: &HostRuntime,
    words: &WordList,
    status: Status,
    inputs: &FileInputs<'_, HostRuntime>,
    out: &WatchedSink<OutSink<W>>,
) {
    tell_all(rt, note_of(rt, words, status, inputs, out));
    tell_all(rt, remark_of(rt, words, status, out.has_jammed()));
}
