//! What a person is told on standard error. Nothing rests on it: the output and the status stand before.
ghost use Rattle.std.specs.Prelude.{◌<◌, IfSome, length};

use fault_places::{NO_MEMORY, long_note, read_note, refusal_note, unseen_note, write_note};
use join_base::{Bytes, NoMemory, Word, WordList};
use join_command::{Counted, MAX_FILE, MAX_LOG, Status, write_all};
use look_command::{Request, request_of};
use std::alloc::Global;
use std::io::{self, Write};
use system_files::{FileInputs, OutSink, read_again};

const USAGE: &[u8] = b"joinactors: these words are no request; ./look takes
  audit SCRIPT LOG FEED..        1 to 16 feeds
  reactions SCRIPT LOG [ACTOR]   of one actor, or of all
  why SCRIPT LOG ACTOR [NUMBER]  of one message, or of all that wait
";

const OF_OTHERS: &[u8] =
    b"joinactors: the log is accepted by itself, and is not that of these feeds: ";

const BY_REPLAY: &[u8] =
    b"joinactors: ./run replay with this script and log says what should stand there\n";

const UNKNOWN_ACTOR: &str =
    "the script has no actor of this name; ./run check prints those that it has";

fn script_of<'a>(request: &Request<'a>) -> &'a Word {
    match request {
        Request::Audit(words) => words.script,
        Request::Reactions(words) => words.script,
        Request::Why(words) => words.script,
    }
}

fn log_of<'a>(request: &Request<'a>) -> &'a Word {
    match request {
        Request::Audit(words) => words.log,
        Request::Reactions(words) => words.log,
        Request::Why(words) => words.log,
    }
}

// The feed of an audit at a place, counted from 0.
fn feed_of<'a>(request: &Request<'a>, place: u64) -> Option<&'a Word> {
    match request {
        Request::Audit(words) => words.feeds.as_slice().get(place as usize).copied(),
        Request::Reactions(_) | Request::Why(_) => None,
    }
}

// The file of a request that is fetched with this number, counted from 1.
fn file_of<'a>(request: &Request<'a>, number: u64) -> Option<&'a Word> {
    match number {
        0 => None,
        1 => Some(script_of(request)),
        2 => Some(log_of(request)),
        _ => feed_of(request, number - 3),
    }
}

fn actor_of<'a>(request: &Request<'a>) -> Option<&'a Word> {
    match request {
        Request::Audit(_) => None,
        Request::Reactions(words) => words.actor,
        Request::Why(words) => Some(words.actor),
    }
}

fn bytes_of(alloc: Global, text: &[u8]) -> Result<Bytes, NoMemory> {
    let mut bytes = Bytes::new(alloc);
    bytes.push_all(text)?;
    Ok(bytes)
}

// The place of the first line end.
fn place_of_end(text: &[u8]) -> Option<usize>
    ensures { IfSome result (λ place. place < length text.now) }
{
    text.iter().position(|byte| *byte == b'\n')
}

// The first line of the output, with its end, and what stands behind it.
fn first_line(front: &[u8]) -> (&[u8], &[u8]) {
    match place_of_end(front) {
        Some(place) => front.split_at(place + 1),
        None => (front, &[]),
    }
}

// Whether the line refuses a log as `replay` does.
fn is_replays(line: &[u8]) -> bool {
    line.ends_with(b" LogFault\n") || line.ends_with(b" Differs\n")
}

// Why a log is not that of the feeds, by the line that was written and what stands behind it.
fn others_sentence(line: &[u8], behind: &[u8]) -> &'static [u8] {
    if line.starts_with(b"refused log line 1 ") {
        b"its first line has another number of feeds\n"
    } else if behind.starts_with(b"log end ") {
        b"the actor's late lines count more or fewer messages of that feed than are left for it\n"
    } else if line.ends_with(b" no row\n") {
        b"that feed has no row left for the actor of the line shown\n"
    } else {
        b"the row shown should have arrived in place of the line shown\n"
    }
}

fn others_note(alloc: Global, sentence: &[u8]) -> Result<Bytes, NoMemory> {
    let mut note = bytes_of(alloc, OF_OTHERS)?;
    note.push_all(sentence)?;
    Ok(note)
}

// What is told of the file whose refusal was written.
fn refused_note(rt: &HostRuntime, name: &str, line: &[u8]) -> Result<Bytes, NoMemory> {
    match read_again(rt, name, MAX_LOG) {
        Some(text) => refusal_note(rt.alloc(), name, text.bytes(), line),
        None => unseen_note(rt.alloc(), name, line),
    }
}

// What is told of a log that `replay` refuses too.
fn replays_note(rt: &HostRuntime, name: &str, line: &[u8]) -> Result<Bytes, NoMemory> {
    let mut note = refused_note(rt, name, line)?;
    if line.ends_with(b" Differs\n") {
        note.push_all(BY_REPLAY)?;
    }
    Ok(note)
}

// What is told of a log that is refused, by the front of the output.
fn log_note(rt: &HostRuntime, name: &str, front: &[u8]) -> Result<Bytes, NoMemory> {
    let (line, behind) = first_line(front);
    if is_replays(line) {
        replays_note(rt, name, line)
    } else {
        others_note(rt.alloc(), others_sentence(line, behind))
    }
}

// What is told of a name of no actor.
fn actor_note(alloc: Global, request: &Request<'_>) -> Result<Bytes, NoMemory> {
    match actor_of(request) {
        Some(actor) => read_note(alloc, actor.as_str(), UNKNOWN_ACTOR),
        None => Ok(Bytes::new(alloc)),
    }
}

fn error_note(alloc: Global, name: &str, error: Option<io::Error>) -> Result<Bytes, NoMemory> {
    match error {
        Some(error) => {
            let words = format!(in alloc; "{error}")?;
            read_note(alloc, name, words.as_str())
        }
        None => Ok(Bytes::new(alloc)),
    }
}

fn write_fault_note(alloc: Global, error: Option<io::Error>) -> Result<Bytes, NoMemory> {
    match error {
        Some(error) => {
            let words = format!(in alloc; "{error}")?;
            write_note(alloc, words.as_str())
        }
        None => Ok(Bytes::new(alloc)),
    }
}

// What is told of a file of the request.
fn file_note(
    rt: &HostRuntime,
    words: &WordList,
    status: Status,
    inputs: &FileInputs<'_, HostRuntime>,
    line: &[u8],
) -> Result<Bytes, NoMemory> {
    let alloc = rt.alloc();
    let Some(request) = request_of(alloc, words)? else {
        return Ok(Bytes::new(alloc));
    };
    if status == Status::LogRefused {
        return log_note(rt, log_of(&request).as_str(), line);
    }
    if line == b"refused actor\n".as_slice() {
        return actor_note(alloc, &request);
    }
    let number = inputs.fetches();
    let Some(name) = file_of(&request, number) else {
        return Ok(Bytes::new(alloc));
    };
    match status {
        Status::ReadFault => error_note(alloc, name.as_str(), inputs.error()),
        Status::TooLong => {
            let most = if number == 2 { MAX_LOG } else { MAX_FILE };
            long_note(alloc, name.as_str(), most)
        }
        _ => refused_note(rt, name.as_str(), line),
    }
}

fn note_of<W: Write + Drop>(
    rt: &HostRuntime,
    words: &WordList,
    status: Status,
    inputs: &FileInputs<'_, HostRuntime>,
    out: &OutSink<W>,
) -> Result<Bytes, NoMemory> {
    let alloc = rt.alloc();
    match status {
        Status::Done | Status::Limits => Ok(Bytes::new(alloc)),
        Status::Usage => bytes_of(alloc, USAGE),
        Status::NoMemory => Err(NoMemory),
        Status::WriteFault => write_fault_note(alloc, out.error()),
        Status::ScriptRefused
        | Status::FeedRefused
        | Status::LogRefused
        | Status::ReadFault
        | Status::TooLong => file_note(rt, words, status, inputs, out.front()),
    }
}

fn tell_bytes(rt: &HostRuntime, bytes: &[u8]) {
    // Where standard error takes nothing there is nobody to tell.
    let _ = write_all(&mut Counted::new(OutSink::new(rt.stderr())), bytes);
}

pub fn tell_no_memory(rt: &HostRuntime) {
    tell_bytes(rt, NO_MEMORY);
}

/// Tells why a call came to nothing, or why a log is refused.
pub fn tell<W: Write + Drop>(
    rt: &HostRuntime,
    words: &WordList,
    status: Status,
    inputs: &FileInputs<'_, HostRuntime>,
    out: &OutSink<W>,
) {
    match note_of(rt, words, status, inputs, out) {
        Ok(note) => tell_bytes(rt, note.bytes()),
        Err(NoMemory) => tell_no_memory(rt),
    }
}
