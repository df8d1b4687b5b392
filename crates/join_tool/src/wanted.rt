//! The line that should stand in a log in place of one that differs.
use expected_line::expected_line;
use fault_places::differing_line;
use join_base::{Bytes, NoMemory, Word};
use join_command::MAX_LOG;
use script_check::read_plan;
use system_files::read_again;

// The most bytes of a log whose expected run is made once more.
const MAX_AGAIN: usize = 16_777_216;

/// The line that should stand in a log where a written line says that one differs. None of a larger log, where the
/// script can't be read again, and without memory.
pub fn wanted_line(rt: &HostRuntime, script: &Word, log: &[u8], line: &[u8]) -> Option<Bytes> {
    let number = differing_line(line)?;
    if log.len() > MAX_AGAIN {
        return None;
    }
    let text = read_again(rt, script.as_str(), MAX_LOG)?;
    let Ok(plan) = read_plan(rt.alloc(), text.bytes()) else {
        return None;
    };
    match expected_line(rt.alloc(), &plan, log, number.saturating_sub(1)) {
        Ok(wanted) => wanted,
        Err(NoMemory) => None,
    }
}
