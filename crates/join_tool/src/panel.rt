//! The totals of the actors at a terminal, while a run goes on. Nothing rests on it: the output has them too.
use crate::note::tell_bytes;
use join_base::{Bytes, Items, NoMemory, write_number};
use live_board::Totals;
use script_types::Plan;
use std::alloc::Global;
use std::io::IsTerminal;
use std::sync::atomic::{AtomicU64, Ordering};
use std::time::{Duration, Instant};
use watch_run::{View, write_totals};

// A run of so many seconds is not shown.
const SHORT: u64 = 1;

// A longer line is cut at the edge of the terminal, and is continued below it again.
const CUT: &[u8] = b"\x1b[?7l";

const CONTINUE: &[u8] = b"\x1b[?7h";

// Empties the line.
const EMPTY: &[u8] = b"\x1b[2K";

/// Shows a line for each actor on standard error, where that is a terminal, and writes over the lines from then on. It
/// shows what the first monitor reads, once the run has taken more than a second.
#[derive(Drop)]
pub struct Panel {
    // The names of the actors, in order.
    names: Items<Bytes>,
    // When the run began that is to be shown.
    began: Option<Instant>,
    // How many lines stand at the terminal.
    lines: AtomicU64,
}

fn names_of(alloc: Global, plan: &Plan) -> Result<Items<Bytes>, NoMemory> {
    let mut names = Items::new(alloc);
    for actor in plan.actors.as_slice() {
        let mut name = Bytes::new(alloc);
        name.push_all(actor.name.bytes())?;
        names.push(name)?;
    }
    Ok(names)
}

// Appends the line of an actor.
fn push_line(text: &mut Bytes, name: &Bytes, totals: Totals) -> Result<(), NoMemory> {
    text.push_all(EMPTY)?;
    text.push_all(name.bytes())?;
    write_totals(text, totals)?;
    text.push_all(b"\n")
}

// Appends what goes up by so many lines.
fn push_up(text: &mut Bytes, lines: u64) -> Result<(), NoMemory> {
    if lines == 0 {
        return Ok(());
    }
    text.push_all(b"\x1b[")?;
    write_number(text, i128::from(lines))?;
    text.push_all(b"A")
}

impl Panel {
    /// A panel that shows nothing before a run begins.
    pub fn new(alloc: Global) -> Panel {
        Panel {
            names: Items::new(alloc),
            began: None,
            lines: AtomicU64::new(0),
        }
    }

    // Whether the run that began has taken long enough.
    fn is_due(&self, rt: &HostRuntime) -> bool {
        let Some(began) = self.began else {
            return false;
        };
        match began.elapsed(rt) {
            Ok(time) => time > Duration::from_secs(SHORT),
            Err(_) => false,
        }
    }

    // What writes the lines of the actors over those that stand there.
    fn text_of(&self, alloc: Global, rows: &[Totals]) -> Result<Bytes, NoMemory> {
        let mut text = Bytes::new(alloc);
        text.push_all(CUT)?;
        push_up(&mut text, self.lines.load(Ordering::SeqCst))?;
        for (name, totals) in self.names.as_slice().iter().zip(rows.iter()) {
            push_line(&mut text, name, *totals)?;
        }
        text.push_all(CONTINUE)?;
        Ok(text)
    }
}

impl View<HostRuntime> for Panel {
    fn begin(&mut self, rt: &HostRuntime, alloc: Global, plan: &Plan) {
        if !rt.stderr().is_terminal() {
            return;
        }
        // Where there is no memory for it, nothing is shown.
        if let Ok(names) = names_of(alloc, plan) {
            self.names = names;
            self.began = Instant::now(rt).ok();
        }
    }

    fn show(&self, rt: &HostRuntime, alloc: Global, monitor: u32, rows: &[Totals]) {
        if monitor != 1 || !self.is_due(rt) {
            return;
        }
        if let Ok(text) = self.text_of(alloc, rows) {
            tell_bytes(rt, text.bytes());
            self.lines.store(rows.len() as u64, Ordering::SeqCst);
        }
    }
}
