//! How many changed logs were replayed, and which got another answer.
ghost use Rattle.script_types.specs.Typed.{IsTyped};

use crate::answer::{Answer, answer_to};
use join_base::NoMemory;
use script_types::Plan;
use std::alloc::Global;

/// A log that got another answer: the line that was changed, and how.
#[derive(Clone, Copy)]
pub struct Miss {
    pub line: u64,
    pub change: &'static str,
}

/// What was found so far.
#[derive(Clone, Copy)]
pub struct Tally {
    pub logs: u64,
    pub misses: u64,
    pub first: Option<Miss>,
}

impl Tally {
    pub fn new() -> Tally {
        Tally {
            logs: 0,
            misses: 0,
            first: None,
        }
    }

    /// Replays a log, and counts its answer beside the one that is wanted.
    pub fn count(
        &mut self,
        alloc: Global,
        plan: &Plan,
        log: &[u8],
        line: u64,
        change: &'static str,
        wanted: Answer,
    ) -> Result<(), NoMemory>
        requires typed { IsTyped plan.now }
    {
        let found = answer_to(alloc, plan, log)?;
        self.judge(line, change, found == wanted);
        Ok(())
    }

    /// Counts a log, with whether it came to what is wanted.
    pub fn judge(&mut self, line: u64, change: &'static str, is_wanted: bool) {
        self.logs = self.logs.saturating_add(1);
        if is_wanted {
            return;
        }
        self.misses = self.misses.saturating_add(1);
        if self.first.is_none() {
            self.first = Some(Miss { line, change });
        }
    }

    /// Counts a log that could not be replayed.
    pub fn miss(&mut self) {
        self.misses = self.misses.saturating_add(1);
    }
}
