//! Which patterns may still be replied to.
ghost use Rattle.std.specs.Prelude.{◌≡◌, IfOk, replicate, true, unsigned_abs};
ghost use Rattle.script_faults.specs.First.{first_of};
ghost use Rattle.script_faults.specs.Open.{closed, is_open};
ghost use Rattle.script_faults.specs.Statements.{reply_closed, reply_noted};

use crate::first::{Fault, note_if};
use join_base::NoMemory;
use script_grammar::ScriptCause;
use std::alloc::Global;
use std::marker::Model;

/// A mark for each pattern, whether it may be replied to.
#[derive(Drop)]
pub(crate) struct Marks {
    open: Vec<bool>,
}

impl Model for Marks {
    ghost use Rattle.std.specs.Prelude.{Bool, List};

    ghost Value = { List Bool };

    ghost view = { λ a. a.open.items };
}

// Whether the pattern of this number may be replied to, and then no more.
fn close(marks: &mut [bool], number: i64) -> bool
    ensures open { result ≡ is_open marks.old (unsigned_abs number) }
    ensures closed { marks.new ≡ closed marks.old (unsigned_abs number) }
{
    let number = number.unsigned_abs();
    if number < 1 || number > marks.len() as u64 {
        return false;
    }
    let place = (number - 1) as usize;
    let is_open = marks[place];
    marks[place] = false;
    is_open
}

impl Marks {
    /// All of so many patterns may be replied to.
    pub(crate) fn new(alloc: Global, patterns: usize) -> Result<Marks, NoMemory>
        ensures { IfOk result (λ marks. marks ≡ replicate patterns true) }
    {
        let open = vec![in alloc; true; patterns]?;
        Ok(Marks { open })
    }

    // Whether the pattern of this number may be replied to, and then no more.
    fn close(&mut self, number: i64) -> bool
        ensures open { result ≡ is_open self.old (unsigned_abs number) }
        ensures closed { self.new ≡ closed self.old (unsigned_abs number) }
    {
        close(self.open.as_mut_slice(), number)
    }

    /// Notes a reply to a pattern that may not be replied to.
    pub(crate) fn note_reply(&mut self, found: &mut Option<Fault>, reply: Option<(u64, i64)>)
        ensures found { found.new ≡ first_of found.old (reply_noted self.old reply) }
        ensures closed { self.new ≡ reply_closed self.old reply }
    {
        if let Some((place, number)) = reply {
            let is_open = self.close(number);
            note_if(found, !is_open, ScriptCause::BadReply, place);
        }
    }
}
