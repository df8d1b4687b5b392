//! Faults of bodies.
ghost use Rattle.std.specs.Prelude.{◌≡◌, ◌++◌, ◌≤◌, [], length, IfOk};
ghost use Rattle.script_grammar.specs.Reading.{repeated};
ghost use Rattle.script_grammar.specs.ScriptReading.{begins_statement, next_is, statement_read};
ghost use Rattle.script_grammar.specs.declared.tree.StatementDecl.{StatementDecl};
ghost use Rattle.script_faults.specs.declared.body.Body.{Body};
ghost use Rattle.script_faults.specs.First.{first_of};
ghost use Rattle.script_grammar.specs.Gives.{Notes};
ghost use Rattle.script_faults.specs.Steps.{statement_after};
ghost use Rattle.script_faults.specs.Statements.{stop_before};
ghost use Rattle.script_faults.specs.Faults.{body_faults, reply_faults};

use crate::first::{Fault, note, note_number};
use crate::noter::{Noter, Repeats, note_repeated};
use crate::reply::Marks;
use crate::statement::{Scope, note_statement};
use script_grammar::{ScriptCause, Stop, is_next_statement};
use script_tokens::Tokens;
use std::alloc::Global;

// The statements of a body. The last one is known by its place where it was a `stop`.
#[derive(Drop)]
struct Body<'a, 'o, 'b> {
    scope: Scope<'a, 'o, 'b>,
    number: usize,
    marks: Marks,
    stop: Option<u64>,
    found: Option<Fault>,
}

// Notes a `stop` that is not the last statement.
fn note_stopped(found: &mut Option<Fault>, stop: Option<u64>)
    ensures { found.new ≡ first_of found.old (stop_before stop) }
{
    if let Some(place) = stop {
        note(found, ScriptCause::StopNotLast, place);
    }
}

impl<'a, 'o, 'b> Noter<'a> for Body<'a, 'o, 'b> {
    ghost Phrase = { StatementDecl };

    ghost reader = { statement_read };

    ghost Known = { Body };

    ghost known = { λ s. s };

    ghost after = { statement_after };

    fn note(&mut self, alloc: Global, tokens: &mut Tokens<'a>) -> Result<(), Stop> {
        note_stopped(&mut self.found, self.stop);
        let said = note_statement(alloc, &mut self.found, &self.scope, tokens)?;
        self.stop = said.stop;
        self.marks.note_reply(&mut self.found, said.reply);
        note_number(&mut self.found, 16, &mut self.number, said.place)?;
        Ok(())
    }
}

impl<'a, 'o, 'b> Repeats<'a> for Body<'a, 'o, 'b> {
    ghost begins = { begins_statement };

    fn is_next(tokens: &Tokens<'a>) -> bool {
        is_next_statement(tokens)
    }
}

/// Notes the faults of a body behind so many patterns, and of its replies.
pub(crate) fn note_body<'a>(
    alloc: Global,
    found: &mut Option<Fault>,
    scope: &Scope<'a, '_, '_>,
    patterns: usize,
    tokens: &mut Tokens<'a>,
) -> Result<(), Stop>
    ensures gives { Notes (λ body _. found.new ≡ first_of found.old (body_faults scope.now.messages.now.decls.now
        scope.now.actors.now scope.now.variables.now body ++ reply_faults patterns [] body)) result tokens.new
        (repeated (next_is begins_statement) statement_read tokens.old) }
    ensures no_longer { IfOk result (λ _. length tokens.new ≤ length tokens.old) }
{
    let marks = Marks::new(alloc, patterns)?;
    let mut body = Body {
        scope: *scope,
        number: 0,
        marks,
        stop: None,
        found: *found,
    };
    note_repeated(alloc, &mut body, tokens)?;
    *found = body.found;
    Ok(())
}
