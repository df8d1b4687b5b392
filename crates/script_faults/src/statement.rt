//! Faults of statements.
ghost use Rattle.std.specs.Prelude.{◌≡◌, ◌<◌, None, length, IfOk};
ghost use Rattle.script_grammar.specs.ScriptReading.{reply_read, statement_read, stop_read};
ghost use Rattle.script_faults.specs.First.{first_of};
ghost use Rattle.script_grammar.specs.Gives.{Notes};
ghost use Rattle.script_faults.specs.Statements.{said_of};
ghost use Rattle.script_faults.specs.Faults.{statement_faults};

use crate::first::Fault;
use crate::post::note_post;
use crate::print::note_print;
use crate::term::note_operand;
use script_grammar::{Stop, is_next, mark_at, numeral_at};
use script_names::{Messages, NameTable, Variables};
use script_tokens::{Mark, Tokens};
use std::alloc::Global;

/// What the names in a body mean.
#[derive(Clone, Copy, Drop)]
pub(crate) struct Scope<'a, 'o, 'b> {
    pub(crate) messages: &'b Messages<'o>,
    pub(crate) actors: &'b NameTable<'o, u64>,
    pub(crate) variables: &'b Variables<'a>,
}

/// What a body has to know of a statement: its place, that place again where it is a `stop`, and the number of a
/// reply, with its place.
#[derive(Clone, Copy)]
pub(crate) struct Said {
    pub(crate) place: u64,
    pub(crate) stop: Option<u64>,
    pub(crate) reply: Option<(u64, i64)>,
}

/// What a body has to know of a print or a post.
pub(crate) fn quiet(place: u64) -> Said
    ensures { result ≡ record { place = place; stop = None; reply = None } }
{
    Said {
        place,
        stop: None,
        reply: None,
    }
}

// Notes the faults of a reply.
#[tactic(auto, unfolding(script_grammar::specs::ScriptReading::reply_read))]
fn note_reply<'a>(
    alloc: Global,
    found: &mut Option<Fault>,
    scope: &Scope<'a, '_, '_>,
    tokens: &mut Tokens<'a>,
) -> Result<Said, Stop>
    ensures gives { Notes (λ statement said. (said ≡ said_of statement) × (found.new ≡ first_of found.old
        (statement_faults scope.now.messages.now.decls.now scope.now.actors.now scope.now.variables.now statement)))
        result tokens.new (reply_read tokens.old) }
    ensures shorter { IfOk result (λ _. length tokens.new < length tokens.old) }
{
    let place = mark_at(alloc, tokens, Mark::Reply)?;
    let number = numeral_at(alloc, tokens)?;
    note_operand(alloc, found, scope.variables, tokens)?;
    mark_at(alloc, tokens, Mark::Semicolon)?;
    Ok(Said {
        place,
        stop: None,
        reply: Some(number),
    })
}

// A `stop` has no fault of its own.
#[tactic(auto, unfolding(script_grammar::specs::ScriptReading::stop_read))]
fn note_stop<'a>(
    alloc: Global,
    found: &mut Option<Fault>,
    scope: &Scope<'a, '_, '_>,
    tokens: &mut Tokens<'a>,
) -> Result<Said, Stop>
    ensures gives { Notes (λ statement said. (said ≡ said_of statement) × (found.new ≡ first_of found.old
        (statement_faults scope.now.messages.now.decls.now scope.now.actors.now scope.now.variables.now statement)))
        result tokens.new (stop_read tokens.old) }
    ensures shorter { IfOk result (λ _. length tokens.new < length tokens.old) }
{
    let place = mark_at(alloc, tokens, Mark::Stop)?;
    mark_at(alloc, tokens, Mark::Semicolon)?;
    Ok(Said {
        place,
        stop: Some(place),
        reply: None,
    })
}

/// Notes the faults of a statement by itself.
#[tactic(auto, unfolding(script_grammar::specs::ScriptReading::statement_read))]
pub(crate) fn note_statement<'a>(
    alloc: Global,
    found: &mut Option<Fault>,
    scope: &Scope<'a, '_, '_>,
    tokens: &mut Tokens<'a>,
) -> Result<Said, Stop>
    ensures gives { Notes (λ statement said. (said ≡ said_of statement) × (found.new ≡ first_of found.old
        (statement_faults scope.now.messages.now.decls.now scope.now.actors.now scope.now.variables.now statement)))
        result tokens.new (statement_read tokens.old) }
    ensures shorter { IfOk result (λ _. length tokens.new < length tokens.old) }
{
    if is_next(tokens, Mark::Print) {
        note_print(alloc, found, scope, tokens)
    } else if is_next(tokens, Mark::Post) {
        note_post(alloc, found, scope, tokens)
    } else if is_next(tokens, Mark::Reply) {
        note_reply(alloc, found, scope, tokens)
    } else {
        note_stop(alloc, found, scope, tokens)
    }
}
