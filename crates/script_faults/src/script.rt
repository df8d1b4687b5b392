//! The fault of a whole script.
ghost use Rattle.std.specs.Prelude.{◌≡◌, ◌<◌, None, IfOk};
ghost use Rattle.script_grammar.specs.Grammar.{Declaration};
ghost use Rattle.script_grammar.specs.Outlines.{Outlines};
ghost use Rattle.script_grammar.specs.ScriptReading.{begins_declaration, declaration_read, script_read};
ghost use Rattle.script_faults.specs.declared.script.Declarations.{Declarations};
ghost use Rattle.script_faults.specs.Finding.{Finds, declaration_after, outline_faults};
ghost use Rattle.script_names.specs.Scope.{spelt_rows};
ghost use Rattle.script_faults.specs.First.{first_of};

use crate::declared::{note_messages, note_twice};
use crate::first::{Fault, note_too_many};
use crate::noter::{Noter, Repeats, note_repeated};
use crate::rule::note_actor;
use join_base::NoMemory;
use script_grammar::{Outline, Stop, is_next, is_next_declaration, skip_message};
use script_names::{Messages, NameTable, actor_names};
use script_tokens::{Mark, Tokens};
use std::alloc::Global;

// The declarations of a script. Those of messages stand in its outline.
#[derive(Drop)]
struct Declarations<'o, 'b> {
    messages: &'b Messages<'o>,
    actors: &'b NameTable<'o, u64>,
    found: Option<Fault>,
}

impl<'a, 'o, 'b> Noter<'a> for Declarations<'o, 'b> {
    ghost Phrase = { Declaration };

    ghost reader = { declaration_read };

    ghost Known = { Declarations };

    ghost known = { λ s. s };

    ghost after = { declaration_after };

    #[tactic(auto, unfolding(script_grammar::specs::ScriptReading::declaration_read))]
    fn note(&mut self, alloc: Global, tokens: &mut Tokens<'a>) -> Result<(), Stop> {
        if is_next(tokens, Mark::Message) {
            skip_message(alloc, tokens)?;
            return Ok(());
        }
        note_actor(alloc, &mut self.found, self.messages, self.actors, tokens)?;
        Ok(())
    }
}

impl<'a, 'o, 'b> Repeats<'a> for Declarations<'o, 'b> {
    ghost begins = { begins_declaration };

    fn is_next(tokens: &Tokens<'a>) -> bool {
        is_next_declaration(tokens)
    }
}

// The first fault of the outline.
fn outline_fault(
    alloc: Global,
    outline: &Outline,
    messages: &Messages<'_>,
    actors: &NameTable<'_, u64>,
) -> Result<Option<Fault>, NoMemory>
    requires messages { messages.now.decls.now ≡ outline.now.messages }
    requires actors { actors.now ≡ spelt_rows outline.now.actors }
    ensures { IfOk result (λ found. found ≡ first_of None (outline_faults outline.now)) }
{
    let mut found = None;
    note_too_many(&mut found, 64, outline.messages.as_slice());
    note_twice(&mut found, messages.names());
    note_messages(alloc, &mut found, outline.messages.as_slice())?;
    note_too_many(&mut found, 32, outline.actors.as_slice());
    note_twice(&mut found, actors);
    Ok(found)
}

/// The fault of a script's names and types that is reported, if there is one: the one at the least place, and of those
/// at one place the first in the order of `ScriptCause`. The tokens are those of a script of this outline, and are read
/// once more.
pub fn first_fault_at<'a>(
    alloc: Global,
    outline: &Outline,
    tokens: &mut Tokens<'a>,
) -> Result<Option<Fault>, Stop>
    requires outline { Outlines outline.now (script_read tokens.old) }
    ensures finds { Finds (script_read tokens.old) result }
{
    let messages = Messages::new(alloc, outline.messages.as_slice())?;
    let actors = actor_names(alloc, outline.actors.as_slice())?;
    let found = outline_fault(alloc, outline, &messages, &actors)?;
    let mut declarations = Declarations {
        messages: &messages,
        actors: &actors,
        found,
    };
    note_repeated(alloc, &mut declarations, tokens)?;
    Ok(declarations.found)
}
