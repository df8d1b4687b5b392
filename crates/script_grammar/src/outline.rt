//! The outline of a script.
ghost use Rattle.std.specs.Prelude.{IfOk};
ghost use Rattle.script_grammar.specs.ScriptReading.{actor_read, declaration_read, script_read};
ghost use Rattle.script_grammar.specs.Outlines.{Outlines, named};
ghost use Rattle.script_grammar.specs.Gives.{Gives};
ghost use Rattle.script_grammar.specs.Refusal.{Answers, OneTree, OneRefusal, RefusalStays};
ghost use Rattle.script_grammar.specs.Beginning.{Declares};
ghost use Rattle.script_grammar.specs.Filled.{ScriptsAreFilled};

use crate::message::message_at;
use crate::part::{is_next, is_next_declaration, mark_at, name_at};
use crate::skip::skip_repeated;
use crate::stop::Stop;
use crate::tree::{MessageDecl, RuleDecl, Spelt};
use join_base::Items;
use script_tokens::{Mark, Tokens};
use std::alloc::Global;

/// The messages of a script, and the names of its actors, each in the order of the text.
#[derive(Drop)]
pub struct Outline {
    pub messages: Items<MessageDecl>,
    pub actors: Items<Spelt>,
}

// The name of an actor, whose definitions are passed over.
#[tactic(auto, using(crate::proofs::PassedRules::actor_named))]
fn actor_name_at(alloc: Global, tokens: &mut Tokens<'_>) -> Result<Spelt, Stop>
    ensures { Gives (λ x. x) result tokens.new (named (actor_read tokens.old)) }
{
    mark_at(alloc, tokens, Mark::Actor)?;
    let name = name_at(alloc, tokens)?;
    mark_at(alloc, tokens, Mark::OpenBrace)?;
    skip_repeated::<RuleDecl>(alloc, tokens)?;
    mark_at(alloc, tokens, Mark::CloseBrace)?;
    Ok(name)
}

// Adds the declaration in front of the tokens to the outline.
fn declaration_at(alloc: Global, outline: &mut Outline, tokens: &mut Tokens<'_>) -> Result<(), Stop>
    ensures { Declares outline.old outline.new (declaration_read tokens.old) tokens.new result }
{
    if is_next(tokens, Mark::Message) {
        let message = message_at(alloc, tokens)?;
        outline.messages.push(message)?;
        return Ok(());
    }
    let actor = actor_name_at(alloc, tokens)?;
    outline.actors.push(actor)?;
    Ok(())
}

/// The outline of all tokens, where they are a script. `Refused` where they are none: in front of them is the first one
/// then at which no continuation is a script, or none is left where they end too early.
pub fn outline_at(alloc: Global, tokens: &mut Tokens<'_>) -> Result<Outline, Stop>
    ensures answers { Answers tokens.old tokens.new result }
    ensures outline { IfOk result (λ outline. Outlines outline (script_read tokens.old)) }
{
    let mut outline = Outline {
        messages: Items::new(alloc),
        actors: Items::new(alloc),
    };
    'list: while is_next_declaration(tokens) {
        declaration_at(alloc, &mut outline, tokens)?;
    }
    if !tokens.is_empty() {
        return Err(Stop::Refused);
    }
    if outline.actors.len() == 0 {
        return Err(Stop::Refused);
    }
    Ok(outline)
}

/// Tokens are one script at the most, and are refused at one place at the most. What follows a refused token is of no
/// importance.
pub fn one_answer()
    ensures tree { OneTree }
    ensures refusal { OneRefusal }
    ensures stays { RefusalStays }
{}

/// The tree of a script has no gaps: an actor at least, a pattern in each definition, a leaf in each term, and an item
/// in each print.
pub fn filled_law()
    ensures { ScriptsAreFilled }
{}
