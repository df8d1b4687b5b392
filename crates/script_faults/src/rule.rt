//! Faults of definitions and of actors.
ghost use Rattle.std.specs.Prelude.{◌≡◌, ◌<◌, length, IfOk};
ghost use Rattle.script_tokens.specs.Marks.{kind_is};
ghost use Rattle.script_tokens.specs.declared.token.Mark.TheVariants as m;
ghost use Rattle.script_grammar.specs.ScriptReading.{actor_read, definition_read};
ghost use Rattle.script_grammar.specs.declared.tree.RuleDecl.{RuleDecl};
ghost use Rattle.script_faults.specs.declared.rule.Rules.{Rules};
ghost use Rattle.script_faults.specs.First.{first_of};
ghost use Rattle.script_grammar.specs.Gives.{Notes};
ghost use Rattle.script_faults.specs.Steps.{rule_after};
ghost use Rattle.script_faults.specs.Faults.{actor_faults, rule_faults, window_faults};

use crate::body::note_body;
use crate::first::{Fault, note_if, note_number};
use crate::guard::note_guard;
use crate::noter::{Noter, Repeats, note_repeated};
use crate::pattern::note_patterns;
use crate::statement::Scope;
use script_grammar::{ScriptCause, Stop, is_next, mark_at, name_at, window_at};
use script_names::{Messages, NameTable};
use script_tokens::{Mark, Tokens};
use std::alloc::Global;

// Notes a window of 0 or of more than 1,000,000.
fn note_window(found: &mut Option<Fault>, window: Option<(u64, i64)>)
    ensures { found.new ≡ first_of found.old (window_faults window) }
{
    if let Some((place, number)) = window {
        let number = number.unsigned_abs();
        let is_wrong = number < 1 || number > 1_000_000;
        note_if(found, is_wrong, ScriptCause::BadWindow, place);
    }
}

// Notes the faults of a definition: where it begins.
#[tactic(auto, unfolding(script_grammar::specs::ScriptReading::definition_read))]
fn note_rule<'a>(
    alloc: Global,
    found: &mut Option<Fault>,
    messages: &Messages<'_>,
    actors: &NameTable<'_, u64>,
    tokens: &mut Tokens<'a>,
) -> Result<u64, Stop>
    ensures gives { Notes (λ rule place. (place ≡ rule.place)
        × (found.new ≡ first_of found.old (rule_faults messages.now.decls.now actors.now rule))) result tokens.new
        (definition_read tokens.old) }
    ensures shorter { IfOk result (λ _. length tokens.new < length tokens.old) }
{
    let place = mark_at(alloc, tokens, Mark::When)?;
    let (patterns, variables) = note_patterns(alloc, found, messages, tokens)?;
    let window = window_at(alloc, tokens)?;
    note_window(found, window);
    note_guard(alloc, found, &variables, tokens)?;
    mark_at(alloc, tokens, Mark::OpenBrace)?;
    let scope = Scope {
        messages,
        actors,
        variables: &variables,
    };
    note_body(alloc, found, &scope, patterns, tokens)?;
    mark_at(alloc, tokens, Mark::CloseBrace)?;
    Ok(place)
}

// The definitions of an actor.
#[derive(Drop)]
struct Rules<'o, 'b> {
    messages: &'b Messages<'o>,
    actors: &'b NameTable<'o, u64>,
    number: usize,
    found: Option<Fault>,
}

impl<'a, 'o, 'b> Noter<'a> for Rules<'o, 'b> {
    ghost Phrase = { RuleDecl };

    ghost reader = { definition_read };

    ghost Known = { Rules };

    ghost known = { λ s. s };

    ghost after = { rule_after };

    fn note(&mut self, alloc: Global, tokens: &mut Tokens<'a>) -> Result<(), Stop> {
        let place = note_rule(alloc, &mut self.found, self.messages, self.actors, tokens)?;
        note_number(&mut self.found, 16, &mut self.number, place)?;
        Ok(())
    }
}

impl<'a, 'o, 'b> Repeats<'a> for Rules<'o, 'b> {
    ghost begins = { kind_is m.When };

    fn is_next(tokens: &Tokens<'a>) -> bool {
        is_next(tokens, Mark::When)
    }
}

/// Notes the faults of an actor's definitions.
#[tactic(auto, unfolding(script_grammar::specs::ScriptReading::actor_read))]
pub(crate) fn note_actor<'a>(
    alloc: Global,
    found: &mut Option<Fault>,
    messages: &Messages<'_>,
    actors: &NameTable<'_, u64>,
    tokens: &mut Tokens<'a>,
) -> Result<(), Stop>
    ensures gives { Notes (λ actor _. found.new ≡ first_of found.old (actor_faults messages.now.decls.now actors.now
        actor)) result tokens.new (actor_read tokens.old) }
    ensures shorter { IfOk result (λ _. length tokens.new < length tokens.old) }
{
    mark_at(alloc, tokens, Mark::Actor)?;
    name_at(alloc, tokens)?;
    mark_at(alloc, tokens, Mark::OpenBrace)?;
    let mut rules = Rules {
        messages,
        actors,
        number: 0,
        found: *found,
    };
    note_repeated(alloc, &mut rules, tokens)?;
    mark_at(alloc, tokens, Mark::CloseBrace)?;
    *found = rules.found;
    Ok(())
}
