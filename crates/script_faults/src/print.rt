//! Faults of prints.
ghost use Rattle.std.specs.Prelude.{◌≡◌, ◌<◌, length, IfOk};
ghost use Rattle.script_grammar.specs.Operands.{item_place};
ghost use Rattle.script_grammar.specs.ScriptReading.{begins_item, item_read, print_read};
ghost use Rattle.script_grammar.specs.declared.tree.ItemDecl.{ItemDecl};
ghost use Rattle.script_faults.specs.declared.print.Printed.{Printed};
ghost use Rattle.script_faults.specs.First.{first_of};
ghost use Rattle.script_grammar.specs.Gives.{Notes};
ghost use Rattle.script_faults.specs.Steps.{item_after};
ghost use Rattle.script_faults.specs.Statements.{items_read, said_of};
ghost use Rattle.script_faults.specs.Faults.{item_faults, print_faults, statement_faults};

use crate::first::{Fault, note_number};
use crate::noter::{Noter, Repeats, note_repeated};
use crate::statement::{Said, Scope, quiet};
use crate::term::{note_name, note_term};
use script_grammar::{Stop, is_next_item, is_next_name, is_next_words, mark_at, name_at, words_at};
use script_names::Variables;
use script_tokens::{Mark, Tokens};
use std::alloc::Global;

// Notes the faults of what a print writes: where it begins.
#[tactic(auto, unfolding(script_grammar::specs::ScriptReading::item_read))]
fn note_item<'a>(
    alloc: Global,
    found: &mut Option<Fault>,
    variables: &Variables<'a>,
    tokens: &mut Tokens<'a>,
) -> Result<u64, Stop>
    ensures gives { Notes (λ item place. (place ≡ item_place item)
        × (found.new ≡ first_of found.old (item_faults variables.now item))) result tokens.new (item_read tokens.old) }
    ensures shorter { IfOk result (λ _. length tokens.new < length tokens.old) }
{
    if is_next_words(tokens) {
        let (start, _) = words_at(alloc, tokens)?;
        return Ok(start);
    }
    if is_next_name(tokens) {
        let spelt = name_at(alloc, tokens)?;
        note_name(found, variables, &spelt.name, spelt.place, true);
        return Ok(spelt.place);
    }
    let place = mark_at(alloc, tokens, Mark::Open)?;
    note_term(alloc, found, variables, false, tokens)?;
    mark_at(alloc, tokens, Mark::Close)?;
    Ok(place)
}

// The items of a print.
#[derive(Drop)]
struct Printed<'a, 'b> {
    variables: &'b Variables<'a>,
    number: usize,
    found: Option<Fault>,
}

impl<'a, 'b> Noter<'a> for Printed<'a, 'b> {
    ghost Phrase = { ItemDecl };

    ghost reader = { item_read };

    ghost Known = { Printed };

    ghost known = { λ s. s };

    ghost after = { item_after };

    fn note(&mut self, alloc: Global, tokens: &mut Tokens<'a>) -> Result<(), Stop> {
        let place = note_item(alloc, &mut self.found, self.variables, tokens)?;
        note_number(&mut self.found, 16, &mut self.number, place)?;
        Ok(())
    }
}

impl<'a, 'b> Repeats<'a> for Printed<'a, 'b> {
    ghost begins = { begins_item };

    fn is_next(tokens: &Tokens<'a>) -> bool {
        is_next_item(tokens)
    }
}

// Notes the faults of the items of a print.
fn note_items<'a>(
    alloc: Global,
    found: &mut Option<Fault>,
    variables: &Variables<'a>,
    tokens: &mut Tokens<'a>,
) -> Result<(), Stop>
    ensures gives { Notes (λ items _. found.new ≡ first_of found.old (print_faults variables.now items)) result
        tokens.new (items_read tokens.old) }
    ensures shorter { IfOk result (λ _. length tokens.new < length tokens.old) }
{
    let mut printed = Printed {
        variables,
        number: 0,
        found: *found,
    };
    printed.note(alloc, tokens)?;
    note_repeated(alloc, &mut printed, tokens)?;
    *found = printed.found;
    Ok(())
}

/// Notes the faults of a print.
#[tactic(auto, unfolding(script_grammar::specs::ScriptReading::print_read))]
pub(crate) fn note_print<'a>(
    alloc: Global,
    found: &mut Option<Fault>,
    scope: &Scope<'a, '_, '_>,
    tokens: &mut Tokens<'a>,
) -> Result<Said, Stop>
    ensures gives { Notes (λ statement said. (said ≡ said_of statement) × (found.new ≡ first_of found.old
        (statement_faults scope.now.messages.now.decls.now scope.now.actors.now scope.now.variables.now statement)))
        result tokens.new (print_read tokens.old) }
    ensures shorter { IfOk result (λ _. length tokens.new < length tokens.old) }
{
    let place = mark_at(alloc, tokens, Mark::Print)?;
    note_items(alloc, found, scope.variables, tokens)?;
    mark_at(alloc, tokens, Mark::Semicolon)?;
    Ok(quiet(place))
}
