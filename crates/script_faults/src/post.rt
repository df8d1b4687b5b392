//! Faults of posts.
ghost use Rattle.std.specs.Prelude.{◌≡◌, ◌++◌, ◌<◌, ◌≤◌, length, slice_get, IfOk};
ghost use Rattle.std.specs.List.{flat_map};
ghost use Rattle.std.specs.Option.{is_none};
ghost use Rattle.script_tokens.specs.declared.token.Mark.TheVariants as m;
ghost use Rattle.script_grammar.specs.ScriptReading.{listed_read, operand_read, post_read};
ghost use Rattle.script_grammar.specs.declared.operand.OperandDecl.{OperandDecl};
ghost use Rattle.script_names.specs.Names.{names_of, number_of};
ghost use Rattle.script_faults.specs.declared.post.Posted.{Posted};
ghost use Rattle.script_faults.specs.First.{first_of};
ghost use Rattle.script_grammar.specs.Gives.{Notes};
ghost use Rattle.script_faults.specs.Steps.{value_after};
ghost use Rattle.script_faults.specs.Statements.{said_of, type_fault};
ghost use Rattle.script_faults.specs.Faults.{count_faults, field_among, fields_among, fields_of, fields_or_none, operand_faults, statement_faults, type_faults};

use crate::first::{Fault, count, note, note_if};
use crate::noter::{Noter, note_listed};
use crate::statement::{Said, Scope, quiet};
use crate::term::{is_same, note_operand};
use join_base::Sort;
use script_grammar::{FieldDecl, ScriptCause, Spelt, Stop, mark_at, name_at};
use script_names::{NameTable, Variables};
use script_tokens::{Mark, ScriptName, Tokens};
use std::alloc::Global;

/// Notes a kind that no message has, or that has another number of fields.
pub(crate) fn note_count(
    found: &mut Option<Fault>,
    fields: Option<&[FieldDecl]>,
    kind: &Spelt,
    count: usize,
)
    ensures { found.new ≡ first_of found.old (count_faults (fields_among fields.entry) kind.now count) }
{
    match fields {
        None => note(found, ScriptCause::UnknownMessage, kind.place),
        Some(fields) => note_if(
            found,
            fields.len() != count,
            ScriptCause::WrongCount,
            kind.place,
        ),
    }
}

// The fields of a message, or none where there is no message.
fn known_fields<'o>(fields: Option<&'o [FieldDecl]>) -> &'o [FieldDecl]
    ensures { result.now ≡ fields_or_none (fields_among fields.entry) }
{
    match fields {
        None => &[],
        Some(fields) => fields,
    }
}

// The field of this number.
fn field_at(fields: &[FieldDecl], number: usize) -> Option<&FieldDecl>
    ensures { field_among result ≡ slice_get fields.now number }
{
    fields.get(number)
}

// Notes an operand that has not the type of its field.
fn note_type(found: &mut Option<Fault>, field: Option<&FieldDecl>, place: u64, sort: Sort)
    ensures { found.new ≡ first_of found.old (type_fault (field_among field.entry) place sort) }
{
    if let Some(field) = field {
        let is_wrong = !is_same(field.sort, sort);
        note_if(found, is_wrong, ScriptCause::WrongType, place);
    }
}

// The operands of a post.
#[derive(Drop)]
struct Posted<'a, 'o, 'b> {
    variables: &'b Variables<'a>,
    fields: &'o [FieldDecl],
    number: usize,
    found: Option<Fault>,
}

impl<'a, 'o, 'b> Noter<'a> for Posted<'a, 'o, 'b> {
    ghost Phrase = { OperandDecl };

    ghost reader = { operand_read };

    ghost Known = { Posted };

    ghost known = { λ s. s };

    ghost after = { value_after };

    fn note(&mut self, alloc: Global, tokens: &mut Tokens<'a>) -> Result<(), Stop> {
        let (place, sort) = note_operand(alloc, &mut self.found, self.variables, tokens)?;
        note_type(
            &mut self.found,
            field_at(self.fields, self.number),
            place,
            sort,
        );
        count(&mut self.number)?;
        Ok(())
    }
}

// Notes the faults of the operands of a post, and of its kind.
fn note_values<'a>(
    alloc: Global,
    found: &mut Option<Fault>,
    scope: &Scope<'a, '_, '_>,
    kind: &Spelt,
    tokens: &mut Tokens<'a>,
) -> Result<(), Stop>
    ensures gives { Notes (λ operands _. found.new ≡ first_of found.old
        (count_faults (fields_of scope.now.messages.now.decls.now kind.now.name) kind.now (length operands)
        ++ type_faults scope.now.variables.now
        (fields_or_none (fields_of scope.now.messages.now.decls.now kind.now.name)) 0 operands
        ++ flat_map (operand_faults scope.now.variables.now) operands))
        result tokens.new (listed_read m.Comma operand_read tokens.old) }
    ensures no_longer { IfOk result (λ _. length tokens.new ≤ length tokens.old) }
{
    let fields = scope.messages.fields_of(kind.name.bytes());
    let mut posted = Posted {
        variables: scope.variables,
        fields: known_fields(fields),
        number: 0,
        found: *found,
    };
    note_listed(alloc, Mark::Comma, &mut posted, tokens)?;
    *found = posted.found;
    note_count(found, fields, kind, posted.number);
    Ok(())
}

// Whether no actor has this name.
fn is_unknown(actors: &NameTable<'_, u64>, name: &ScriptName) -> bool
    ensures { result ≡ is_none (number_of name.now (names_of actors.now)) }
{
    actors.number_of(name.bytes()).is_none()
}

/// Notes the faults of a post.
#[tactic(auto, unfolding(script_grammar::specs::ScriptReading::post_read))]
pub(crate) fn note_post<'a>(
    alloc: Global,
    found: &mut Option<Fault>,
    scope: &Scope<'a, '_, '_>,
    tokens: &mut Tokens<'a>,
) -> Result<Said, Stop>
    ensures gives { Notes (λ statement said. (said ≡ said_of statement) × (found.new ≡ first_of found.old
        (statement_faults scope.now.messages.now.decls.now scope.now.actors.now scope.now.variables.now statement)))
        result tokens.new (post_read tokens.old) }
    ensures shorter { IfOk result (λ _. length tokens.new < length tokens.old) }
{
    let place = mark_at(alloc, tokens, Mark::Post)?;
    let target = name_at(alloc, tokens)?;
    let is_fault = is_unknown(scope.actors, &target.name);
    note_if(found, is_fault, ScriptCause::UnknownActor, target.place);
    let kind = name_at(alloc, tokens)?;
    mark_at(alloc, tokens, Mark::Open)?;
    note_values(alloc, found, scope, &kind, tokens)?;
    mark_at(alloc, tokens, Mark::Close)?;
    mark_at(alloc, tokens, Mark::Semicolon)?;
    Ok(quiet(place))
}
