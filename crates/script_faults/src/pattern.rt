//! Faults of patterns, and the variables that they bind.
ghost use Rattle.std.specs.Prelude.{◌≡◌, ◌+◌, ◌++◌, ◌∷◌, ◌<◌, ◌≤◌, ℕ, List, Option, [], length, IfOk, OnOk};
ghost use Rattle.std.specs.Option.{option_map};
ghost use Rattle.script_tokens.specs.declared.token.Mark.TheVariants as m;
ghost use Rattle.script_grammar.specs.Grammar.{variable_of};
ghost use Rattle.script_grammar.specs.Reading.{token};
ghost use Rattle.script_grammar.specs.ScriptReading.{listed_read, pattern_read, separated_read};
ghost use Rattle.script_grammar.specs.declared.tree.PatternDecl.{PatternDecl};
ghost use Rattle.script_names.specs.Scope.{types_bound, variable_at, variables_from};
ghost use Rattle.script_faults.specs.declared.pattern.Binding.{Binding};
ghost use Rattle.script_faults.specs.First.{first_of};
ghost use Rattle.script_grammar.specs.Gives.{Notes};
ghost use Rattle.script_faults.specs.Numbered.{at_most};
ghost use Rattle.script_faults.specs.Again.{again_faults};
ghost use Rattle.script_faults.specs.Steps.{Bound, HasBound, bound_so_far, pattern_after, variable_after};
ghost use Rattle.script_faults.specs.Faults.{count_faults, fields_among, patterns_faults, twice_declared};

use crate::first::{Fault, count, note_if, note_number};
use crate::noter::{Noter, note_listed, note_separated};
use crate::post::note_count;
use join_base::NoMemory;
use script_grammar::{FieldDecl, ScriptCause, Spelt, Stop, mark_at, name_at, variable_at};
use script_names::{Messages, Slot, Variables, sort_of_field};
use script_tokens::{Mark, Tokens};
use std::alloc::Global;

/// Binds a name, and notes one that was bound before.
pub(crate) fn note_bound<'a>(
    found: &mut Option<Fault>,
    variables: &mut Variables<'a>,
    name: &'a [u8],
    slot: Slot,
) -> Result<(), NoMemory>
    ensures found { OnOk result (found.new ≡ first_of found.old (again_faults variables.old ((name.now, slot) ∷ []))) }
    ensures bound { OnOk result (variables.new ≡ types_bound variables.old ((name.now, slot) ∷ [])) }
{
    let is_new = variables.bind(name, slot.sort)?;
    note_if(found, !is_new, ScriptCause::TwiceDeclared, slot.place);
    Ok(())
}

// The same of a variable; the blank binds nothing.
fn note_variable<'a>(
    found: &mut Option<Fault>,
    variables: &mut Variables<'a>,
    name: Option<&'a [u8]>,
    slot: Slot,
) -> Result<(), NoMemory>
    ensures found { OnOk result (found.new ≡ first_of found.old (again_faults variables.old
        (variable_at slot (option_map (λ n. n.now) name.entry)))) }
    ensures bound { OnOk result (variables.new ≡ types_bound variables.old
        (variable_at slot (option_map (λ n. n.now) name.entry))) }
{
    match name {
        None => Ok(()),
        Some(name) => note_bound(found, variables, name, slot),
    }
}

// The variables of a pattern.
#[derive(Drop)]
struct Binding<'a, 'o> {
    pattern: usize,
    fields: Option<&'o [FieldDecl]>,
    number: usize,
    variables: Variables<'a>,
    found: Option<Fault>,
}

impl<'a, 'o> Noter<'a> for Binding<'a, 'o> {
    ghost Phrase = { ℕ × Option (List ℕ) };

    ghost reader = { token variable_of };

    ghost Known = { Binding };

    ghost known = { λ s. s };

    ghost after = { variable_after };

    fn note(&mut self, alloc: Global, tokens: &mut Tokens<'a>) -> Result<(), Stop> {
        let name = tokens.name();
        let (place, _) = variable_at(alloc, tokens)?;
        let slot = Slot {
            place,
            pattern: self.pattern,
            field: self.number,
            sort: sort_of_field(self.fields, self.number),
        };
        note_variable(&mut self.found, &mut self.variables, name, slot)?;
        count(&mut self.number)?;
        Ok(())
    }
}

// The patterns of a definition. The place in a pattern and its fields are those of the last one that was read.
#[derive(Drop)]
struct Patterns<'a, 'o, 'b> {
    messages: &'b Messages<'o>,
    binding: Binding<'a, 'o>,
}

// Binds the variables of a pattern: how many it has.
fn note_variables<'a>(
    alloc: Global,
    binding: &mut Binding<'a, '_>,
    tokens: &mut Tokens<'a>,
) -> Result<usize, Stop>
    requires begins { binding.old.number ≡ 0 }
    ensures gives { Notes (λ variables count. (count ≡ length variables) × HasBound binding.old binding.new variables)
        result tokens.new (listed_read m.Comma (token variable_of) tokens.old) }
    ensures no_longer { IfOk result (λ _. length tokens.new ≤ length tokens.old) }
{
    note_listed(alloc, Mark::Comma, binding, tokens)?;
    Ok(binding.number)
}

// Notes the faults of the kind of a pattern that has so many variables, and counts the pattern.
fn note_kind(
    binding: &mut Binding<'_, '_>,
    fields: Option<&[FieldDecl]>,
    kind: &Spelt,
    count: usize,
) -> Result<(), NoMemory>
    ensures pattern { OnOk result (binding.new.pattern ≡ binding.old.pattern + 1) }
    ensures variables { binding.new.variables ≡ binding.old.variables }
    ensures found { OnOk result (binding.new.found ≡ first_of binding.old.found
        (count_faults (fields_among fields.entry) kind.now count ++ at_most 8 binding.old.pattern kind.now.place)) }
{
    note_count(&mut binding.found, fields, kind, count);
    note_number(&mut binding.found, 8, &mut binding.pattern, kind.place)?;
    Ok(())
}

impl<'a, 'o, 'b> Noter<'a> for Patterns<'a, 'o, 'b> {
    ghost Phrase = { PatternDecl };

    ghost reader = { pattern_read };

    ghost Known = { Bound };

    ghost known = { bound_so_far };

    ghost after = { pattern_after };

    #[tactic(auto, unfolding(script_grammar::specs::ScriptReading::pattern_read))]
    fn note(&mut self, alloc: Global, tokens: &mut Tokens<'a>) -> Result<(), Stop> {
        let kind = name_at(alloc, tokens)?;
        mark_at(alloc, tokens, Mark::Open)?;
        let fields = self.messages.fields_of(kind.name.bytes());
        self.binding.fields = fields;
        self.binding.number = 0;
        let count = note_variables(alloc, &mut self.binding, tokens)?;
        mark_at(alloc, tokens, Mark::Close)?;
        note_kind(&mut self.binding, fields, &kind, count)?;
        Ok(())
    }
}

/// Notes the faults of the patterns of a definition: how many there are, and the variables.
pub(crate) fn note_patterns<'a>(
    alloc: Global,
    found: &mut Option<Fault>,
    messages: &Messages<'_>,
    tokens: &mut Tokens<'a>,
) -> Result<(usize, Variables<'a>), Stop>
    ensures gives { Notes (λ patterns p. (p.0 ≡ length patterns)
        × (p.1 ≡ types_bound [] (variables_from messages.now.decls.now 0 patterns))
        × (found.new ≡ first_of found.old (patterns_faults messages.now.decls.now patterns
        ++ twice_declared (λ slot. slot.place) (variables_from messages.now.decls.now 0 patterns))))
        result tokens.new (separated_read m.With pattern_read tokens.old) }
    ensures shorter { IfOk result (λ _. length tokens.new < length tokens.old) }
{
    let binding = Binding {
        pattern: 0,
        fields: None,
        number: 0,
        variables: Variables::new(alloc),
        found: *found,
    };
    let mut patterns = Patterns { messages, binding };
    note_separated(alloc, Mark::With, &mut patterns, tokens)?;
    *found = patterns.binding.found;
    Ok((patterns.binding.pattern, patterns.binding.variables))
}
