//! What the names of a script mean: its messages, its actors, and the variables of a definition.
ghost use Rattle.std.specs.Prelude.{◌≡◌, ◌++◌, IfOk, OnOk};
ghost use Rattle.std.specs.Option.{option_map};
ghost use Rattle.script_names.specs.Scope.{message_of, message_rows, sort_at, sorts_among, sorts_of, spelt_rows, variable_at, variables_in, variables_of};

use crate::table::NameTable;
use join_base::{NoMemory, Sort};
use script_grammar::{FieldDecl, MessageDecl, PatternDecl, RuleDecl, Spelt};
use script_tokens::ScriptName;
use std::alloc::Global;

/// The field that a variable stands for, by the numbers of the pattern and of the field, and its type; and the place
/// of the variable in the text.
#[derive(Clone, Copy, PartialEq, Eq, Debug)]
pub struct Slot {
    pub place: u64,
    pub pattern: usize,
    pub field: usize,
    pub sort: Sort,
}

/// The messages of a script, found by their names.
#[derive(Drop)]
pub struct Messages<'a> {
    decls: &'a [MessageDecl],
    names: NameTable<'a, u64>,
    ghost named: { names ≡ message_rows decls.now },
}

impl<'a> Messages<'a> {
    pub fn new(alloc: Global, decls: &'a [MessageDecl]) -> Result<Messages<'a>, NoMemory>
        ensures { IfOk result (λ m. m.decls.now ≡ decls.now) }
    {
        let mut names = NameTable::new(alloc);
        for decl in decls {
            names.push(decl.name.name.bytes(), decl.name.place)?;
        }
        Ok(Messages { decls, names })
    }

    /// The names, each with its place in the text.
    pub fn names(&self) -> &NameTable<'a, u64>
        ensures { result.now ≡ message_rows self.now.decls.now }
    {
        &self.names
    }

    /// The fields of the first message of this name.
    pub fn fields_of(&self, name: &[u8]) -> Option<&'a [FieldDecl]>
        ensures { option_map (λ fields. fields.now) result ≡ option_map (λ m. m.fields)
            (message_of self.now.decls.now name.now) }
    {
        match self.names.number_of(name) {
            Some(number) => Some(self.decls[number].fields.as_slice()),
            None => None,
        }
    }
}

/// The actors' names, each with its place in the text.
pub fn actor_names<'a>(alloc: Global, actors: &'a [Spelt]) -> Result<NameTable<'a, u64>, NoMemory>
    ensures { IfOk result (λ names. names ≡ spelt_rows actors.now) }
{
    let mut names = NameTable::new(alloc);
    for actor in actors {
        names.push(actor.name.bytes(), actor.place)?;
    }
    Ok(names)
}

/// The type of a field; one that the message has not counts as an integer.
pub fn sort_of_field(fields: Option<&[FieldDecl]>, field: usize) -> Sort
    ensures { result ≡ sort_at (sorts_among fields.entry) field }
{
    let Some(fields) = fields else {
        return Sort::Int;
    };
    match fields.get(field) {
        Some(field) => field.sort,
        None => Sort::Int,
    }
}

// Adds a variable with a name.
fn push_variable<'a>(
    variables: &mut NameTable<'a, Slot>,
    name: &'a Option<ScriptName>,
    slot: Slot,
) -> Result<(), NoMemory>
    ensures { OnOk result (variables.new ≡ variables.old ++ variable_at slot name.now) }
{
    match name {
        Some(name) => variables.push(name.bytes(), slot),
        None => Ok(()),
    }
}

// Adds the variables of the pattern of this number.
fn push_variables<'a>(
    variables: &mut NameTable<'a, Slot>,
    messages: &Messages<'a>,
    pattern: usize,
    decl: &'a PatternDecl,
) -> Result<(), NoMemory>
    ensures { OnOk result (variables.new ≡ variables.old ++ variables_in pattern (sorts_of messages.now.decls.now
        decl.now.kind.name) 0 decl.now.variables) }
{
    let fields = messages.fields_of(decl.kind.name.bytes());
    for (field, (place, name)) in decl.variables.as_slice().iter().enumerate() {
        let slot = Slot {
            place: *place,
            pattern,
            field,
            sort: sort_of_field(fields, field),
        };
        push_variable(variables, name, slot)?;
    }
    Ok(())
}

/// The variables of a definition, in order.
pub fn variables_of<'a>(
    alloc: Global,
    messages: &Messages<'a>,
    rule: &'a RuleDecl,
) -> Result<NameTable<'a, Slot>, NoMemory>
    ensures { IfOk result (λ variables. variables ≡ variables_of messages.now.decls.now rule.now) }
{
    let mut variables = NameTable::new(alloc);
    for (pattern, decl) in rule.patterns.as_slice().iter().enumerate() {
        push_variables(&mut variables, messages, pattern, decl)?;
    }
    Ok(variables)
}
