//! Operands, in little room.
ghost use Rattle.std.specs.Prelude.{◌≡◌, ◌==◌, ◌&&◌, ◌∷◌, [], not, IfOk};
ghost use Rattle.script_grammar.specs.Operands as o;
ghost use Rattle.script_grammar.specs.Operands.{operand_place};
ghost use Rattle.script_grammar.specs.OperandViews.{form_view, operand_seen, plain};

use crate::tree::{LeafDecl, Part};
use join_base::{Items, NoMemory, Text};
use script_tokens::ScriptName;
use std::alloc::Global;
use std::marker::Model;

/// A quoted text, or a term with the place where it begins. It takes 32 bytes. One number or one name without a sign
/// takes no block beside them.
#[derive(Drop)]
pub struct OperandDecl {
    form: Form,
}

// Most operands are one number or one name, which begins where its term does.
#[derive(Drop)]
enum Form {
    Fixed {
        place: u64,
        words: Text,
    },
    Number {
        place: u64,
        value: i64,
    },
    Named {
        place: u64,
        name: ScriptName,
    },
    Listed {
        place: u64,
        leaves: Box<Items<LeafDecl>>,
    },
}

impl Model for OperandDecl {
    ghost use Rattle.script_grammar.specs.Operands.{Operand};
    ghost use Rattle.script_grammar.specs.OperandViews.{form_view};

    ghost Value = { Operand };

    ghost view = { λ a. form_view a.form };
}

/// An operand where it stands. One number or one name without a sign comes without its leaf.
#[derive(Clone, Copy)]
pub enum OperandRef<'a> {
    Fixed { place: u64, words: &'a Text },
    Number { place: u64, value: i64 },
    Named { place: u64, name: &'a ScriptName },
    Sum { place: u64, leaves: &'a [LeafDecl] },
}

fn form_place(form: &Form) -> u64
    ensures { result ≡ operand_place (form_view form.now) }
{
    match form {
        Form::Fixed { place, .. } => *place,
        Form::Number { place, .. } => *place,
        Form::Named { place, .. } => *place,
        Form::Listed { place, .. } => *place,
    }
}

fn form_seen(form: &Form) -> OperandRef<'_>
    ensures { operand_seen result ≡ form_view form.now }
{
    match form {
        Form::Fixed { place, words } => OperandRef::Fixed {
            place: *place,
            words,
        },
        Form::Number { place, value } => OperandRef::Number {
            place: *place,
            value: *value,
        },
        Form::Named { place, name } => OperandRef::Named {
            place: *place,
            name,
        },
        Form::Listed { place, leaves } => OperandRef::Sum {
            place: *place,
            leaves: leaves.as_slice(),
        },
    }
}

// Whether a leaf has no sign and begins at this place.
fn is_plain(leaf: &LeafDecl, place: u64) -> bool
    ensures { result ≡ (not leaf.now.minus && leaf.now.place == place) }
{
    !leaf.minus && leaf.place == place
}

// A term of one leaf without a sign.
fn plain_form(place: u64, part: Part) -> Form
    ensures { form_view result ≡ o.Sum place (plain place part ∷ []) }
{
    match part {
        Part::Number(value) => Form::Number { place, value },
        Part::Named(name) => Form::Named { place, name },
    }
}

fn listed_form(alloc: Global, place: u64, leaves: Items<LeafDecl>) -> Result<Form, NoMemory>
    ensures { IfOk result (λ form. form_view form ≡ o.Sum place leaves) }
{
    let leaves = Box::new(alloc, leaves)?;
    Ok(Form::Listed { place, leaves })
}

// A term of one leaf.
fn form_of_one(alloc: Global, place: u64, leaf: LeafDecl) -> Result<Form, NoMemory>
    ensures { IfOk result (λ form. form_view form ≡ o.Sum place (leaf ∷ [])) }
{
    if is_plain(&leaf, place) {
        return Ok(plain_form(place, leaf.part));
    }
    let mut leaves = Items::new(alloc);
    leaves.push(leaf)?;
    listed_form(alloc, place, leaves)
}

fn form_of(alloc: Global, place: u64, mut leaves: Items<LeafDecl>) -> Result<Form, NoMemory>
    ensures { IfOk result (λ form. form_view form ≡ o.Sum place leaves) }
{
    if leaves.len() != 1 {
        return listed_form(alloc, place, leaves);
    }
    match leaves.pop() {
        None => listed_form(alloc, place, leaves),
        Some(leaf) => form_of_one(alloc, place, leaf),
    }
}

impl OperandDecl {
    pub fn fixed(place: u64, words: Text) -> OperandDecl
        ensures { result ≡ o.Fixed place words }
    {
        OperandDecl {
            form: Form::Fixed { place, words },
        }
    }

    /// A term that begins at this place.
    pub fn sum(alloc: Global, place: u64, leaves: Items<LeafDecl>) -> Result<OperandDecl, NoMemory>
        ensures { IfOk result (λ operand. operand ≡ o.Sum place leaves) }
    {
        let form = form_of(alloc, place, leaves)?;
        Ok(OperandDecl { form })
    }

    /// Where it begins.
    pub fn start(&self) -> u64
        ensures { result ≡ operand_place self.now }
    {
        form_place(&self.form)
    }

    /// The operand where it stands.
    pub fn seen(&self) -> OperandRef<'_>
        ensures { operand_seen result ≡ self.now }
    {
        form_seen(&self.form)
    }
}

const _: () = prove!(size_of::<OperandDecl>() == 32);
