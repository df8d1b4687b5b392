//! Operands as text. Without memory some of it may stay appended, here and in the modules above.
ghost use Rattle.std.specs.Prelude.{◌≡◌, ◌++◌, OnOk};
ghost use Rattle.std.specs.List.{flat_map};
ghost use Rattle.plan_text.specs.GuardText.{first_leaf, further_leaf, leaf_text, operand_text, term_text, words_text};

use crate::names::{Row, write_variable};
use guard_eval::{Leaf, Operand, Signed, Term, WordsLeaf};
use join_base::{Bytes, NoMemory, write_number, write_quoted};

fn write_leaf(text: &mut Bytes, variables: &[Row], leaf: Leaf) -> Result<(), NoMemory>
    ensures { OnOk result (text.new ≡ text.old ++ leaf_text variables.now leaf) }
{
    match leaf {
        Leaf::Number(number) => write_number(text, i128::from(number)),
        Leaf::Field(place) => write_variable(text, variables, place),
    }
}

fn write_first_leaf(text: &mut Bytes, variables: &[Row], signed: Signed) -> Result<(), NoMemory>
    ensures { OnOk result (text.new ≡ text.old ++ first_leaf variables.now signed) }
{
    if signed.minus {
        text.push_all(b"-")?;
    }
    write_leaf(text, variables, signed.leaf)
}

fn write_further_leaf(text: &mut Bytes, variables: &[Row], signed: Signed) -> Result<(), NoMemory>
    ensures { OnOk result (text.new ≡ text.old ++ further_leaf variables.now signed) }
{
    text.push_all(if signed.minus { b" - " } else { b" + " })?;
    write_leaf(text, variables, signed.leaf)
}

fn write_leaves(text: &mut Bytes, variables: &[Row], leaves: &[Signed]) -> Result<(), NoMemory>
    ensures { OnOk result (text.new ≡ text.old ++ term_text variables.now leaves.now) }
{
    match leaves {
        [] => Ok(()),
        [first, more @ ..] => {
            write_first_leaf(text, variables, *first)?;
            for signed in more {
                write_further_leaf(text, variables, *signed)?;
            }
            Ok(())
        }
    }
}

pub(crate) fn write_term(text: &mut Bytes, variables: &[Row], term: &Term) -> Result<(), NoMemory>
    ensures { OnOk result (text.new ≡ text.old ++ term_text variables.now term.now) }
{
    write_leaves(text, variables, term.leaves())
}

pub(crate) fn write_words(
    text: &mut Bytes,
    variables: &[Row],
    words: &WordsLeaf,
) -> Result<(), NoMemory>
    ensures { OnOk result (text.new ≡ text.old ++ words_text variables.now words.now) }
{
    match words {
        WordsLeaf::Fixed(fixed) => write_quoted(text, fixed.bytes()),
        WordsLeaf::Field(place) => write_variable(text, variables, *place),
    }
}

pub(crate) fn write_operand(
    text: &mut Bytes,
    variables: &[Row],
    operand: &Operand,
) -> Result<(), NoMemory>
    ensures { OnOk result (text.new ≡ text.old ++ operand_text variables.now operand.now) }
{
    match operand {
        Operand::Sum(term) => write_term(text, variables, term),
        Operand::Words(words) => write_words(text, variables, words),
    }
}
