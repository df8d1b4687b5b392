//! What is offered to the paths of a definition. It stands in a file alone, since the words on it import this file.
ghost use Rattle.row_screens.specs.Ties.{AreTied};

use crate::ties::Ties;
use join_base::Message;
use pattern_core::Definition;
use value_index::ValueIndex;

/// A number of the recorded messages, an index of their values, the definition and the ties of its conjuncts, its
/// number, and the oldest number that it sees.
#[derive(Drop)]
pub struct Offer<'a> {
    pub messages: &'a [Message],
    pub index: &'a ValueIndex,
    pub definition: &'a Definition,
    pub ties: &'a Ties,
    pub rule: u32,
    pub number: u32,
    pub oldest: u32,
    ghost tied: { AreTied ties.now definition.now.conjuncts },
}
