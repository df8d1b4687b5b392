//! Terms and conjuncts of a guard, and what they come to at an assignment over recorded messages.
//!
//! - `sum` and `integer` are the exact value of a term and of an integer variable, `words` the text of a leaf.
//! - `int_relation` says whether one integer has a relation to another, `turned` is the relation with its sides
//!   exchanged.
//! - `holds` says whether a conjunct is true, `decided` whether it has a variable and the patterns of all are filled.
//! - `copy` of `Term`, `Operand`, `WordsLeaf` and `ConjunctList` gives an equal one.
//!
//! A contract sees a `Term` as its leaves, and a conjunct as a `Condition`, the same tree without where it lies in
//! memory (`conjunct_condition`). Evaluation asks that each variable has a recorded message and a value of its type
//! (`AreReady`).
#![tactic(auto)]

mod conjunct;
mod relation;
mod standing;
mod sums;
mod term;
mod truth;

pub use conjunct::{Atom, Conjunct, ConjunctList};
pub use relation::{int_relation, turned};
pub use standing::decided;
pub use sums::{integer, sum};
pub use term::{Leaf, Operand, Place, Signed, Term, WordsLeaf};
pub use truth::{holds, words};
