//! Patterns that are tied only through others.
//!
//! While the pattern in the middle has no message, nothing says which messages of the two others belong together, and
//! each pair of them is a partial match. With the two variables compared too, the definition means the same and keeps
//! few.
//!
//! - `tied_pairs` gives the pairs of a definition's patterns that a chain of `==` on variables ties and no `==`
//!   directly, each with the variables to compare, and with one of a third pattern that the chain leads to.
//!
//! A contract says by `AreTiedPairs` (specs/Tied) which pairs these are: exactly those of which a chain (`Chain`) leads
//! from a variable of the one pattern to a variable of the other, and no equality of the guard is between the two
//! (`AreTied`), each once and in order. The equalities are the conjuncts that compare two variables by `==` and have no
//! other atom (`equalities_in` of specs/Equalities). Only tested: that `tied_pairs` answers where memory is ample.
#![tactic(auto)]

mod equality;
mod tied;

pub use equality::Equality;
pub use tied::{Tied, tied_pairs};
