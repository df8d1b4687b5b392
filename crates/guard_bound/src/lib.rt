//! What a conjunct says of the numbers that one pattern may take, once another pattern, the wanted one, has a known
//! number. So a number can be left out by reading one field of its message, before the conjunct itself is evaluated.
//!
//! - `bound_of` solves a comparison of sums for the one field of the pattern that it has: how this field compares with
//!   a value. `Bounds` keeps up to 4 of them, and `meets_all` tests a number by these. `int_at` reads an integer field
//!   of a message.
//! - `same_of` finds the two text fields that a conjunct says are equal, and `is_same` tests a number by them.
//!
//! Contracts see that a number beside the known one makes the conjunct true exactly where it meets the bound (`Says`),
//! or that the conjunct says just that the texts are equal (`SaysSame`). They also let both find nothing: which
//! conjuncts give a bound is shown by tests alone.
#![tactic(auto)]

mod bound;
mod same;

pub use bound::{Bound, Bounds, bound_of, int_at, meets_all};
pub use same::{Same, is_same, same_of};
