//! The numbers of messages by the values of some of their fields, so that those of one value, or of a range of values,
//! are found at once.
//!
//! `ValueIndex::new` has no field, and `add_field` adds one: a kind, a field, and whether it has texts. `insert` gives
//! a recorded number an entry at each field of its kind, `remove` takes these out, and `clear` takes out all.
//! `place_of` finds a field, and `numbers_from` goes over the numbers of one value there, in ascending order. A text
//! counts as a number that is made of its bytes (`value_at`): equal texts have equal ones, and few others do.
//! `numbers_between` goes over the numbers of a range of values (`Span`), where these ascend with the values, as they
//! do with times in their order, and are at most 32. Else it answers that it has none.
//!
//! Each field has a `Column`: a set of numbers with their values, in the order of the values. A number takes 16 bytes
//! there. Those of a message with two indexed fields take 32 bytes and what nodes of a `BTreeSet` have of free room,
//! which is at most as much again and the links of the nodes.
//!
//! A contract sees an `Index`, its fields and its entries (specs/Index). `Has` and `Lacks` say of a number that each of
//! its entries is there, or none. An entry is a number with its value and the place of the field. A `ValueRange` is
//! seen as the list of numbers that are left.
//! Only tested: that it has no number of another value, when `numbers_between` gives one, and which fields `add_field`
//! leaves out.
#![tactic(auto)]

mod column;
mod field;
mod index;
mod value_range;
mod valued;

pub use field::{IndexedField, value_at};
pub use index::ValueIndex;
pub use value_range::{Span, ValueRange};
