//! What the names of a script stand for. A name means its first declaration.
//!
//! - `NameTable` is a list of names, each with an item: `number_of` and `item_of` find the first of a name at once.
//! - `Messages::fields_of` gives the fields of the message of a name.
//! - `actor_names` and `variables_of` make the tables of actors and of the variables of a definition.
//! - `Variables` holds the types of variables while a definition is read, of each name the first alone.
//!
//! A contract sees a table as the list of its rows, a name and an item each.
#![tactic(auto)]

mod scope;
mod table;
mod variables;

pub use scope::{Messages, Slot, actor_names, sort_of_field, variables_of};
pub use table::NameTable;
pub use variables::Variables;
