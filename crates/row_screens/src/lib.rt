//! What is offered to a path, which patterns may take it, and which numbers of a row are worth a visit.
//!
//! `takers` tries an offered number at a path: it evaluates the decided conjuncts that have a field of its pattern alone,
//! since the others are as before it. Which these are is found by sets of conjuncts (`Ties`). `best_match` gives the
//! least match that the number completes there.
//!
//! Before a number of a row is tried, a screen of the row (`screen_of`) looks at the conjuncts that tie the row's pattern
//! to the wanted one, and first at one that says what an integer field of the row is equal to. It leaves out numbers
//! behind which no try can succeed, so that the tries are fewer and what is found and added is the same. Most rows have
//! no node or one, and these need no screen. Behind a number that passed a screen a try evaluates none of these
//! conjuncts, since the screen asks all of them (`left_to_ask`).
//!
//! Where an index of the messages' values knows the field of an equality, a row of at least 8 numbers is looked up there
//! (`looked_up`): the numbers of the value, each then found in the row. A field that has to have a least value, as in a
//! window of time, is looked up by its range of values, where that has at most 32 numbers, which ascend with their
//! values. `next_place` gives the next number of a row that is worth a visit. Each number that is gone through counts,
//! unless it ends the search, and there are never more than places passed. That a range was gone through once before,
//! to see that its numbers ascend, is not counted, as the search in the index is not.
#![tactic(auto)]

mod find;
mod look;
mod offer;
mod place_set;
mod range;
mod screen;
mod ties;
mod trial;

pub use look::{FEWEST, found_at, looked_up};
pub use offer::Offer;
pub use place_set::PlaceSet;
pub use screen::{Key, Screen, left_to_ask, next_place, screen_of};
pub use ties::Ties;
pub use trial::{best_match, contains, is_only, leave_one_free, takers, without};
