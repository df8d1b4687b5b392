//! Answers asks by what actors reply, while their arrivals go on.
//!
//! An `Answerer` has a view of an `AskBoard` and a list of the asks that it answered. `read` takes the entries of an
//! actor, of which it may have read the first ones before. What they reply to arrivals from feeds it puts on the board.
//! `join` puts the lists of two together. Beside a pool an answerer does the same with each actor that it is shown
//! (`Beside`).
//!
//! A contract sees when an answerer fits the entries of an actor (`Fits`): of each ask of this actor on its list it
//! knows a value, which they reply to that arrival. What fits some entries fits those that go on from them
//! (`fit_law`). After `Ok` each reply to an arrival whose ask the board has was tried (`AreAllTried`): the ask is on
//! the list, or has another value.
//!
//! Only tested: that `new` and `read` answer `Ok` where memory is ample. Of `join` no test shows it yet.
#![tactic(auto)]

mod answering;
mod law;
mod noting;
mod reading;
mod showing;
mod telling;

pub use law::fit_law;
pub use reading::Answerer;
