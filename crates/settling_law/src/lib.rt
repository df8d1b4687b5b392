//! Settling: what cells and posters come to once nothing is left to bring.
//!
//! A law over definitions, without code (`settled_law`): where every cell is lawful, all that went over the links has
//! arrived, and no outbox holds a post, the runs of the cells are a linked run of the feeds that the posters sent.
//! Where cells and posters are wired, and the two ends of each link have met with nothing left waiting, all has
//! arrived.
//!
//! The definitions say too what went over a link (`went`). The calls that bring what still waits are those of
//! `pool_settling`.
#![tactic(auto)]

mod law;

pub use law::settled_law;
