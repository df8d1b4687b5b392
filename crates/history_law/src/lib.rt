//! The entries that an actor makes of its history.
//!
//! One law, on a function without a body (`history_law`). The entries go on as the history does (`entries_by`). They
//! hang neither on the number of sources nor on messages that were not recorded. In a linked run each actor has the
//! entries of its history, which in version 1 have no stamps.
//!
//! There is no code here, and no test.
#![tactic(auto)]

mod law;

pub use law::history_law;
