//! Output whose writes are counted.
//!
//! - `CountingSink` is a sink that counts its writes and those that failed (specs/Counting), and `Counted` is any sink
//!   with such a count. That `Counted` writes to its sink once a call is read off its code; no clause says so.
//! - `write_all` writes bytes piece by piece. Its contract says what the sink took (specs/Writing), why a fault is
//!   answered, that no write is made behind one that failed, and that there is at most one for each byte.
#![tactic(auto)]

mod counted;
mod write;

pub use counted::{Counted, CountingSink};
pub use write::write_all;
