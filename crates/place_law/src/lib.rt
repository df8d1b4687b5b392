//! The places of a script's tokens do not matter to its plan.
//!
//! - `places_law` is a law on a function without a body: where a script has a plan, one whose tokens stand at other
//!   places has the same plan.
//!
//! There is no code here, and no test.
#![tactic(auto)]

mod law;

pub use law::places_law;
