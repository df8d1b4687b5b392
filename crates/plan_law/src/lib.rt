//! What the text of a plan says: read and checked it gives that plan.
//!
//! - `print_law` is a law on a function without a body, over the plan of any script without a fault.
//!
//! There is no code here. The crate `script_tests` prints, reads and checks scripts.
#![tactic(auto)]

mod law;

pub use law::print_law;
