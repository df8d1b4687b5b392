//! A run with stamps is that of one schedule of single steps, in the order of its stamps.
//!
//! - `order_law` is a law on a function without a body. Of a linked run of version 2, the order by stamps has all
//!   arrivals, each in its place; with what came too late behind it, it is a schedule at whose end nothing waits and
//!   each actor shows its run.
//!
//! A contract sees the order as a list of pairs of an actor and a source, `order_of` (specs/Order). It need not be the
//! order in time. There is no code here, and no test.
#![tactic(auto)]

mod law;

pub use law::order_law;
