//! The tests of scripts: reading and checking them, their plans, the texts of plans, and what lint finds.
//!
//! What whole calls print is tested by the program `worked_examples`, and not a second time here.
#![tactic(auto)]

#[cfg(test)]
mod drawn;
#[cfg(test)]
mod findings;
#[cfg(test)]
mod given;
#[cfg(test)]
mod limits;
#[cfg(test)]
mod names;
#[cfg(test)]
mod plans;
#[cfg(test)]
mod refusals;
#[cfg(test)]
mod trees;
