//! Tests of what threads share, and of runs on threads: locks, links, tickets, deques of tickets, pools, boards and
//! answers. There are no calls here.
//!
//! They stand apart, since a crate with tests is proved twice.
#![tactic(auto)]

#[cfg(test)]
mod answers;
#[cfg(test)]
mod asking;
#[cfg(test)]
mod boards;
#[cfg(test)]
mod deques;
#[cfg(test)]
mod links;
#[cfg(test)]
mod pool_kinds;
#[cfg(test)]
mod runs;
#[cfg(test)]
mod tickets;
#[cfg(test)]
mod turns;
#[cfg(test)]
mod watching;
