//! Tests of the crates on actors, from the load of a building to the run that a pool comes to. They stand apart, since
//! a crate with tests is proved twice. There are no calls here.
#![tactic(auto)]

#[cfg(test)]
mod asked;
#[cfg(test)]
mod both_ways;
#[cfg(test)]
mod by_cells;
#[cfg(test)]
mod cases;
#[cfg(test)]
mod fed;
#[cfg(test)]
mod finished;
#[cfg(test)]
mod joins;
#[cfg(test)]
mod load;
#[cfg(test)]
mod one_feed;
#[cfg(test)]
mod one_thread;
#[cfg(test)]
mod settling;
#[cfg(test)]
mod system;
#[cfg(test)]
mod turn;
#[cfg(test)]
mod whole_runs;
