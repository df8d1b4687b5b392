//! Tests of the top call of `look`. They stand apart, since a crate with tests is proved twice.
#![tactic(auto)]

#[cfg(test)]
mod audits;
#[cfg(test)]
mod calls;
#[cfg(test)]
mod files;
#[cfg(test)]
mod runs;
