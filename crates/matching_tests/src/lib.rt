//! Tests of the crates from values and guards to partial matches, mailboxes and plans. They stand apart, since a crate
//! with tests is proved twice.
#![tactic(auto)]

#[cfg(test)]
mod bounds;
#[cfg(test)]
mod guards;
#[cfg(test)]
mod indexes;
#[cfg(test)]
mod listing;
#[cfg(test)]
mod made;
#[cfg(test)]
mod mail;
#[cfg(test)]
mod outside;
#[cfg(test)]
mod patterns;
#[cfg(test)]
mod plans;
#[cfg(test)]
mod texts;
#[cfg(test)]
mod trees;
#[cfg(test)]
mod tried;
#[cfg(test)]
mod values;
