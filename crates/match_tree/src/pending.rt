//! What a reserve found.
use pattern_core::Candidate;

/// A number that was offered, the least match that it completes, and how many nodes were added for it.
#[derive(Drop)]
pub struct Pending {
    pub number: u32,
    pub best: Option<Candidate>,
    pub aside: u64,
}
