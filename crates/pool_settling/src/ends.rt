//! The two ends of links, taken apart from their cells.

use join_base::Source;
use post_ring::{LinkIn, LinkOut};

/// The end that messages of a source go into.
#[derive(Drop)]
pub struct Sender {
    pub source: Source,
    pub target: u32,
    pub link: LinkIn,
}

/// The end that messages to a target come out of.
#[derive(Drop)]
pub struct Receiver {
    pub source: Source,
    pub target: u32,
    pub link: LinkOut,
}
