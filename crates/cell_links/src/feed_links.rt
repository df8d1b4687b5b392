//! What a feed posts with. It stands in a file alone, since the words on it import this file.
ghost use Rattle.cell_links.specs.InOrder.{AreInOrder};

use crate::ends::Outward;

/// The links of one feed, one to each actor.
///
/// Contracts see its links (`poster_links`), what it sent to each actor (`sent_to`), and its tag.
#[derive(Drop)]
pub struct FeedLinks {
    pub(crate) outward: Vec<Outward>,
    // The link at place i goes to actor i.
    ghost in_order: { AreInOrder outward.items },
}
