//! Posting.
ghost use Rattle.std.specs.Prelude.{◌≡◌, ◌<◌, ◌∷◌, [], ◌++◌, OnOk, IfErr};
ghost use Rattle.post_ring.specs.Links.{stamped};
ghost use Rattle.cell_links.specs.InOrder.{AreInOrder};
ghost use Rattle.cell_links.specs.Ends.{SendsMore, SendsSame, link_count, poster_links, poster_tag, room_to, sent_to};

use crate::ends::Outward;
use crate::feed_links::FeedLinks;
use join_base::Message;
use post_ring::Full;

impl FeedLinks {
    // The poster of these links.
    pub(crate) fn of(outward: Vec<Outward>) -> FeedLinks
        requires { AreInOrder outward.items }
        ensures { poster_links result ≡ outward.items }
    {
        FeedLinks { outward }
    }

    /// Sends a message to an actor. `Full` comes only where this end knew of no free slot on that link. It takes no
    /// memory.
    pub fn push(&mut self, actor: u32, message: Message) -> Result<(), Full>
        requires exists { actor < link_count self.old }
        ensures tag { poster_tag self.new ≡ poster_tag self.old }
        ensures sent { OnOk result (SendsMore (poster_links self.old) actor (stamped message 0)
            (poster_links self.new)) }
        ensures full { IfErr result (λ full. (full.message ≡ message) × SendsSame (poster_links self.old)
            (poster_links self.new) × (room_to (poster_links self.old) actor ≡ 0)) }
    {
        let one = &mut self.outward[actor as usize];
        one.link.push(message, 0)
    }

    /// The links, where no more is posted. It takes no memory.
    pub fn into_links(self) -> Vec<Outward>
        ensures { result.items ≡ poster_links self }
    {
        let FeedLinks { outward } = self;
        outward
    }
}
