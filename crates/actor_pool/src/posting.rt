//! Posting.
ghost use Rattle.std.specs.Prelude.{◌≡◌, ◌<◌, OnOk, IfErr};
ghost use Rattle.post_ring.specs.Links.{stamped};
ghost use Rattle.cell_links.specs.Ends.{SendsMore, SendsSame, room_to};
ghost use Rattle.actor_pool.specs.Helpers.{actor_count};
ghost use Rattle.actor_pool.specs.Posters.{IsPosterOf, FlagsMore, feed_seat, feed_tag, feed_links};

use crate::pool::Pool;
use crate::poster::Poster;
use cell_links::Full;
use join_base::Message;

impl Poster {
    /// Sends a message to an actor, and flags it. `Full` hands the message back, and comes only where this end knew of
    /// no free slot on that link; then nothing was sent and no actor was flagged.
    ///
    /// It takes no memory and does not wait.
    #[inline]
    pub fn post(&mut self, pool: &Pool, actor: u32, message: Message) -> Result<(), Full>
        requires own { IsPosterOf pool.now self.old }
        requires exists { actor < actor_count pool.now }
        ensures own { IsPosterOf pool.now self.new }
        ensures tag { feed_tag self.new ≡ feed_tag self.old }
        ensures sent { OnOk result (SendsMore (feed_links self.old) actor (stamped message 0) (feed_links self.new)) }
        ensures flagged { OnOk result (FlagsMore actor (feed_seat self.old) (feed_seat self.new)) }
        ensures full { IfErr result (λ full. (full.message ≡ message) × SendsSame (feed_links self.old)
            (feed_links self.new) × (room_to (feed_links self.old) actor ≡ 0) × (feed_seat self.new
            ≡ feed_seat self.old)) }
    {
        match self.ends.push(actor, message) {
            Ok(()) => {
                pool.turns.flag(&mut self.seat, actor);
                Ok(())
            }
            Err(full) => Err(full),
        }
    }
}
