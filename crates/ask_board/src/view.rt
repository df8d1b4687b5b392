//! What was learnt of the cells of a board.
ghost use Rattle.std.specs.Prelude.{◌≡◌, ◌≢◌, IfSome, IsSome, Some};
ghost use Rattle.ask_board.specs.declared.view.Ask.{Ask as OneAsk};
ghost use Rattle.ask_board.specs.View.{AreOfOneBoard, known_of};

use join_base::{Items, Value};
use once_cell::race::Note;

/// The post at a place, counted from 1, among those of a feed to an actor. Feeds are counted from 1, and actors from 0.
#[derive(Clone, Copy, PartialEq, Eq, Debug)]
pub struct Ask {
    pub feed: u32,
    pub actor: u32,
    pub place: u32,
}

/// What was learnt of the cells of one board.
#[derive(Drop)]
pub struct AskView {
    // For each feed, and for each actor, what is known of each of its posts.
    pub(crate) notes: Items<Items<Items<Note<Value>>>>,
}

impl AskView {
    /// Learns the value of an ask from another view of the board that knows it. What this view knew of it is the same
    /// value.
    pub fn learn(&mut self, other: &mut AskView, ask: Ask)
        requires one_board { AreOfOneBoard self.old other.old }
        requires known { IsSome (known_of other.old ask) }

        ensures one_board { AreOfOneBoard self.old self.new }
        ensures learnt { known_of self.new ask ≡ known_of other.old ask }
        ensures same { IfSome (known_of self.old ask) (λ value. known_of other.old ask ≡ Some value) }
        ensures others { (another : OneAsk) → another ≢ ask → known_of self.new another ≡ known_of self.old another }
        ensures unchanged { other.new ≡ other.old }
    {
        let theirs = other.notes.at_mut((ask.feed - 1) as usize);
        let theirs = theirs.at_mut(ask.actor as usize);
        let theirs = theirs.at_mut((ask.place - 1) as usize);
        let learnt = theirs.again();
        let own = self.notes.at_mut((ask.feed - 1) as usize);
        let own = own.at_mut(ask.actor as usize);
        let own = own.at_mut((ask.place - 1) as usize);
        own.compare(theirs.again());
        *own = learnt;
    }
}
