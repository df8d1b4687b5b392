//! The ask of each arrival of an actor.
ghost use Rattle.std.specs.Prelude.{◌≡◌, ◌+◌, ◌^◌, ◌<◌, ◌≤◌, ℕ, [], length, OnOk};
ghost use Rattle.answerer.specs.Asks.{AreNoted, ask_at, asks_of, last_place, next_ask};

use ask_board::Ask;
use fair_semantics::Entry;
use join_base::{Items, NoMemory, Source};
use std::alloc::Global;

/// What was read of an actor.
#[derive(Drop)]
pub struct Progress {
    // The ask of each arrival that was noted, where it is from a feed.
    pub asks: Items<Option<Ask>>,
    // How many arrivals' replies were tried.
    pub done: usize,
}

// The place of the last arrival from a feed among those of that feed, or 0. It stands near the end, but where a feed
// pauses: over all arrivals, no more are looked at than arrivals times feeds.
fn last_place(asks: &[Option<Ask>], feed: u32) -> u32
    ensures { result ≡ last_place feed asks.now }
{
    let mut left = asks.len();
    while left > 0 {
        left -= 1;
        if let Some(ask) = asks[left] {
            if ask.feed == feed {
                return ask.place;
            }
        }
    }
    0
}

/// The ask of the next arrival, where it is from a feed.
pub fn next_ask(actor: u32, source: Source, asks: &[Option<Ask>]) -> Option<Ask>
    requires room { (feed : ℕ) → last_place feed asks.now + 1 < 2 ^ 32 }
    ensures { result ≡ next_ask actor source asks.now }
{
    match source {
        Source::Feed(feed) => Some(Ask {
            feed,
            actor,
            place: last_place(asks, feed) + 1,
        }),
        Source::Actor(_) => None,
    }
}

/// The ask of the arrival of a number, where there is one.
pub fn ask_at(asks: &[Option<Ask>], number: u32) -> Option<Ask>
    ensures { result ≡ ask_at asks.now number }
{
    if number == 0 || asks.len() < number as usize {
        return None;
    }
    asks[(number - 1) as usize]
}

impl Progress {
    pub fn new(alloc: Global) -> Progress
        ensures none { result ≡ record { asks = []; done = 0 } }
    {
        Progress {
            asks: Items::new(alloc),
            done: 0,
        }
    }

    /// Notes the arrivals of an actor that were not noted yet. Without memory it has noted some of them.
    pub fn note(&mut self, actor: u32, entries: &[Entry]) -> Result<(), NoMemory>
        requires few { length entries.now < 2 ^ 32 }
        requires noted { AreNoted actor entries.now self.old.asks }

        ensures noted { AreNoted actor entries.now self.new.asks }
        ensures all { OnOk result (self.new.asks ≡ asks_of actor entries.now) }
        ensures grew { length self.old.asks ≤ length self.new.asks }
        ensures done { self.new.done ≡ self.old.done }
    {
        for place in self.asks.len()..entries.len() {
            let ask = next_ask(actor, entries[place].source, self.asks.as_slice());
            self.asks.push(ask)?;
        }
        Ok(())
    }
}
