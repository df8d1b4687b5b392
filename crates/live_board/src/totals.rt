//! What the arrivals of an actor come to.
ghost use Rattle.std.specs.Prelude.{◌≡◌, ◌<◌, ◌^◌, length, map};
ghost use Rattle.std.specs.List.{count_by, sum_by};
ghost use Rattle.std.specs.Option.{is_some};
ghost use Rattle.actor_turn.specs.Counts.{post_count};
ghost use Rattle.live_board.specs.Totalling.{totals_of};

use actor_turn::{Actor, count_posts};
use fair_semantics::{ActorRun, Entry};
use join_base::Items;

/// What an actor has done so far.
#[derive(Clone, Copy, PartialEq, Eq, Debug)]
pub struct Totals {
    /// How many arrivals it recorded.
    pub arrivals: u32,
    /// How many of them fired.
    pub firings: u32,
    /// How many posts the bodies made, or the last number of 64 bits.
    pub posts: u64,
}

/// The totals that an actor begins with.
pub(crate) const NO_TOTALS: Totals = Totals {
    arrivals: 0,
    firings: 0,
    posts: 0,
};

/// Totals, in the order of their actors. Contracts see a list.
pub type TotalsList = Items<Totals>;

/// The totals of an actor, as it stands. The actor keeps them, so many arrivals cost no more than few.
pub fn actor_totals(actor: &Actor) -> Totals
    ensures totals { result ≡ totals_of actor.now.state.entries }
{
    Totals {
        arrivals: actor.arrivals(),
        firings: actor.fired_count(),
        posts: actor.post_count(),
    }
}

// The posts of all firings of a run.
fn sum_entry_posts(entries: &[Entry]) -> u128
    ensures { result ≡ sum_by post_count (map (λ entry. entry.firing) entries.now) }
{
    let mut posts = 0u128;
    for entry in entries {
        posts += u128::from(count_posts(&entry.firing));
    }
    posts
}

// How many of the arrivals of a run fired.
fn count_entries_fired(entries: &[Entry]) -> u32
    requires few { length entries.now < 2 ^ 32 }
    ensures { result ≡ count_by is_some (map (λ entry. entry.firing) entries.now) }
{
    let mut count = 0u32;
    for entry in entries {
        if entry.firing.get().is_some() {
            count += 1;
        }
    }
    count
}

/// The totals of an actor of a run. It goes over all of its arrivals.
pub fn run_totals(own: &ActorRun) -> Totals
    requires few { length own.now.entries < 2 ^ 32 }
    ensures totals { result ≡ totals_of own.now.entries }
{
    let entries = own.entries.as_slice();
    Totals {
        arrivals: entries.len() as u32,
        firings: count_entries_fired(entries),
        posts: sum_entry_posts(entries).min(u128::from(u64::MAX)) as u64,
    }
}
