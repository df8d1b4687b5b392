//! The runs of actors beside those that were read: what is the same is kept once.
ghost use Rattle.std.specs.Prelude.{◌≡◌, slice_get, IfOk};
ghost use Rattle.run_order_law.specs.Sorted.{entries_in};
ghost use Rattle.log_posts.specs.Posts.{link_posts};
ghost use Rattle.log_replay.specs.Shared.{kept, plain, plain_at, shown_all, whole, without_entries};

use crate::kept::entries_at;
use fair_semantics::{ActorRun, Entry, Run};
use join_base::{Items, NoMemory};
use log_posts::{Link, same_entries};
use std::alloc::Global;

// The run of an actor beside the one that was read.
#[derive(Drop)]
pub(crate) struct Shared {
    // Whether the entries are the read ones but for their stamps. Those of `own` are none then.
    pub(crate) as_read: bool,
    // The stamps of such entries, as far as they differ from the read ones.
    pub(crate) stamps: Items<u64>,
    pub(crate) own: ActorRun,
}

// A run that was read, and what is kept of the runs that its actors make of its arrivals.
#[derive(Drop)]
pub(crate) struct Replayed {
    pub(crate) run: Run,
    pub(crate) made: Items<Shared>,
}

// The entries of a run, and what is kept of it where they are the read ones but for their stamps.
pub(crate) fn without_entries(alloc: Global, own: ActorRun) -> (Items<Entry>, Shared)
    ensures entries { result.0 ≡ own.entries }
    ensures own { result.1 ≡ without_entries own }
{
    let ActorRun {
        entries,
        late,
        ending,
        left,
        partials,
    } = own;
    let own = ActorRun {
        entries: Items::new(alloc),
        late,
        ending,
        left,
        partials,
    };
    let shared = Shared {
        as_read: true,
        stamps: Items::new(alloc),
        own,
    };
    (entries, shared)
}

// The run with the entries that were made.
pub(crate) fn whole(alloc: Global, own: ActorRun) -> Shared
    ensures { result ≡ whole own }
{
    Shared {
        as_read: false,
        stamps: Items::new(alloc),
        own,
    }
}

// Lets go of the entries where they are the read ones but for their stamps.
pub(crate) fn kept(alloc: Global, own: ActorRun, read: &[Entry]) -> Shared
    ensures { result ≡ kept read.now own }
{
    if same_entries(own.entries.as_slice(), read) {
        let (_, shared) = without_entries(alloc, own);
        return shared;
    }
    whole(alloc, own)
}

// The entries but for their stamps.
pub(crate) fn plain<'a>(read: &'a ActorRun, shared: &'a Shared) -> &'a [Entry]
    ensures { result.now ≡ plain read.now shared.now }
{
    if shared.as_read {
        read.entries.as_slice()
    } else {
        shared.own.entries.as_slice()
    }
}

// Those of the actor at this place, or none.
fn plain_at<'a>(reads: &'a [ActorRun], runs: &'a [Shared], place: usize) -> &'a [Entry]
    ensures { result.now ≡ plain_at (slice_get reads.now place) (slice_get runs.now place) }
{
    match reads.get(place) {
        None => &[],
        Some(read) => match runs.get(place) {
            None => &[],
            Some(shared) => plain(read, shared),
        },
    }
}

// The posts from one actor to another, each with the stamp of the line that was read at its place.
pub(crate) fn posts_shown<'a>(
    reads: &'a [ActorRun],
    runs: &'a [Shared],
    from: usize,
    to: u32,
) -> Link<'a>
    ensures { result ≡ link_posts to (entries_in (slice_get (shown_all reads.now runs.now) from))
        (entries_in (slice_get reads.now from)) }
{
    let made = plain_at(reads, runs, from);
    let lines = entries_at(reads, from);
    Link::new(to, made, lines)
}
