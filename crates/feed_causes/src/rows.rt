//! The rows of feeds among what is marked.
ghost use Rattle.std.specs.Prelude.{◌≡◌, ◌++◌, [], IfOk, OnOk};
ghost use Rattle.std.specs.List.{cons_option};
ghost use Rattle.feed_causes.specs.Causes.{is_feed, is_row};
ghost use Rattle.feed_causes.specs.Search.{row_at, rows_from};

use crate::arrivals::Arrival;
use join_base::{Items, NoMemory, Source};
use std::alloc::Global;

fn is_feed(source: Source) -> bool
    ensures { result ≡ is_feed source }
{
    match source {
        Source::Feed(_) => true,
        Source::Actor(_) => false,
    }
}

fn is_row(all: &[Arrival], place: usize) -> bool
    ensures { result ≡ is_row all.now place }
{
    match all.get(place) {
        Some(arrival) => is_feed(arrival.entry().source),
        None => false,
    }
}

fn row_at(all: &[Arrival], place: usize, mark: bool) -> Option<usize>
    ensures { result ≡ row_at all.now place mark }
{
    if mark && is_row(all, place) {
        Some(place)
    } else {
        None
    }
}

fn push_some(places: &mut Items<usize>, found: Option<usize>) -> Result<(), NoMemory>
    ensures { OnOk result (places.new ≡ places.old ++ cons_option found []) }
{
    if let Some(place) = found {
        places.push(place)?;
    }
    Ok(())
}

/// The places of the rows among all arrivals that have a mark, in order.
pub(crate) fn rows_of(
    alloc: Global,
    all: &[Arrival],
    marks: &[bool],
) -> Result<Items<usize>, NoMemory>
    ensures { IfOk result (λ rows. rows ≡ rows_from all.now 0 marks.now) }
{
    let mut rows = Items::new(alloc);
    for (place, mark) in marks.iter().enumerate() {
        push_some(&mut rows, row_at(all, place, *mark))?;
    }
    Ok(rows)
}
