//! Taking cells and posters apart.
ghost use Rattle.std.specs.Prelude.{◌≡◌, ◌++◌, ◌≤◌, length, map, OnOk};
ghost use Rattle.pool_settling.specs.Flat.{actors_in, receiver_of, receivers_from, sender_of, senders_from, fed_from};

use crate::ends::{Receiver, Sender};
use actor_cells::Cell;
use actor_turn::Actor;
use cell_links::{FeedLinks, Inward, Outward};
use join_base::{NoMemory, Source};

fn add_receivers(
    receivers: &mut Vec<Receiver>,
    target: u32,
    inward: Vec<Inward>,
) -> Result<(), NoMemory>
    ensures added { OnOk result (receivers.new.items ≡ receivers.old.items ++ map (receiver_of target) inward.items) }
{
    for one in inward {
        let Inward { source, link } = one;
        receivers.push(Receiver {
            source,
            target,
            link,
        })?;
    }
    Ok(())
}

fn add_senders(
    senders: &mut Vec<Sender>,
    source: Source,
    outward: Vec<Outward>,
) -> Result<(), NoMemory>
    ensures added { OnOk result (senders.new.items ≡ senders.old.items ++ map (sender_of source) outward.items) }
{
    for one in outward {
        let Outward { target, link } = one;
        senders.push(Sender {
            source,
            target,
            link,
        })?;
    }
    Ok(())
}

/// Adds the senders of the posters, whose feeds are numbered from 1.
pub fn take_posters(posters: Vec<FeedLinks>, senders: &mut Vec<Sender>) -> Result<(), NoMemory>
    requires few { length posters.items ≤ 16 }
    ensures senders { OnOk result (senders.new.items ≡ senders.old.items ++ fed_from 1 posters.items) }
{
    let mut number = 1u32;
    for poster in posters {
        add_senders(senders, Source::Feed(number), poster.into_links())?;
        number += 1;
    }
    Ok(())
}

/// Adds the senders, the receivers and the actors of the cells, which are numbered from 0.
pub fn take_cells(
    cells: Vec<Cell>,
    senders: &mut Vec<Sender>,
    receivers: &mut Vec<Receiver>,
    actors: &mut Vec<Actor>,
) -> Result<(), NoMemory>
    requires few { length cells.items ≤ 32 }
    ensures senders { OnOk result (senders.new.items ≡ senders.old.items ++ senders_from 0 cells.items) }
    ensures receivers { OnOk result (receivers.new.items ≡ receivers.old.items ++ receivers_from 0 cells.items) }
    ensures actors { OnOk result (actors.new.items ≡ actors.old.items ++ actors_in cells.items) }
{
    let mut number = 0u32;
    for cell in cells {
        let Cell {
            actor,
            inward,
            outward,
            ..
        } = cell;
        add_senders(senders, Source::Actor(number), outward)?;
        add_receivers(receivers, number, inward)?;
        actors.push(Box::into_inner(actor))?;
        number += 1;
    }
    Ok(())
}
