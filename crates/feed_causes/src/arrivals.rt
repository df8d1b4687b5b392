//! The arrivals of a run, actor by actor.
ghost use Rattle.std.specs.Prelude.{◌≡◌, ◌++◌, ◌<◌, ◌^◌, length, map, IfOk, OnOk};
ghost use Rattle.feed_causes.specs.Causes.{arrivals, arrivals_from, at_actor};

use fair_semantics::{ActorRun, Entry, Run};
use join_base::{Items, NoMemory};
use std::alloc::Global;
use std::marker::Model;

/// An arrival of a run. A contract sees it as its actor, from 0, with its entry.
#[derive(Drop)]
pub struct Arrival<'a> {
    actor: u32,
    entry: &'a Entry,
}

impl<'a> Model for Arrival<'a> {
    ghost use Rattle.std.specs.Prelude.{ℕ};
    ghost use Rattle.fair_semantics.specs.declared.run.Entry.{Entry as OneEntry};

    ghost Value = { ℕ × OneEntry };

    ghost view = { λ a. (a.actor, a.entry.now) };
}

impl<'a> Arrival<'a> {
    /// The actor, from 0.
    pub fn actor(&self) -> u32
        ensures { result ≡ self.now.0 }
    {
        self.actor
    }

    /// The entry, as it stands in the run.
    pub fn entry(&self) -> &'a Entry
        ensures { result.now ≡ self.now.1 }
    {
        self.entry
    }
}

fn push_entries<'a>(
    arrivals: &mut Items<Arrival<'a>>,
    actor: u32,
    entries: &'a [Entry],
) -> Result<(), NoMemory>
    ensures { OnOk result (arrivals.new ≡ arrivals.old ++ map (at_actor actor) entries.now) }
{
    for entry in entries {
        arrivals.push(Arrival { actor, entry })?;
    }
    Ok(())
}

fn arrivals_in<'a>(alloc: Global, runs: &'a [ActorRun]) -> Result<Items<Arrival<'a>>, NoMemory>
    requires few { length runs.now < 2 ^ 32 }
    ensures { IfOk result (λ all. all ≡ arrivals_from 0 runs.now) }
{
    let mut arrivals = Items::new(alloc);
    for (actor, own) in runs.iter().enumerate() {
        push_entries(&mut arrivals, actor as u32, own.entries.as_slice())?;
    }
    Ok(arrivals)
}

/// The arrivals of a run of fewer than 2^32 actors, actor by actor.
pub fn arrivals_of<'a>(alloc: Global, run: &'a Run) -> Result<Items<Arrival<'a>>, NoMemory>
    requires few { length run.now.actors < 2 ^ 32 }
    ensures { IfOk result (λ all. all ≡ arrivals run.now) }
{
    arrivals_in(alloc, run.actors.as_slice())
}
