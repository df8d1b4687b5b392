ghost use Rattle.std.specs.Prelude.{◌≡◌, ◌<◌};

use actor_system::System;
use building_load::{load_feeds, load_plan};
use fair_semantics::{ActorRun, Limits, Run};
use feed_store::unpacked_all;
use join_base::{NoMemory, Steps};
use std::alloc::Global;
use std::marker::Brand;
use std::sync::ledger::{Blank, Ledger};
use std::test::Fail;

// Whether the actor has so many arrivals, firings and unconsumed messages.
fn has_counts(own: &ActorRun, arrivals: usize, firings: usize, left: usize) -> bool {
    let mut fired = 0usize;
    for entry in own.entries.as_slice() {
        if entry.firing.get().is_some() {
            fired = fired.saturating_add(1);
        }
    }
    own.entries.len() == arrivals && fired == firings && own.left.len() == left
}

// Whether the run is that of four halls with 252 rows each, and of their desk. In a group of three rows the motion
// fires with the light or with the contact, and the other is left. Each firing posts to the desk.
fn is_building(run: &Run) -> bool {
    match run.actors.as_slice() {
        [first, second, third, fourth, desk] => {
            has_counts(first, 252, 84, 84)
                && has_counts(second, 252, 84, 84)
                && has_counts(third, 252, 84, 84)
                && has_counts(fourth, 252, 84, 84)
                && has_counts(desk, 336, 336, 0)
        }
        _ => false,
    }
}

// Whether the system comes to that run.
fn comes_to_building<L: Ledger>(
    alloc: Global,
    system: System<'_>,
    steps: &mut Steps<L>,
) -> Result<bool, NoMemory> {
    let mut system = system;
    system.run_to_end(alloc, steps)?;
    let run = system.finish();
    Ok(is_building(&run))
}

fn runs_building<L: Ledger>(alloc: Global, blank: Blank) -> Result<bool, NoMemory>
    requires name { blank.name ≡ L.name }
    requires parts { blank.parts ≡ L.parts }
    requires some { 0 < L.parts }
{
    let plan = load_plan(alloc)?;
    let feeds = load_feeds(alloc, 252)?;
    let lists = unpacked_all(alloc, &feeds)?;
    let limits = Limits {
        arrivals: 50_000,
        partials: 65_536,
    };
    let mut steps = Steps::<L>::new(blank);
    let system = System::new(alloc, &plan, limits, lists)?;
    comes_to_building(alloc, system, &mut steps)
}

#[test]
fn a_thousand_rows_come_to_the_same_as_on_threads(rt: HostRuntime) -> Result<(), Fail> {
    assert!(rt; runs_building::<Brand>(rt.alloc(), Blank::new(1))?);
    Ok(())
}
