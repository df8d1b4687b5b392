//! What is made of the run that fair steps over the read arrivals show: late counts, stamps and the ending.
ghost use Rattle.std.specs.Prelude.{◌≡◌, ◌≤◌, length, IfOk};
ghost use Rattle.std.specs.List.{AllByRecursion};
ghost use Rattle.log_posts.specs.Stamps.{HasLink, with_stamps};
ghost use Rattle.log_replay.specs.Expected.{with_entries};
ghost use Rattle.log_replay.specs.Settling.{definition_count, links_to, may_be_late, settled_run, settlement_of};
ghost use Rattle.log_replay.specs.Shared.{finished_all, finished_shared, settlements_shown, shown, shown_all};

use crate::kept::is_running;
use crate::shared::{Shared, plain, posts_shown};
use fair_semantics::{ActorRun, Ending, Limits, Run};
use join_base::{Items, NoMemory, Source};
use log_posts::{Link, lates_made, stamps_in, with_stamps};
use script_types::Plan;
use std::alloc::Global;

// The posts to an actor from each actor of the run, by the entries that they made.
fn links_to<'a>(
    alloc: Global,
    made: &'a [Shared],
    run: &'a Run,
    to: u32,
) -> Result<Items<Link<'a>>, NoMemory>
    requires few { length run.now.actors ≤ 32 }
    ensures { IfOk result (λ links. links ≡ links_to (shown_all run.now.actors made.now) run.now to 0
        (length run.now.actors)) }
{
    let mut links = Items::new(alloc);
    let mut from: usize = 0;
    while from < run.actors.len() {
        let posts = posts_shown(run.actors.as_slice(), made, from, to);
        links.push(posts)?;
        from += 1;
    }
    Ok(links)
}

// The run where these are its late counts: a running actor with one was spent.
fn settled_run(
    alloc: Global,
    own: ActorRun,
    late: Items<(Source, u64)>,
    definitions: u64,
) -> ActorRun
    ensures { result ≡ settled_run own late definitions }
{
    let ActorRun {
        entries,
        late: _,
        ending,
        left,
        partials,
    } = own;
    if is_running(ending) && late.len() > 0 {
        return ActorRun {
            entries,
            late,
            ending: Ending::Spent,
            left: Items::new(alloc),
            partials: definitions,
        };
    }
    ActorRun {
        entries,
        late,
        ending,
        left,
        partials,
    }
}

// Whether a message may be late at an actor with this run: it has ended, or it is full.
#[tactic(auto, using(crate::proofs::SharedLemmas::late_shown))]
fn may_be_late(limits: Limits, own: &Shared, read: &ActorRun) -> bool
    ensures { result ≡ may_be_late limits (shown read.now own.now) }
{
    let has_ended = !is_running(own.own.ending);
    let is_full = limits.arrivals as usize <= plain(read, own).len();
    has_ended || is_full
}

// What is to be made of the run of an actor: its late counts and its stamps.
#[derive(Drop)]
pub(crate) struct Settlement {
    late: Items<(Source, u64)>,
    stamps: Items<u64>,
}

// What is to be made of the run of this actor, by the runs of all and its section as it was read.
fn settlement_of(
    alloc: Global,
    made: &[Shared],
    run: &Run,
    to: u32,
    own: &Shared,
    read: &ActorRun,
) -> Result<Settlement, NoMemory>
    requires few { length run.now.actors ≤ 32 }
    requires feeds { run.now.feeds ≤ 16 }
    requires exist { AllByRecursion (λ entry. HasLink (length run.now.actors) entry.source) read.now.entries }
    ensures { IfOk result (λ s. s ≡ settlement_of (shown_all run.now.actors made.now) run.now to
        (shown read.now own.now) read.now) }
{
    let links = links_to(alloc, made, run, to)?;
    let entries = read.entries.as_slice();
    let may = may_be_late(run.limits, own, read);
    let late = lates_made(
        alloc,
        may,
        read.late.as_slice(),
        run.feeds,
        entries,
        links.as_slice(),
    )?;
    let stamps = stamps_in(alloc, run.version, links, entries)?;
    Ok(Settlement { late, stamps })
}

// The run of an actor, settled: with these late counts and stamps, and spent where it ran and one came too late.
fn finished(alloc: Global, shared: Shared, settlement: Settlement, definitions: u64) -> Shared
    ensures { result ≡ finished_shared shared settlement definitions }
{
    let Settlement { late, stamps } = settlement;
    let Shared {
        as_read,
        stamps: _,
        own,
    } = shared;
    let own = settled_run(alloc, own, late, definitions);
    if as_read {
        return Shared {
            as_read,
            stamps,
            own,
        };
    }
    Shared {
        as_read,
        stamps: Items::new(alloc),
        own: stamped(own, stamps.as_slice()),
    }
}

// The run with these stamps.
fn stamped(own: ActorRun, stamps: &[u64]) -> ActorRun
    ensures { result ≡ with_entries own (with_stamps stamps.now own.entries) }
{
    let ActorRun {
        entries,
        late,
        ending,
        left,
        partials,
    } = own;
    ActorRun {
        entries: with_stamps(entries, stamps),
        late,
        ending,
        left,
        partials,
    }
}

// What is to be made of the runs of all actors.
pub(crate) fn settlements_of(
    alloc: Global,
    made: &[Shared],
    run: &Run,
) -> Result<Items<Settlement>, NoMemory>
    requires few { length run.now.actors ≤ 32 }
    requires feeds { run.now.feeds ≤ 16 }
    requires many { length made.now ≡ length run.now.actors }
    requires exist { AllByRecursion (λ own. AllByRecursion (λ entry. HasLink (length run.now.actors) entry.source)
        own.entries) run.now.actors }
    ensures { IfOk result (λ ss. ss ≡ settlements_shown (shown_all run.now.actors made.now) run.now 0 made.now
        run.now.actors) }
{
    let mut settlements = Items::new(alloc);
    for (to, read) in run.actors.as_slice().iter().enumerate() {
        let settlement = settlement_of(alloc, made, run, to as u32, &made[to], read)?;
        settlements.push(settlement)?;
    }
    Ok(settlements)
}

// How many definitions an actor has.
fn definition_count(plan: &Plan, actor: usize) -> u64
    ensures { result ≡ definition_count plan.now actor }
{
    match plan.actors.as_slice().get(actor) {
        Some(named) => named.rules.len() as u64,
        None => 0,
    }
}

// The runs of all actors, each settled.
pub(crate) fn finished_runs(
    alloc: Global,
    plan: &Plan,
    made: Items<Shared>,
    settlements: Items<Settlement>,
) -> Result<Items<Shared>, NoMemory>
    requires many { length settlements ≡ length made }
    ensures { IfOk result (λ runs. runs ≡ finished_all plan.now 0 made settlements) }
{
    let mut owns = made.into_vec();
    let mut settlements = settlements.into_vec();
    owns.reverse();
    settlements.reverse();
    let mut runs = Items::new(alloc);
    while let Some(own) = owns.pop() {
        let settlement = settlements.pop().unwrap();
        let definitions = definition_count(plan, runs.len());
        runs.push(finished(alloc, own, settlement, definitions))?;
    }
    Ok(runs)
}
