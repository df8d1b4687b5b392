//! Settling: the run that cells and posters come to.
ghost use Rattle.std.specs.Prelude.{◌≡◌, ℕ, ◌<◌, ◌≤◌, [], length, map, IfOk};
ghost use Rattle.script_types.specs.Typed.{IsTyped};
ghost use Rattle.fair_semantics.specs.Fits.{IsFrom1To};
ghost use Rattle.run_fit_law.specs.FitsLaw.{RulesFit};
ghost use Rattle.actor_turn.specs.Held.{AreLimits};
ghost use Rattle.cell_links.specs.Ends.{poster_tag};
ghost use Rattle.actor_cells.specs.AllLawful.{AreLawful};
ghost use Rattle.actor_cells.specs.Lawful.{cell_tag};
ghost use Rattle.actor_cells.specs.Prepared.{AreWired};
ghost use Rattle.actor_cells.specs.Tags.{AreTagsOf};
ghost use Rattle.pool_settling.specs.Settling.{GoesOnFrom, IsLinkedToAll, IsScheduledOverAll, TakesFew};

use crate::draining::drain_links;
use crate::rounds::{bring_posts, bring_rest, into_runs};
use actor_cells::Cell;
use cell_links::FeedLinks;
use fair_semantics::{Limits, LogVersion, Run};
use join_base::{FeedList, NoMemory, Steps};
use script_types::Plan;
use std::alloc::Global;
use std::sync::ledger::Ledger;

/// The run that the cells of a plan come to, wherever serving left them: all that their links hold arrives, then what
/// is left of the feeds, and then what the outboxes hold, until none holds a post.
///
/// `rest` has, for the first feeds in order, the posts that their posters did not send. Those for no actor of the plan
/// are passed over. The run is linked to the feeds whose posts to each actor are what the poster sent there, and then
/// those of its list in `rest`. Each actor's arrivals begin with the history of its cell, with the stamps that they
/// carried. The actors are given at most what waits in links, in `rest` and in outboxes, and 17
/// messages for each arrival that they may still record. `NoMemory` is that of the lists of ends and runs,
/// or of an arrival.
pub fn settle_with<L: Ledger>(
    alloc: Global,
    plan: &Plan,
    limits: Limits,
    cells: Vec<Cell>,
    posters: Vec<FeedLinks>,
    rest: FeedList,
    steps: &mut Steps<L>,
) -> Result<Run, NoMemory>
    requires typed { IsTyped plan.now }
    requires limits { AreLimits limits }
    requires rules { (actor : ℕ) → actor < length plan.now.actors → RulesFit plan.now limits actor }
    requires feeds { IsFrom1To 16 (length posters.items) }
    requires rest { length rest ≤ length posters.items }
    requires tags { AreTagsOf plan.now limits (length posters.items) (map cell_tag cells.items) }
    requires lawful { AreLawful cells.items }
    requires wired { AreWired (map cell_tag cells.items) (map poster_tag posters.items) }
    ensures linked { IfOk result (λ run. IsLinkedToAll plan.now limits posters.items rest run) }
    ensures scheduled { IfOk result (λ run. IsScheduledOverAll plan.now limits posters.items rest run) }
    ensures version { IfOk result (λ run. run.version ≡ 2) }
    ensures history { IfOk result (λ run. GoesOnFrom plan.now posters.items rest cells.items run) }
    ensures few { IfOk result (λ run. TakesFew posters.items cells.items rest run) }
{
    let runs = Vec::with_capacity(alloc, plan.actors.len())?;
    let feeds = posters.len() as u32;
    let mut actors = drain_links(alloc, cells, posters, steps)?;
    bring_rest(alloc, &rest, &mut actors, steps)?;
    bring_posts(alloc, &mut actors, steps)?;
    Ok(Run {
        version: LogVersion::stamped(),
        limits,
        feeds,
        actors: into_runs(actors, runs),
    })
}

/// The same where nothing is left of the feeds: the run is linked to the feeds whose posts are what the posters sent.
pub fn settle<L: Ledger>(
    alloc: Global,
    plan: &Plan,
    limits: Limits,
    cells: Vec<Cell>,
    posters: Vec<FeedLinks>,
    steps: &mut Steps<L>,
) -> Result<Run, NoMemory>
    requires typed { IsTyped plan.now }
    requires limits { AreLimits limits }
    requires rules { (actor : ℕ) → actor < length plan.now.actors → RulesFit plan.now limits actor }
    requires feeds { IsFrom1To 16 (length posters.items) }
    requires tags { AreTagsOf plan.now limits (length posters.items) (map cell_tag cells.items) }
    requires lawful { AreLawful cells.items }
    requires wired { AreWired (map cell_tag cells.items) (map poster_tag posters.items) }
    ensures linked { IfOk result (λ run. IsLinkedToAll plan.now limits posters.items [] run) }
    ensures scheduled { IfOk result (λ run. IsScheduledOverAll plan.now limits posters.items [] run) }
    ensures version { IfOk result (λ run. run.version ≡ 2) }
    ensures history { IfOk result (λ run. GoesOnFrom plan.now posters.items [] cells.items run) }
    ensures few { IfOk result (λ run. TakesFew posters.items cells.items [] run) }
{
    settle_with(
        alloc,
        plan,
        limits,
        cells,
        posters,
        FeedList::new(alloc),
        steps,
    )
}
