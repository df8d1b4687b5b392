//! Preparing the cells of a plan.
ghost use Rattle.std.specs.Prelude.{◌≡◌, ℕ, ◌<◌, length, map, IfOk, OnOk};
ghost use Rattle.std.specs.List.{AllByRecursion};
ghost use Rattle.script_types.specs.Typed.{IsTyped};
ghost use Rattle.fair_semantics.specs.Fair.{setting_of};
ghost use Rattle.fair_semantics.specs.Fits.{IsFrom1To, RuleFits};
ghost use Rattle.actor_turn.specs.Held.{AreLimits};
ghost use Rattle.cell_links.specs.Ends.{poster_tag};
ghost use Rattle.actor_cells.specs.AllLawful.{AreLawful};
ghost use Rattle.actor_cells.specs.Lawful.{cell_tag};
ghost use Rattle.actor_cells.specs.Prepared.{ArePrepared, AreWired, cells_of};

use crate::cells::Cells;
use crate::opening::opening_cells;
use crate::targets::all_targets;
use cell_links::{FeedLinks, connect};
use fair_semantics::Limits;
use join_base::NoMemory;
use script_types::Plan;
use std::alloc::Global;

/// The cells of a plan before their first arrivals, one for each actor in order, and a poster for each feed. There is a
/// link from each feed to each actor, and from each actor to each one that its bodies post to, each with room for
/// `ring` messages. Its caller is told too that the fixed texts of the plan's rules are texts and their numbers are of
/// 64 bits.
pub fn prepare(
    alloc: Global,
    plan: &Plan,
    limits: Limits,
    feeds: u32,
    ring: u32,
) -> Result<(Cells, Vec<FeedLinks>), NoMemory>
    requires typed { IsTyped plan.now }
    requires limits { AreLimits limits }
    requires feeds { IsFrom1To 16 feeds }
    requires ring { IsFrom1To 4096 ring }
    ensures prepared { IfOk result (λ made. ArePrepared plan.now limits feeds ring (cells_of made.0) made.1.items) }
    ensures lawful { IfOk result (λ made. AreLawful (cells_of made.0)) }
    ensures wired { IfOk result (λ made. AreWired (map cell_tag (cells_of made.0)) (map poster_tag made.1.items)) }
    ensures texts { OnOk result ((index : ℕ) → index < length plan.now.actors
        → AllByRecursion RuleFits (setting_of plan.now index limits).rules) }
{
    let targets = all_targets(alloc, plan)?;
    let (links, posters) = connect(alloc, feeds, targets.as_slice(), ring)?;
    let cells = opening_cells(alloc, plan, limits, feeds, links)?;
    Ok((Cells { cells }, posters))
}
