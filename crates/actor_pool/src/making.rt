//! Making the pool of a plan.
ghost use Rattle.std.specs.Prelude.{◌≡◌, ◌<◌, length, All, IfOk, OnOk, ℕ};
ghost use Rattle.script_types.specs.Typed.{IsTyped};
ghost use Rattle.fair_semantics.specs.Fits.{IsFrom1To};
ghost use Rattle.run_fit_law.specs.FitsLaw.{RulesFit};
ghost use Rattle.actor_turn.specs.Held.{AreLimits};
ghost use Rattle.actor_cells.specs.Prepared.{IsNewPoster};
ghost use Rattle.actor_pool.specs.Helpers.{actor_count};
ghost use Rattle.actor_pool.specs.Posters.{feed_ends};
ghost use Rattle.actor_pool.specs.Whole.{IsWhole};

use crate::helper::Helper;
use crate::opening::behind_locks;
use crate::pool::Pool;
use crate::poster::Poster;
use actor_cells::prepare;
use fair_semantics::Limits;
use join_base::NoMemory;
use script_types::Plan;
use std::alloc::Global;

impl Pool {
    /// The pool of a plan, with its actors before their first arrivals; a poster for each feed, of which there are 1 to
    /// 16; and the first helper. Each link has room for `ring` messages, 1 to 4096.
    ///
    /// Its caller is told too that the fixed texts of the plan's rules are texts and their numbers are of 64 bits.
    pub fn new(
        alloc: Global,
        plan: &Plan,
        limits: Limits,
        feeds: u32,
        ring: u32,
    ) -> Result<(Pool, Vec<Poster>, Helper), NoMemory>
        requires typed { IsTyped plan.now }
        requires limits { AreLimits limits }
        requires feeds { IsFrom1To 16 feeds }
        requires ring { IsFrom1To 4096 ring }
        ensures whole { IfOk result (λ made. IsWhole plan.now limits made.0 made.1.items made.2) }
        ensures actors { IfOk result (λ made. actor_count made.0 ≡ length plan.now.actors) }
        ensures count { IfOk result (λ made. length made.1.items ≡ feeds) }
        ensures fresh { IfOk result (λ made. All (λ poster. IsNewPoster (length plan.now.actors) ring
            (feed_ends poster)) made.1.items) }
        ensures texts { OnOk result ((index : ℕ) → index < length plan.now.actors → RulesFit plan.now limits index) }
    {
        let (cells, ends) = prepare(alloc, plan, limits, feeds, ring)?;
        let made = behind_locks(alloc, cells.into_cells(), ends)?;
        Ok(made)
    }
}
