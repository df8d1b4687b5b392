//! Running a plan on its feeds.
ghost use Rattle.std.specs.Prelude.{◌≡◌, IfOk};
ghost use Rattle.fair_semantics.specs.Linked.{IsLinked};
ghost use Rattle.run_order_law.specs.Order.{IsScheduled};
ghost use Rattle.command_words.specs.Ranges.{AreInRange};
ghost use Rattle.join_command.specs.Replying.{AreRunParts};
ghost use Rattle.join_command.specs.Verdict.{limits_of};

use actor_pool::Gate;
use command_words::{Queueing, RunOptions};
use fair_semantics::{Limits, Run};
use feed_store::Feeds;
use join_base::NoMemory;
use pool_run::{run_pool, run_stealing};
use script_types::Plan;
use std::alloc::Global;
use std::sync::Wait;
use std::thread::Threads;

/// The limits that the options give.
pub(crate) fn limits_of(options: RunOptions) -> Limits
    ensures { result ≡ limits_of options }
{
    Limits {
        arrivals: options.arrivals,
        partials: u64::from(options.partials),
    }
}

/// The run of the plan on its feeds, over all actors, within the limits of the options, by as many workers and over
/// links with as much room as they say. By the option `pool` the workers have one queue of tickets, or a deque each,
/// from which the others steal. The run is linked to the feeds, and it is that of one schedule of single steps: the
/// logs of its actors may be read as those of a run on one thread, step after step. It may wait.
pub fn run_feeds<R: Threads + Wait + Sync, G: Gate>(
    rt: &R,
    alloc: Global,
    plan: &Plan,
    options: RunOptions,
    feeds: Feeds,
    gate: &G,
) -> Result<Run, NoMemory>
    requires parts { AreRunParts plan.now (limits_of options) feeds }
    requires numbers { AreInRange options }
    ensures linked { IfOk result (IsLinked plan.now (limits_of options) feeds) }
    ensures scheduled { IfOk result (IsScheduled plan.now (limits_of options) feeds) }
    ensures version { IfOk result (λ run. run.version ≡ 2) }
{
    let limits = limits_of(options);
    let (ring, workers) = (options.ring, options.workers);
    match options.pool {
        Queueing::Queue => run_pool(rt, alloc, plan, limits, feeds, ring, workers, gate),
        Queueing::Steal => run_stealing(rt, alloc, plan, limits, feeds, ring, workers, gate),
    }
}
