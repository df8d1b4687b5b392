//! What a schedule leads to, and that it ends.
ghost use Rattle.schedule_law.specs.Given.{FairIsLinked, GivenIsLinked};
ghost use Rattle.schedule_law.specs.Reached.{SchedulesAreLinked};
ghost use Rattle.schedule_law.specs.WorkLeft.{StepsLeaveLess};

/// A system that some schedule reaches from the opening states with the feeds waiting, and at which nothing waits for
/// an actor of the plan, shows a run that is linked to these feeds.
pub fn schedule_law()
    ensures linked { SchedulesAreLinked }
{}

/// Each step of a schedule leaves less work, which is the posts that wait and 17 for each arrival that an actor may
/// still record. So no schedule has more steps than that.
pub fn work_law()
    ensures less { StepsLeaveLess }
{}

/// The same of a system that no schedule is known to reach: where each actor did the fair steps of what it was given,
/// and what came over each link and then what waits there is what its source sent, every schedule that leaves nothing
/// waiting leads to a linked run. That the values of all messages are in range follows, since posts carry stamps.
pub fn given_law()
    ensures given { GivenIsLinked }
    ensures fair { FairIsLinked }
{}
