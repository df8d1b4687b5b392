//! What settled cells show.
ghost use Rattle.settling_law.specs.Settled.{MetIsArrived, SettledIsLinked};

/// Lawful cells of a plan, with all that went over their links arrived and no post in an outbox, show a run that is
/// linked to the feeds whose posts are what the posters sent. All has arrived where links are wired, and the ends of
/// each have met with nothing left waiting.
pub fn settled_law()
    ensures linked { SettledIsLinked }
    ensures arrived { MetIsArrived }
{}
