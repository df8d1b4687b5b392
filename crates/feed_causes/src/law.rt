//! What holds of origins in linked runs.
ghost use Rattle.feed_causes.specs.Law.{OriginsPosted};

/// In a linked run each arrival from an actor has an origin: an arrival of that actor, whose firing posted this message
/// to the actor where it arrived.
pub fn origin_law()
    ensures posted { OriginsPosted }
{}
