//! What holds of the endings and of the replies of a run.
ghost use Rattle.run_laws.specs.Replies.{FairTakesOnce, LinkedTakesOnce};
ghost use Rattle.run_laws.specs.Spent.{SpentHasCause, SpentIsFull};

/// An actor that ended as spent still ran when a message came that it may not take: it had recorded as many arrivals as
/// its limit allows, or the message didn't fit, or no stamp was left. In a run that is linked to feeds whose messages
/// fit, only the limit of arrivals does so: a spent actor recorded just so many, and a further message came.
pub fn spent_law()
    ensures cause { SpentHasCause }
    ensures full { SpentIsFull }
{}

/// Whatever messages an actor of a well typed plan is given, its firings take each arrival at most once, and reply to
/// each at most once, only to what they took, and to none behind their own. So it is in a linked run, in both versions.
pub fn reply_law()
    ensures fair { FairTakesOnce }
    ensures linked { LinkedTakesOnce }
{}
