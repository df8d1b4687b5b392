//! What holds of the runs of actors, whatever messages they are given.
ghost use Rattle.run_fit_law.specs.FitsLaw.{FairRunFits, FairRunsFit};
ghost use Rattle.run_fit_law.specs.RestLaw.{FiringsTakeNewest, NoneWaitsBetween};

/// Of a well typed plan, whose rules are in range: the run that the fair semantics makes of messages whose sources
/// exist and whose values are in range fits the plan, and so does a run whose actors have such runs.
pub fn fits_law()
    ensures each { FairRunFits }
    ensures whole { FairRunsFit }
{}

/// In the fair semantics of a well typed plan no complete match waits between two arrivals, and each firing takes the
/// newest message. This holds whatever the messages are, also where they do not fit.
pub fn rest_law()
    ensures none { NoneWaitsBetween }
    ensures newest { FiringsTakeNewest }
{}
