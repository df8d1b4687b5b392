//! What holds of the expected run of a run, and of the lines of its log. Runs are of a well typed plan where a law says
//! what they fit or are linked to.
ghost use Rattle.log_replay.specs.Law.{AcceptedHasOneText, AcceptedIsExpected, AcceptedIsLinked, AcceptedIsScheduled, ExpectedFits, ExpectedIsLinked, LinesAreText, LinkedIsAccepted, LinkedIsExpected};

/// The lines of a run, one behind the other, are its log text.
pub fn lines_law()
    ensures { LinesAreText }
{}

/// A run that is linked to feeds whose messages fit is its own expected run, in both versions.
pub fn expected_law()
    ensures { LinkedIsExpected }
{}

/// No line of the log of such a run is in fault.
pub fn accepted_law()
    ensures { LinkedIsAccepted }
{}

/// Conversely a run that fits the plan and is its own expected run, and no line of whose log is in fault, is linked to
/// the feeds that it shows.
pub fn linked_law()
    ensures { ExpectedIsLinked }
{}

/// Where no line is in fault, the log text of the run is that of its expected run.
pub fn text_law()
    ensures { AcceptedHasOneText }
{}

/// Where the rules of the plan are in range, the expected run of a run that fits the plan fits it.
pub fn fits_law()
    ensures { ExpectedFits }
{}

/// Where the rules of the plan are in range, a run that fits the plan, and no line of whose log is in fault, is its own
/// expected run, and is linked with its stamps to the feeds that it shows: what its actors took from each, and a copy
/// of an actor's first message for each late one of it. In version 2 it is that of one schedule of single steps over
/// those feeds.
pub fn converse_law()
    ensures expected { AcceptedIsExpected }
    ensures linked { AcceptedIsLinked }
    ensures scheduled { AcceptedIsScheduled }
{}
