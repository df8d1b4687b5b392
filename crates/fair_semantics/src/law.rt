//! What holds of the stamps of a run.
ghost use Rattle.fair_semantics.specs.StampLaw.{StampsAreFew, StampsFollow, StampsRise};

/// In a linked run with stamps they rise in each actor, an arrival's is greater than the one that its message carried,
/// and none is greater than the number of all arrivals.
pub fn stamps_law()
    ensures rise { StampsRise }
    ensures follow { StampsFollow }
    ensures few { StampsAreFew }
{}
