//! What holds of an answerer as arrivals go on.
ghost use Rattle.answerer.specs.Fit.{FitsGrow};

/// What fits the entries of an actor fits those that go on from them.
pub fn fit_law()
    ensures { FitsGrow }
{}
