//! The order of a run's steps.
ghost use Rattle.run_order_law.specs.Order.{RunsAreSchedules};
ghost use Rattle.run_order_law.specs.Sorted.{ArrivalsAreInOrder};

/// The order by stamps has all arrivals of a linked run, each in its place. With what came too late behind it, it is a
/// schedule, at whose end nothing waits and each actor's state shows that actor's run.
pub fn order_law()
    ensures ordered { ArrivalsAreInOrder }
    ensures scheduled { RunsAreSchedules }
{}
