//! Where boards are shown while a run goes on.

use live_board::Totals;
use script_types::Plan;
use std::alloc::Global;

/// Is shown what monitors read, by all of their threads. `R` is what it may wait with.
pub trait View<R> {
    /// Is told of the plan whose actors are watched, once, before the first of them is shown.
    fn begin(&mut self, rt: &R, alloc: Global, plan: &Plan);

    /// Shows the totals of each actor, in order, as the monitor of this number has read them, counted from 1. That
    /// monitor reads again once the call has returned, and not at once.
    fn show(&self, rt: &R, alloc: Global, monitor: u32, rows: &[Totals]);
}

/// Shows nothing.
#[derive(Clone, Copy, PartialEq, Eq, Debug)]
pub struct NoView;

impl<R> View<R> for NoView {
    fn begin(&mut self, _rt: &R, _alloc: Global, _plan: &Plan) {}

    fn show(&self, _rt: &R, _alloc: Global, _monitor: u32, _rows: &[Totals]) {}
}
