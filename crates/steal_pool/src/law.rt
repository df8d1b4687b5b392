//! The law of a family of queues.
ghost use Rattle.steal_pool.specs.Law.{DequeLaw};

/// Of each queue, the tickets taken and then those that wait are the tickets put, over all puts and takes from empty
/// queues on.
pub fn deque_law()
    ensures law { DequeLaw }
{}
