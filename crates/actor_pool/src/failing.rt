//! What tells the threads of a pool that one of them found no memory.
//!
//! One that did in a turn gives its turn back and ends, and the ticket of its actor is gone. So what waits there waits
//! until the end, and who posts to it may find its links full for ever. The others end too, then. A feed that finds no
//! memory for its next post tells it as well.

use crate::pool::Pool;
use std::sync::atomic::Ordering;

/// Tells all threads of the pool that one of them found no memory.
pub(crate) fn tell_failure(pool: &Pool) {
    pool.failed.store(1, Ordering::SeqCst);
}

/// Whether some thread found no memory. No clause rests on the answer.
pub(crate) fn has_failed(pool: &Pool) -> bool {
    pool.failed.load(Ordering::SeqCst) != 0
}
