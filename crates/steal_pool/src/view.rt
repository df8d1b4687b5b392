//! What a pass knows of a deque. Contracts read it, and no value of it is ever made.

use std::collections::LinkedList;

/// The view of a pass of a deque: what it put there and took there, and how often it found no ticket in any deque.
pub struct DequeView {
    /// The tickets that were put, the oldest first. Only the owner of a deque puts.
    pub put: LinkedList<u32>,
    /// The tickets that were taken, the oldest first.
    pub taken: LinkedList<u32>,
    /// How many takes were answered None. The owner counts them here, in its own deque.
    pub nones: u64,
}
