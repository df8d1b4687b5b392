//! One of the other deques of a pass. It stands in a file alone, since the words on it import this file.
ghost use Rattle.std.specs.Prelude.{◌≡◌};
ghost use Rattle.crossbeam_deque.specs.Handles.{IsPassOf, stealer_deque, stealer_flavor};

use crate::view::DequeView;
use crossbeam_deque::protocol::Protocol;
use crossbeam_deque::{Pass, Stealer};
use std::alloc::Global;

/// What a pass steals from another deque with.
#[derive(Drop)]
pub(crate) struct Thief<P: Protocol<u32, DequeView>> {
    pub(crate) stealer: Stealer<u32, Global, DequeView, P>,
    pub(crate) pass: Pass<u32, DequeView>,
    ghost fifo: { stealer_flavor stealer ≡ 0 },
    ghost own: { ∥ IsPassOf (stealer_deque stealer) pass ∥₁ },
}
