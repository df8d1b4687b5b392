//! A message that found no memory.
use join_base::Message;

/// A message that an actor did not take, for want of memory. It is handed back.
#[derive(Drop)]
pub struct Refused {
    pub message: Message,
}
