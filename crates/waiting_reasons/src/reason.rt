//! Why a definition doesn't take a message.
use join_base::Slots;

/// Why a definition with a pattern of its kind didn't take a message that waits.
#[derive(Drop)]
pub enum Reason {
    /// The window has passed it.
    Passed,
    /// At each pattern of its kind a conjunct is false for it alone.
    Misfits,
    /// This assignment has it, makes each decided conjunct true, and none that does so has more messages.
    Fullest(Slots),
}
