//! What workers pass before each of their turns.

/// Is told of each turn that a worker is about to try for. A test may hold workers here.
pub trait Gate: Sync {
    /// The worker of this number, counted from 1, is about to try for a turn of the actor.
    fn enter(&self, worker: u32, actor: u32);
}

/// Holds nobody.
#[derive(Drop)]
pub struct FreeGate;

impl Gate for FreeGate {
    fn enter(&self, _worker: u32, _actor: u32) {}
}
