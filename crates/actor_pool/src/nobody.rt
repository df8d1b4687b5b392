//! A pool with nobody beside it.
ghost use Rattle.std.specs.Prelude.{◌^◌, ◌-◌};

use crate::beside::Beside;
use actor_turn::Actor;
use join_base::NoMemory;
use std::alloc::Global;

/// Keeps nothing, does not wait and wants no memory.
#[derive(Drop)]
pub struct Nobody;

impl<R> Beside<R> for Nobody {
    ghost fits = { λ _ _ _ _. Unit {0} };

    ghost tells = { λ _. 2 ^ 64 - 1 };

    ghost wants = { ⊥ };

    fn seen(
        &mut self,
        _rt: &R,
        _alloc: Global,
        _actor: u32,
        _state: &Actor,
    ) -> Result<(), NoMemory> {
        Ok(())
    }

    ghost grows = { λ _ _ _ _ _ _ fit. fit };
}
