//! What stands beside a pool: an answerer of one board.
ghost use Rattle.std.specs.Prelude.{◌<◌, ◌-◌, ◌^◌, OnErr};
ghost use Rattle.join_base.specs.Outside.{Rose};
ghost use Rattle.actor_pool.specs.Beside.{IsReached, KeepsOthers, ShowsHistory};
ghost use Rattle.ask_run.specs.Growing.{fits_on_grow};
ghost use Rattle.ask_run.specs.Tellers.{FitsOn};

use crate::one_board::{OneBoard, Teller};
use actor_pool::Beside;
use actor_turn::Actor;
use join_base::NoMemory;
use std::alloc::Global;

impl<'a, K: OneBoard, R> Beside<R> for Teller<'a, K> {
    ghost fits = { FitsOn K.cells };

    ghost tells = { λ _. 2 ^ 64 - 1 };

    ghost wants = { Unit {0} };

    // Shows the actor to the answerer.
    fn seen(&mut self, rt: &R, alloc: Global, actor: u32, state: &Actor) -> Result<(), NoMemory>
        requires below { actor < 32 }
        requires reached { IsReached state.now.setting state.now.state }
        requires shows { ShowsHistory state.now.setting state.now.state state.now.history }
        requires fits { FitsOn K.cells self.old actor state.now.setting state.now.history }
        ensures fits { FitsOn K.cells self.new actor state.now.setting state.now.history }
        ensures others { KeepsOthers (FitsOn K.cells) self.old self.new actor }
        ensures told { Rose (2 ^ 64 - 1) (2 ^ 64 - 1) }
        ensures wants { OnErr result (Unit {0}) }
    {
        self.answerer.seen(rt, alloc, actor, state)
    }

    ghost grows = { fits_on_grow K.cells };
}
