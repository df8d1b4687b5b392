//! What stands beside the actors of a pool.
ghost use Rattle.std.specs.Prelude.{◌<◌, ℕ, OnErr};
ghost use mathlib.Core.List.{IsPrefix};
ghost use Rattle.join_base.specs.Outside.{Rose};
ghost use Rattle.fair_semantics.specs.Step.{Setting};
ghost use Rattle.actor_cells.specs.History.{History};
ghost use Rattle.actor_pool.specs.Beside.{IsReached, KeepsOthers, ShowsHistory};

use actor_turn::Actor;
use join_base::NoMemory;
use std::alloc::Global;

/// Is shown an actor in each turn, after it was served and before the turn is given back. Each thread has one of its
/// own. `R` is what it may wait with.
///
/// A constructor gives a value that keeps nothing and fits every actor at which nothing arrived (`FitsOpening`).
pub trait Beside<R> {
    // What it keeps of the actor of this number fits these arrivals, by what the actor was told.
    ghost fits: { Self → ℕ → Setting → History → Type 0 };

    // How often it was shown an actor, or the last number of 64 bits.
    ghost tells: { Self → ℕ };

    // What is so where it may want memory: nothing is, where it never does.
    ghost wants: { Type 0 };

    /// Takes what it keeps from the state of an actor, which is one that fair steps reach. Its entries are those that
    /// its history makes. What it keeps of the other actors stays.
    fn seen(&mut self, rt: &R, alloc: Global, actor: u32, state: &Actor) -> Result<(), NoMemory>
        requires below { actor < 32 }
        requires reached { IsReached state.now.setting state.now.state }
        requires shows { ShowsHistory state.now.setting state.now.state state.now.history }
        requires fits { fits self.old actor state.now.setting state.now.history }
        ensures fits { fits self.new actor state.now.setting state.now.history }
        ensures others { KeepsOthers fits self.old self.new actor }
        ensures told { Rose (tells self.old) (tells self.new) }
        ensures wants { OnErr result wants };

    // What fits some arrivals fits what goes on from them.
    ghost grows: { (kept : Self) (actor : ℕ) (setting : Setting) (before after : History) → IsPrefix before after
        → fits kept actor setting before → fits kept actor setting after };
}
