//! The runs of actors.
ghost use Rattle.std.specs.Prelude.{◌≡◌, ◌≤◌, [], length, map, vec_capacity};
ghost use Rattle.actor_system.specs.Serving.{run_in};

use actor_turn::Actor;
use fair_semantics::ActorRun;
use join_base::Items;

/// The runs of the actors, put into the room that was made for them. It takes no memory.
pub fn into_runs(actors: Vec<Actor>, room: Vec<ActorRun>) -> Items<ActorRun>
    requires empty { room.items ≡ [] }
    requires room { length actors.items ≤ vec_capacity room }
    ensures { result ≡ map run_in actors.items }
{
    let mut actors = actors;
    let mut runs = room;
    while let Some(actor) = actors.pop() {
        runs.push(actor.into_run()).unwrap();
    }
    runs.reverse();
    Items::from_vec(runs)
}
