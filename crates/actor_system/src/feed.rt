//! The posts of a feed that wait for an actor.
ghost use Rattle.std.specs.Prelude.{◌≡◌, ◌≤◌, [], length, MatchOption};
ghost use Rattle.actor_system.specs.Feeding.{IsNext, fed_from};

use join_base::Message;

/// The place of the first post for the actor, from a place on.
pub fn next_for(posts: &[(u32, Message)], from: usize, actor: u32) -> Option<usize>
    ensures next { MatchOption result (fed_from posts.now from actor ≡ []) (IsNext posts.now from actor) }
{
    for place in from..posts.len() {
        if posts[place].0 == actor {
            return Some(place);
        }
    }
    None
}
