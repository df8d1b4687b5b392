//! The posts that wait for one actor.
ghost use Rattle.std.specs.Prelude.{◌≡◌, ◌-◌, ◌∷◌, [], ◌++◌, drop, take, length, true, false, OnErr, OnOk};
ghost use Rattle.actor_turn.specs.Held.{first_of};
ghost use Rattle.actor_turn.specs.Outbox.{is_lent_after};

use join_base::{NoMemory, Stamped};
use std::alloc::Global;
use std::collections::VecDeque;
use std::marker::Model;

/// A queue of posts. A post that was taken from its front may be brought back, since its place is kept.
#[derive(Drop)]
pub struct Outbox {
    posts: VecDeque<Stamped>,
    // Whether the place of the post that was taken last is kept.
    lent: bool,
}

impl Model for Outbox {
    ghost use Rattle.actor_turn.specs.Outbox.{Queue, HasPlace, queue_of};

    ghost Value = { Queue };

    ghost view = { queue_of };

    ghost invariant = { HasPlace };
}

impl Outbox {
    pub fn new(alloc: Global) -> Outbox
        ensures empty { result.posts ≡ [] }
        ensures lent { result.lent ≡ false }
    {
        Outbox {
            posts: VecDeque::new(alloc),
            lent: false,
        }
    }

    /// Puts a post behind the others. Without memory the posts are as they were.
    pub fn push(&mut self, post: Stamped) -> Result<(), NoMemory>
        ensures ok { OnOk result (self.new.posts ≡ self.old.posts ++ post ∷ []) }
        ensures err { OnErr result (self.new.posts ≡ self.old.posts) }
        ensures lent { self.new.lent ≡ self.old.lent }
    {
        let kept = if self.lent { 1 } else { 0 };
        self.posts.reserve(1 + kept)?;
        self.posts.push_back(post).unwrap();
        Ok(())
    }

    /// Takes the last post out, if there is one.
    pub fn drop_last(&mut self)
        ensures posts { self.new.posts ≡ take (length self.old.posts - 1) self.old.posts }
        ensures lent { self.new.lent ≡ self.old.lent }
    {
        self.posts.pop_back();
    }

    /// Takes the first post, and keeps its place. `None` exactly where none waits; then nothing changes.
    pub fn take(&mut self) -> Option<Stamped>
        ensures first { result ≡ first_of self.old.posts }
        ensures posts { self.new.posts ≡ drop 1 self.old.posts }
        ensures lent { self.new.lent ≡ is_lent_after self.old.posts self.old.lent }
    {
        match self.posts.pop_front() {
            None => None,
            Some(post) => {
                self.lent = true;
                Some(post)
            }
        }
    }

    /// Brings the post back that was taken last. It takes no memory.
    pub fn give_back(&mut self, post: Stamped)
        requires lent { self.old.lent ≡ true }
        ensures posts { self.new.posts ≡ post ∷ self.old.posts }
        ensures lent { self.new.lent ≡ false }
    {
        self.posts.push_front(post).unwrap();
        self.lent = false;
    }
}
