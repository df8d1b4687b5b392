//! Sets of actors.
ghost use Rattle.std.specs.Prelude.{◌≡◌, ◌↔◌, ◌%◌, ◌^◌, true, false, get_or, set};
ghost use Rattle.actor_cells.specs.ActorSets.{digits_of, no_actors};

use std::marker::Model;

/// A set of actors, by their numbers. It is one word, so that it is copied as quickly as a number.
///
/// A contract sees for each number below 32 whether it is in. A plan has at most 32 actors, and a higher number is in
/// no set.
#[derive(Clone, Copy)]
pub struct ActorSet {
    // Bit n is set where actor n is in.
    bits: u32,
}

impl Model for ActorSet {
    ghost use Rattle.std.specs.Prelude.{◌<◌, ◌^◌, List, Bool};
    ghost use Rattle.actor_cells.specs.ActorSets.{digits_of, number_of, number_of-digits};

    ghost Value = { List Bool };

    ghost view = { λ s. digits_of 32 s.bits };

    ghost invariant = { λ s. s.bits < 2 ^ 32 };

    ghost inverse = { λ digits. record { bits = number_of digits } };

    ghost inverse_ok = { λ s h i. record { bits = number_of-digits 32 s.bits h i } };
}

impl ActorSet {
    /// The set that no actor is in.
    #[inline]
    pub fn new() -> ActorSet
        ensures { result ≡ no_actors }
    {
        ActorSet { bits: 0 }
    }

    /// The set with one actor more, or the same set where the actor is in or there is no such number.
    #[inline]
    pub fn with(self, actor: u32) -> ActorSet
        ensures { result ≡ set self actor true }
    {
        if actor >= 32 {
            return self;
        }
        ActorSet {
            bits: self.bits | 1 << actor,
        }
    }

    /// Whether an actor is in.
    #[inline]
    pub fn contains(self, actor: u32) -> bool
        ensures { result ≡ get_or self actor false }
    {
        actor < 32 && self.bits & 1 << actor != 0
    }

    /// The set as a number that one atomic step reads or writes.
    #[inline]
    pub fn bits(self) -> u64
        ensures { digits_of 32 result ≡ self }
    {
        u64::from(self.bits)
    }

    /// The set that such a number stands for. Only its lowest 32 bits count.
    #[inline]
    pub fn from_bits(bits: u64) -> ActorSet
        ensures { result ≡ digits_of 32 (bits % 2 ^ 32) }
    {
        ActorSet {
            bits: (bits % (1 << 32)) as u32,
        }
    }

    /// Whether no actor is in.
    #[inline]
    pub fn is_empty(self) -> bool
        ensures { (result ≡ true) ↔ (self ≡ no_actors) }
    {
        self.bits == 0
    }
}
