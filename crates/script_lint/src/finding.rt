//! What lint finds of a plan.

/// A definition that can never fire, or an idle kind: no definition without a finding has a pattern of it. Actors and
/// kinds are counted from 0, the definitions of an actor from 1.
#[derive(Clone, Copy, PartialEq, Eq, Debug)]
pub enum Finding {
    /// No messages make the guard true.
    Dead { actor: u32, rule: u32 },
    /// The window is smaller than the number of patterns.
    Narrow { actor: u32, rule: u32 },
    /// The definition `by` of the same actor stands before it and takes each match first.
    Shadowed { actor: u32, rule: u32, by: u32 },
    /// No definition without a finding has a pattern of the kind.
    Idle { kind: u32 },
}
