//! The `!` and the parentheses around one atom.
ghost use Rattle.std.specs.Prelude.{◌≡◌, ◌<◌, ◌∷◌, ◌^◌, [], true, MatchOption};
ghost use Rattle.script_grammar.specs.Prefixes.{marks_of};

/// The `!` in front of an atom, and the parentheses that hold it alone: a bit for each, which is set for a `!`. The
/// lowest is the outermost.
#[derive(Clone, Copy, PartialEq, Eq, Debug)]
pub struct Prefix {
    pub count: u32,
    pub bits: u32,
}

impl Prefix {
    pub fn none() -> Prefix
        ensures { marks_of result ≡ [] }
    {
        Prefix { count: 0, bits: 0 }
    }

    /// Whether one more fits.
    pub fn has_room(self) -> bool
        ensures count { result ≡ true → self.count < 32 }
        ensures bits { result ≡ true → self.bits < 2 ^ 31 }
    {
        self.count < 32 && self.bits < 0x8000_0000
    }

    /// The same with a `!`, or else with parentheses, around it.
    pub fn with(self, is_not: bool) -> Prefix
        requires count { self.count < 32 }
        requires bits { self.bits < 2 ^ 31 }
        ensures { marks_of result ≡ is_not ∷ marks_of self }
    {
        let count = self.count + 1;
        if is_not {
            return Prefix {
                count,
                bits: self.bits * 2 + 1,
            };
        }
        Prefix {
            count,
            bits: self.bits * 2,
        }
    }

    /// The outermost, and the prefix behind it.
    pub fn split(self) -> Option<(bool, Prefix)>
        ensures { MatchOption result (marks_of self ≡ []) (λ p. marks_of self ≡ p.0 ∷ marks_of p.1) }
    {
        if self.count == 0 {
            return None;
        }
        let inner = Prefix {
            count: self.count - 1,
            bits: self.bits / 2,
        };
        Some((self.bits % 2 == 1, inner))
    }
}
