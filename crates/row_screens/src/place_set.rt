//! Sets of the places of conjuncts.
ghost use Rattle.std.specs.Prelude.{◌≡◌, ◌<◌, ℕ, true, false, not, ◌&&◌, ◌||◌, ◌==◌, MatchOption};
ghost use Rattle.row_screens.specs.PlaceSet.{has};

/// A set of places below 64, a bit for each. It is one word, so that it is copied as quickly as a number.
#[derive(Clone, Copy)]
pub struct PlaceSet {
    bits: u64,
}

impl PlaceSet {
    #[inline]
    pub fn new() -> PlaceSet
        ensures empty { (k : ℕ) → has result k ≡ false }
    {
        PlaceSet { bits: 0 }
    }

    /// The set of all places.
    #[inline]
    pub fn all() -> PlaceSet
        ensures full { (k : ℕ) → k < 64 → has result k ≡ true }
    {
        PlaceSet { bits: u64::MAX }
    }

    /// The set with a place too.
    #[inline]
    pub fn with(self, place: u32) -> PlaceSet
        requires within { place < 64 }
        ensures { (k : ℕ) → has result k ≡ ((k == place) || has self k) }
    {
        PlaceSet {
            bits: self.bits | 1 << place,
        }
    }

    /// The places that are in both.
    #[inline]
    pub fn both(self, other: PlaceSet) -> PlaceSet
        ensures { (k : ℕ) → has result k ≡ (has self k && has other k) }
    {
        PlaceSet {
            bits: self.bits & other.bits,
        }
    }

    /// The places that are not in the other.
    #[inline]
    pub fn without(self, other: PlaceSet) -> PlaceSet
        ensures { (k : ℕ) → k < 64 → has result k ≡ (has self k && not (has other k)) }
    {
        PlaceSet {
            bits: self.bits & !other.bits,
        }
    }

    #[inline]
    pub fn is_empty(self) -> bool
        ensures { result ≡ true → (k : ℕ) → has self k ≡ false }
    {
        self.bits == 0
    }

    /// The least place.
    #[inline]
    pub fn first(self) -> Option<u32>
        ensures { MatchOption result ((k : ℕ) → has self k ≡ false) (λ place. (place < 64)
            × (has self place ≡ true)) }
    {
        if self.bits == 0 {
            return None;
        }
        Some(self.bits.trailing_zeros())
    }

    /// The set but for one of its places.
    #[inline]
    pub fn but(self, place: u32) -> PlaceSet
        requires within { place < 64 }
        requires member { has self place ≡ true }
        ensures others { (k : ℕ) → k < 64 → has result k ≡ (has self k && not (k == place)) }
        ensures fewer { result.bits < self.bits }
    {
        PlaceSet {
            bits: self.bits & !(1 << place),
        }
    }
}
