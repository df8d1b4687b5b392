//! Which conjuncts of a definition have fields of which patterns. It is found once a definition, since each try asks it.
ghost use Rattle.std.specs.Prelude.{◌≡◌, ◌++◌, ◌<◌, ◌&&◌, ◌||◌, ◌==◌, ℕ, Some, length, slice_get};
ghost use Rattle.guard_eval.specs.Meaning.{leaf_needs, needs_of, operand_needs, term_needs, words_needs};
ghost use Rattle.guard_eval.specs.Shape.{atom_condition, conjunct_condition};
ghost use Rattle.row_screens.specs.PlaceSet.{has};
ghost use Rattle.row_screens.specs.Ties.{AreNaming, AreTied, names, needs_at};

use crate::place_set::PlaceSet;
use guard_eval::{Atom, Conjunct, ConjunctList, Leaf, Operand, Signed, WordsLeaf};

// Whether a leaf is a field of the pattern.
fn is_field_of(leaf: Leaf, pattern: u32) -> bool
    ensures { result ≡ names pattern (leaf_needs leaf) }
{
    match leaf {
        Leaf::Number(_) => false,
        Leaf::Field(place) => {
            if place.pattern == pattern {
                return true;
            }
            false
        }
    }
}

// Whether a sum has a field of the pattern.
#[tactic(auto, using(crate::proofs::TieLemmas::names_append))]
fn has_leaf(leaves: &[Signed], pattern: u32) -> bool
    ensures { result ≡ names pattern (term_needs leaves.now) }
{
    for signed in leaves {
        if is_field_of(signed.leaf, pattern) {
            return true;
        }
    }
    false
}

// Whether a text is a field of the pattern.
fn is_text_of(words: &WordsLeaf, pattern: u32) -> bool
    ensures { result ≡ names pattern (words_needs words.now) }
{
    match words {
        WordsLeaf::Fixed(_) => false,
        WordsLeaf::Field(place) => {
            if place.pattern == pattern {
                return true;
            }
            false
        }
    }
}

fn has_field(operand: &Operand, pattern: u32) -> bool
    ensures { result ≡ names pattern (operand_needs operand.now) }
{
    match operand {
        Operand::Sum(term) => has_leaf(term.leaves(), pattern),
        Operand::Words(words) => is_text_of(words, pattern),
    }
}

// Whether one of two operands has a field of the pattern.
#[tactic(auto, using(crate::proofs::TieLemmas::names_append))]
fn have_field(left: &Operand, right: &Operand, pattern: u32) -> bool
    ensures { result ≡ names pattern (operand_needs left.now ++ operand_needs right.now) }
{
    has_field(left, pattern) || has_field(right, pattern)
}

// Whether an atom has a field of the pattern.
#[cycle(naming)]
fn atom_names(atom: &Atom, pattern: u32) -> bool
    ensures { result ≡ names pattern (needs_of (atom_condition atom.now)) }
{
    match atom {
        Atom::Compare { left, right, .. } => have_field(left, right, pattern),
        Atom::Not(inner) => atom_names(inner, pattern),
        Atom::Group(inner) => conjunct_names(inner, pattern),
    }
}

// Whether a conjunct has a field of the pattern.
#[cycle(naming)]
fn conjunct_names(conjunct: &Conjunct, pattern: u32) -> bool
    ensures { result ≡ names pattern (needs_of (conjunct_condition conjunct.now)) }
{
    for atom in &conjunct.atoms {
        if atom_names(atom, pattern) {
            return true;
        }
    }
    false
}

// The places with one more, if the conjunct there has a field of the pattern.
fn add_naming(conjuncts: &ConjunctList, pattern: u32, found: PlaceSet, place: u32) -> PlaceSet
    requires within { place < length conjuncts.now }
    requires small { place < 64 }
    ensures { (k : ℕ) → has result k ≡ (((k == place) && names pattern (needs_at conjuncts.now place))
        || has found k) }
{
    if conjunct_names(conjuncts.at(place as usize), pattern) {
        return found.with(place);
    }
    found
}

// Those of the first 64 conjuncts that have a field of the pattern.
fn naming_of(conjuncts: &ConjunctList, pattern: u32) -> PlaceSet
    ensures { AreNaming conjuncts.now pattern result }
{
    let mut found = PlaceSet::new();
    for place in 0..conjuncts.len().min(64) as u32 {
        found = add_naming(conjuncts, pattern, found, place);
    }
    found
}

/// For each of 8 patterns those of the first 64 conjuncts that have a field of it.
#[derive(Clone, Copy)]
pub struct Ties {
    cells: [PlaceSet; 8],
}

impl Ties {
    /// The sets of these conjuncts.
    pub fn new(conjuncts: &ConjunctList) -> Ties
        ensures { AreTied result conjuncts.now }
    {
        let mut cells = [PlaceSet::new(); 8];
        for pattern in 0..8u32 {
            cells[pattern as usize] = naming_of(conjuncts, pattern);
        }
        Ties { cells }
    }

    /// The conjuncts that have a field of the pattern.
    #[inline]
    pub fn naming(&self, pattern: u32) -> PlaceSet
        requires { pattern < 8 }
        ensures { slice_get self.now.cells pattern ≡ Some result }
    {
        self.cells[pattern as usize]
    }
}
