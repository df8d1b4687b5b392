//! The places of a script's tokens do not matter to its plan.
ghost use Rattle.place_law.specs.Law.{PlacesDoNotMatter};

/// Tokens that differ in their places alone from those of a script with a plan are those of a script too, and it has
/// the same plan.
pub fn places_law()
    ensures { PlacesDoNotMatter }
{}
