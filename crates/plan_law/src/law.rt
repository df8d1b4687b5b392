//! The law of the text of a plan.
ghost use Rattle.plan_law.specs.Printed.{PlansReadBack, PlansSpellTheirTree};

/// The text of the plan of a script spells the tree of that script, but for the places of its tokens. So it reads and
/// checks to that plan.
pub fn print_law()
    ensures spells { PlansSpellTheirTree }
    ensures reads { PlansReadBack }
{}
