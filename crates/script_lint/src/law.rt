//! What the findings promise.
ghost use Rattle.script_lint.specs.Law.{FindingsNeverFire, IdleKindsAreNeverTaken};

/// A definition with a finding never fires, and a message of an idle kind is never taken, whatever messages come whose
/// integers are of 64 bits.
pub fn lint_law()
    ensures fire { FindingsNeverFire }
    ensures taken { IdleKindsAreNeverTaken }
{}
