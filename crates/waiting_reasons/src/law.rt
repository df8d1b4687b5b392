//! What holds of the reasons.
ghost use Rattle.waiting_reasons.specs.Law.{FurtherAreHindered, ReasonsAreTrue};

/// Each reason is true: the window has passed the message, or no assignment has it, or none that has it is fuller.
pub fn reasons_law()
    ensures { ReasonsAreTrue }
{}

/// At an empty pattern of the fullest assignment each message that could stand there makes a conjunct false.
pub fn hindered_law()
    ensures { FurtherAreHindered }
{}
