//! What holds of the answers of a run.
ghost use Rattle.feed_answers.specs.Grow.{AnswersStay, StampsAreNoMatter};
ghost use Rattle.feed_answers.specs.Numbered.{RunsAreNumbered};

/// In a right run the arrivals of each actor have the numbers from 1 on.
pub fn numbered_law()
    ensures { RunsAreNumbered }
{}

/// An answer stays as more arrives, and the stamps of the arrivals are no matter to it.
pub fn answers_law()
    ensures stay { AnswersStay }
    ensures bare { StampsAreNoMatter }
{}
