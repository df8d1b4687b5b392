//! What holds of the reply over a history, and of answerers.
ghost use Rattle.answer_law.specs.Replies.{AnswersAgree, ReadersAgree, ReadersTry, RepliesAreOne, RepliesStay, RunsAnswer};

/// A reply over a history stays as the history goes on. In a linked run the answer of an ask is the reply over the
/// history of its actor. What an actor of a well typed plan replies to the arrival of an ask is the one reply to it.
pub fn reply_law()
    ensures stay { RepliesStay }
    ensures runs { RunsAnswer }
    ensures one { RepliesAreOne }
{}

/// What an answerer knows of an ask on its list is the answer of the ask in a linked run of a well typed plan. It fits
/// the entries that the history of the ask's actor makes, or those that the run has of it.
pub fn agree_law()
    ensures histories { AnswersAgree }
    ensures runs { ReadersAgree }
{}

/// Where an answerer has tried each reply of an actor of a linked run of a well typed plan, it has tried the answer of
/// each ask of that actor that the board has: the ask is on the list, or has another value.
pub fn try_law()
    ensures { ReadersTry }
{}
