//! What an answerer has answered, ask by ask.
ghost use Rattle.std.specs.Prelude.{◌≡◌, IsSome, Some};
ghost use Rattle.answerer.specs.Answered.{IsOfBoard, KnowsTheSame, known};

use crate::reading::Answerer;
use ask_board::Ask;
use join_base::Value;

impl<'a> Answerer<'a> {
    /// The asks on its list, in the order in which they came there. One may stand there several times.
    pub fn asks(&self) -> &[Ask]
        ensures same { result.now ≡ self.now.answers.asks }
    {
        self.answers.asks.as_slice()
    }

    /// The value of an ask of which one is known, as those on the list. It is read on the board.
    pub fn value_of(&mut self, ask: Ask) -> &'a Value
        requires of_board { IsOfBoard self.old.answers }
        requires known { IsSome (known self.old.answers ask) }
        ensures value { known self.old.answers ask ≡ Some result.now }
        ensures same { KnowsTheSame self.old.answers self.new.answers }
    {
        match self.answers.board.look(&mut self.answers.view, ask) {
            Some(value) => value,
            None => unreachable!(),
        }
    }
}
