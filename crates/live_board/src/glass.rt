//! What a monitor looks through.
ghost use Rattle.std.specs.Prelude.{◌≡◌, ◌≤◌, ℕ, List, length, OnErr, OnOk};
ghost use Rattle.join_base.specs.Outside.{Rose};
ghost use Rattle.live_board.specs.declared.record.Record.{Record};
ghost use Rattle.live_board.specs.Looking.{Shows, ShowsNothing};

use crate::board::Board;

/// The glass showed nothing.
#[derive(Clone, Copy, PartialEq, Eq, Debug)]
pub struct Refused;

/// Shows boards of records. A later board is of records that go on from those of an earlier one.
pub trait Glass {
    // How many actors the board has.
    ghost rows: { Self → ℕ };

    // The records that it knows.
    ghost known: { Self → List Record };

    // How many looks it refused, or the last number of 64 bits.
    ghost refusals: { Self → ℕ };

    // What stays of a glass, as which board it shows.
    ghost stays: { Self → Self → Type 0 };

    // What a look did that showed a board, as that it took what was published.
    ghost looks: { Self → Self → Type 0 };

    /// Shows the board of records that begin with those that it knew. It knows them from then on.
    ///
    /// `Refused` comes only where the count of refused looks rose. Then the board is as it was.
    fn look(&mut self, into: &mut Board) -> Result<(), Refused>
        requires rows { length into.old ≡ rows self.old }
        ensures rows { rows self.new ≡ rows self.old }
        ensures stays { stays self.old self.new }
        ensures shown { OnOk result (Shows (rows self.old) (known self.old) (known self.new) into.new) }
        ensures refused { OnErr result (ShowsNothing (known self.old) (known self.new) into.old into.new) }
        ensures looks { OnOk result (looks self.old self.new) }
        ensures later { refusals self.old ≤ refusals self.new }
        ensures cause { OnErr result (Rose (refusals self.old) (refusals self.new)) };
}
