//! Looking at what is published.
ghost use Rattle.std.specs.Prelude.{◌≡◌, ◌≤◌, ◌∷◌, IfSome};
ghost use mathlib.Core.List.{IsPrefix};
ghost use Rattle.join_base.specs.Outside.{Rose};
ghost use Rattle.left_right.specs.Sides.{view};
ghost use Rattle.logbook.specs.Pages.{Book};
ghost use Rattle.live_board.specs.History.{front_book};
ghost use Rattle.live_board.specs.BoardRule.{HasSeenOf};
ghost use Rattle.live_board.specs.Glasses.{left_book, left_records, left_refusals, left_rows};
ghost use Rattle.live_board.specs.Writers.{noted, note_book};

use crate::board::Board;
use crate::glass::{Glass, Refused};
use crate::left_glass::{BoardReader, LeftGlass};
use crate::note::BoardNote;
use crate::shown::Sees;
use crate::snapshot::Snapshot;
use core::mem::replace_with;

// A copy of what is published, or none where the writer is gone.
fn see(reader: BoardReader, _: ()) -> (BoardReader, Option<Snapshot>)
    ensures tied { (b : Book) → HasSeenOf b (view reader.place) → HasSeenOf b (view result.0.place)
        × IfSome result.1 (λ x. front_book x.front ≡ b) }
    ensures taken { IfSome result.1 (λ x. view result.0.place ≡ x ∷ view reader.place) }
{
    match reader.enter_as::<Sees>() {
        Ok(reading) => {
            let snapshot = reading.get().again();
            (reading.leave(), Some(snapshot))
        }
        Err(reader) => (reader, None),
    }
}

impl LeftGlass {
    // A copy of what is published on this glass's board, or none where the writer is gone.
    fn see(&mut self) -> Option<Snapshot>
        ensures book { IfSome result (λ x. front_book x.front ≡ left_book self.old) }
        ensures taken { IfSome result (λ x. view self.new.reader.place ≡ x ∷ view self.old.reader.place) }
        ensures front { self.new.front ≡ self.old.front }
        ensures rows { left_rows self.new ≡ left_rows self.old }
        ensures refusals { left_refusals self.new ≡ left_refusals self.old }
    {
        replace_with(&mut self.reader, (), see)
    }

    // Counts a look that is refused.
    fn refuse(&mut self) -> Refused
        ensures front { self.new.front ≡ self.old.front }
        ensures rows { left_rows self.new ≡ left_rows self.old }
        ensures later { left_refusals self.old ≤ left_refusals self.new }
        ensures rose { Rose (left_refusals self.old) (left_refusals self.new) }
    {
        self.refused = self.refused.saturating_add(1);
        Refused
    }

    /// Uses the note up: the glass then knows the list that was published when the note was made.
    ///
    /// It takes no memory and does not wait.
    pub fn learn(&mut self, note: BoardNote)
        requires book { note_book note ≡ left_book self.old }
        ensures book { left_book self.new ≡ left_book self.old }
        ensures rows { left_rows self.new ≡ left_rows self.old }
        ensures refusals { left_refusals self.new ≡ left_refusals self.old }
        ensures kept { IsPrefix (left_records self.old) (left_records self.new) }
        ensures learnt { IsPrefix (noted note) (left_records self.new) }
    {
        let BoardNote { front } = note;
        if self.front.begins(&front) {
            self.front = front;
        }
    }
}

impl Glass for LeftGlass {
    ghost use Rattle.live_board.specs.Glasses.{SameBoard, TookPublished, left_records, left_refusals, left_rows};

    ghost rows = { left_rows };

    ghost known = { left_records };

    ghost refusals = { left_refusals };

    ghost stays = { SameBoard };

    ghost looks = { TookPublished };

    fn look(&mut self, into: &mut Board) -> Result<(), Refused> {
        let Some(snapshot) = self.see() else {
            return Err(self.refuse());
        };
        if !self.front.begins(&snapshot.front) {
            return Err(self.refuse());
        }
        into.copy_from(&snapshot.totals);
        self.front = snapshot.front;
        Ok(())
    }
}
