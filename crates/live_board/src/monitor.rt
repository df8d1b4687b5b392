//! Monitors.
ghost use Rattle.std.specs.Prelude.{◌≡◌, ◌≤◌, length, OnErr, OnOk};
ghost use mathlib.Core.List.{IsPrefix};
ghost use Rattle.join_base.specs.Outside.{Rose};
ghost use Rattle.live_board.specs.Glasses.{left_book, left_records, left_refusals, left_rows};
ghost use Rattle.live_board.specs.Looking.{Shows, ShowsNothing};
ghost use Rattle.live_board.specs.Monitors.{glass_of};
ghost use Rattle.live_board.specs.Writers.{noted, note_book};

use crate::board::Board;
use crate::glass::{Glass, Refused};
use crate::left_glass::LeftGlass;
use crate::note::BoardNote;
use join_base::Items;

/// Reads boards through a glass. Contracts see the glass (`glass_of`).
#[derive(Drop)]
pub struct Monitor<W: Glass> {
    glass: W,
}

/// The monitors of a board, which contracts see as a list.
pub type MonitorList = Items<Monitor<LeftGlass>>;

/// The monitor read nothing.
#[derive(Clone, Copy, PartialEq, Eq, Debug)]
pub struct Unread;

impl<W: Glass> Monitor<W> {
    /// A monitor that knows what the glass knows.
    pub fn new(glass: W) -> Monitor<W>
        ensures glass { glass_of result ≡ glass }
    {
        Monitor { glass }
    }

    /// Reads the board of records that begin with all that the monitor had read or learnt. It knows them from then on.
    ///
    /// `Unread` comes only where the glass's count of refused looks rose in this call. Then the board is as it was.
    pub fn read(&mut self, into: &mut Board) -> Result<(), Unread>
        requires rows { length into.old ≡ W.rows (glass_of self.old) }
        ensures rows { W.rows (glass_of self.new) ≡ W.rows (glass_of self.old) }
        ensures stays { W.stays (glass_of self.old) (glass_of self.new) }
        ensures shown { OnOk result (Shows (W.rows (glass_of self.old)) (W.known (glass_of self.old))
            (W.known (glass_of self.new)) into.new) }
        ensures unread { OnErr result (ShowsNothing (W.known (glass_of self.old)) (W.known (glass_of self.new))
            into.old into.new) }
        ensures looks { OnOk result (W.looks (glass_of self.old) (glass_of self.new)) }
        ensures later { W.refusals (glass_of self.old) ≤ W.refusals (glass_of self.new) }
        ensures cause { OnErr result (Rose (W.refusals (glass_of self.old)) (W.refusals (glass_of self.new))) }
    {
        match self.glass.look(into) {
            Ok(()) => Ok(()),
            Err(Refused) => Err(Unread),
        }
    }
}

impl Monitor<LeftGlass> {
    /// Uses the note up: the monitor then knows the list that was published when the note was made.
    ///
    /// It takes no memory and does not wait.
    pub fn learn(&mut self, note: BoardNote)
        requires book { note_book note ≡ left_book (glass_of self.old) }
        ensures book { left_book (glass_of self.new) ≡ left_book (glass_of self.old) }
        ensures rows { left_rows (glass_of self.new) ≡ left_rows (glass_of self.old) }
        ensures refusals { left_refusals (glass_of self.new) ≡ left_refusals (glass_of self.old) }
        ensures kept { IsPrefix (left_records (glass_of self.old)) (left_records (glass_of self.new)) }
        ensures learnt { IsPrefix (noted note) (left_records (glass_of self.new)) }
    {
        self.glass.learn(note);
    }
}
