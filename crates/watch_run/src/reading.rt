//! The threads of monitors.
ghost use Rattle.std.specs.Prelude.{◌≡◌, ◌≤◌, All, length};
ghost use Rattle.std.specs.Thread.{IsSend, IsSync};
ghost use Rattle.live_board.specs.Glasses.{left_rows};
ghost use Rattle.live_board.specs.Monitors.{glass_of};

use crate::view::View;
use live_board::{Board, LeftGlass, Monitor, Unread};
use std::alloc::Global;
use std::sync::{Condvar, Wait};
use std::thread;
use std::thread::Threads;
use std::time::Duration;

// How many milliseconds a monitor rests between two reads.
const REST: u64 = 100;

// Reads the board of so many actors ten times a second, and shows it, until it is closed. Who notifies `ended` ends the
// rest. Without memory the board isn't read.
fn read_on<R: Wait, V: View<R>>(
    rt: &R,
    alloc: Global,
    view: &V,
    ended: &Condvar,
    number: u32,
    actors: u32,
    mut monitor: Monitor<LeftGlass>,
)
    requires rows { left_rows (glass_of monitor) ≡ actors }
{
    let Ok(mut board) = Board::new(alloc, actors) else {
        return;
    };
    for _ in rt.forever() {
        match monitor.read(&mut board) {
            Ok(()) => {
                view.show(rt, alloc, number, board.rows());
                // Once it was notified, this returns at once.
                ended.sleep(rt, 0, Duration::from_millis(REST));
            }
            Err(Unread) => return,
        }
    }
}

/// Reads with each monitor, on a thread of its own, until the board is closed. Between two reads a monitor rests, and
/// who notifies `ended` ends that. One for which no thread can be made reads after another one, which finds the board
/// closed.
#[cycle(monitors)]
pub(crate) fn read_all<R: Threads + Wait + Sync, V: View<R> + Sync>(
    rt: &R,
    alloc: Global,
    view: &V,
    ended: &Condvar,
    actors: u32,
    mut monitors: Vec<Monitor<LeftGlass>>,
)
    requires few { length monitors.items ≤ 8 }
    requires rows { All (λ monitor. left_rows (glass_of monitor) ≡ actors) monitors.items }
{
    let Some(monitor) = monitors.pop() else {
        return;
    };
    let number = monitors.len() as u32 + 1;
    let others = move || -> ()
        requires cross { IsSync R.row × IsSync V.row }
        requires few { length monitors.items ≤ 8 }
        requires rows { All (λ monitor. left_rows (glass_of monitor) ≡ actors) monitors.items }
    { read_all(rt, alloc, view, ended, actors, monitors) };
    let own = move || -> ()
        requires { left_rows (glass_of monitor) ≡ actors }
    { read_on(rt, alloc, view, ended, number, actors, monitor) };
    thread::join(rt, others, own);
}
