//! The lines of a board.
ghost use Rattle.std.specs.Prelude.{◌≡◌, ◌++◌, length, OnErr, OnOk};
ghost use Rattle.std.specs.Fmt.{decimal};
ghost use Rattle.watch_run.specs.BoardText.{board_line, board_lines, totals_text};

use join_base::{Bytes, NoMemory, write_number};
use live_board::{Board, Totals};
use script_types::{ActorPlan, Plan};
use std::alloc::Global;

// The words before a number, and the number. Without memory the words may stay.
fn write_labelled(text: &mut Bytes, label: &[u8], number: u64) -> Result<(), NoMemory>
    ensures { OnOk result (text.new ≡ text.old ++ (label.now ++ decimal number)) }
{
    text.push_all(label)?;
    write_number(text, i128::from(number))
}

/// Appends ` arrivals N firings N posts N`. After `NoMemory` a part of it may stand there.
pub fn write_totals(text: &mut Bytes, totals: Totals) -> Result<(), NoMemory>
    ensures { OnOk result (text.new ≡ text.old ++ totals_text totals) }
{
    write_labelled(text, b" arrivals ", u64::from(totals.arrivals))?;
    write_labelled(text, b" firings ", u64::from(totals.firings))?;
    write_labelled(text, b" posts ", totals.posts)
}

// The line of an actor. Without memory a part of it may stay.
fn write_row(text: &mut Bytes, actor: &ActorPlan, totals: &Totals) -> Result<(), NoMemory>
    ensures { OnOk result (text.new ≡ text.old ++ board_line actor.now totals.now) }
{
    text.push_all(b"board ")?;
    text.push_all(actor.name.bytes())?;
    write_totals(text, *totals)?;
    text.push_all(b"\n")
}

// The lines of the actors. Without memory some may stay.
fn write_rows(text: &mut Bytes, plan: &Plan, rows: &[Totals]) -> Result<(), NoMemory>
    requires { length rows.now ≡ length plan.now.actors }
    ensures { OnOk result (text.new ≡ text.old ++ board_lines plan.now.actors rows.now) }
{
    for (place, totals) in rows.iter().enumerate() {
        write_row(text, plan.actors.at(place), totals)?;
    }
    Ok(())
}

/// Appends for each actor of the board the line `board NAME arrivals N firings N posts N`. After `NoMemory` nothing was
/// appended.
pub fn print_board(
    alloc: Global,
    plan: &Plan,
    board: &Board,
    out: &mut Bytes,
) -> Result<(), NoMemory>
    requires rows { length board.now ≡ length plan.now.actors }
    ensures ok { OnOk result (out.new ≡ out.old ++ board_lines plan.now.actors board.now) }
    ensures err { OnErr result (out.new ≡ out.old) }
{
    let mut text = Bytes::new(alloc);
    write_rows(&mut text, plan, board.rows())?;
    out.push_all(text.bytes())
}
