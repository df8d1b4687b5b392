//! An answerer on one thread, and an asker on another.
ghost use Rattle.std.specs.Prelude.{◌≡◌, ◌<◌, ◌^◌, IfOk, length};
ghost use Rattle.ask_board.specs.Board.{HasAsk, IsViewOf};
ghost use Rattle.answerer.specs.Fit.{Fits};

use crate::answers::{board_of_two, message, shows, to_actor};
use answerer::Answerer;
use ask_board::{Ask, AskBoard, AskView};
use fair_semantics::{Effect, Entry, Fired, Firing};
use join_base::{Items, NoMemory, Numbers, Source, Value};
use std::alloc::Global;
use std::test::Fail;
use std::thread;

// What an actor did that took an arrival from the feed 1 and replied 5 to it.
fn replied(alloc: Global) -> Result<Items<Entry>, NoMemory>
    ensures one { IfOk result (λ entries. length entries ≡ 1) }
{
    let mut effects = Items::new(alloc);
    effects.push(Effect::Reply {
        number: 1,
        value: Value::Int(5),
    })?;
    let firing = Firing {
        rule: 1,
        taken: Numbers::new(),
        effects,
    };
    let entry = Entry {
        number: 1,
        source: Source::Feed(1),
        message: message(alloc),
        stamp: 1,
        firing: Fired::from_box(Box::new(alloc, firing)?),
    };
    let mut entries = Items::new(alloc);
    entries.push(entry)?;
    Ok(entries)
}

// Answers by what the actor 0 did.
fn answer_by(alloc: Global, mut answerer: Answerer, entries: &[Entry]) -> bool
    requires few { length entries.now < 2 ^ 32 }
    requires fits { Fits answerer 0 entries.now }
{
    answerer.read(alloc, 0, entries).is_ok()
}

// Looks at an ask, whether it is answered yet or not.
fn look_once(board: &AskBoard, mut view: AskView, ask: Ask) -> AskView
    requires of_board { IsViewOf board.now view }
    requires exists { HasAsk board.now ask }
    ensures { IsViewOf board.now result }
{
    let _answered = board.look(&mut view, ask).is_some();
    view
}

#[test]
fn an_asker_reads_the_reply_after_the_joins(rt: HostRuntime) -> Result<(), Fail> {
    let alloc = rt.alloc();
    let board = board_of_two(alloc)?;
    let entries = replied(alloc)?;
    let (shared, read) = (&board, entries.as_slice());
    let answerer = Answerer::new(alloc, shared)?;
    let view = board.view()?;
    let ask = to_actor(0);
    let (answered, mut view) = thread::join(
        &rt,
        move || -> bool
            requires few { length read.now < 2 ^ 32 }
            requires fits { Fits answerer 0 read.now }
        { answer_by(alloc, answerer, read) },
        move || -> AskView
            requires of_board { IsViewOf shared.now view }
            requires exists { HasAsk shared.now ask }
            ensures { IsViewOf shared.entry.now result }
        { look_once(shared, view, ask) },
    );
    assert!(rt; answered && shows(&board, &mut view, ask, 5));
    Ok(())
}
