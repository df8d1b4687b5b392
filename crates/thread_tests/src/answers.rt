//! Answers on a board that threads share.
ghost use Rattle.std.specs.Prelude.{◌≡◌, IfOk};
ghost use Rattle.ask_board.specs.Board.{HasAsk, IsViewOf};

use ask_board::{AnswerFault, Ask, AskBoard, AskView};
use feed_store::{Feed, Feeds};
use join_base::{Fields, Message, NoMemory, Value};
use std::alloc::Global;
use std::test::Fail;
use std::thread;

pub fn message(alloc: Global) -> Message {
    Message {
        kind: 0,
        fields: Fields::new(alloc),
    }
}

/// The board of a feed with a post to the actor 0 and one to the actor 1.
pub fn board_of_two(alloc: Global) -> Result<AskBoard, NoMemory>
    ensures first { IfOk result (λ board. HasAsk board (record { feed = 1; actor = 0; place = 1 })) }
    ensures second { IfOk result (λ board. HasAsk board (record { feed = 1; actor = 1; place = 1 })) }
{
    let first = message(alloc);
    let second = message(alloc);
    let mut posts = Feed::new(alloc);
    posts.push(0, first)?;
    posts.push(1, second)?;
    let mut feeds = Feeds::new(alloc);
    feeds.push(posts)?;
    AskBoard::new(alloc, &feeds, 2)
}

pub fn to_actor(actor: u32) -> Ask
    ensures { result ≡ record { feed = 1; actor = actor; place = 1 } }
{
    Ask {
        feed: 1,
        actor,
        place: 1,
    }
}

fn is_int(value: &Value, number: i64) -> bool {
    match value {
        Value::Int(own) => *own == number,
        Value::Words(_) => false,
    }
}

/// Whether the ask has this number.
pub fn shows(board: &AskBoard, view: &mut AskView, ask: Ask, number: i64) -> bool
    requires of_board { IsViewOf board.now view.old }
    requires exists { HasAsk board.now ask }
    ensures { IsViewOf board.now view.new }
{
    match board.look(view, ask) {
        Some(value) => is_int(value, number),
        None => false,
    }
}

// Whether the ask has another value, and this number came back.
fn hands_back(answered: Result<(), AnswerFault>, number: i64) -> bool {
    match answered {
        Err(AnswerFault::Differs(value)) => is_int(&value, number),
        Err(AnswerFault::NoMemory(_value)) => false,
        Ok(()) => false,
    }
}

#[test]
fn an_answer_is_seen_by_another_view(rt: HostRuntime) -> Result<(), Fail> {
    let board = board_of_two(rt.alloc())?;
    let mut view = board.view()?;
    let mut other = board.view()?;
    let ask = to_actor(1);
    let before = board.look(&mut view, ask).is_none();
    let answered = board.answer(&mut view, ask, Value::Int(5)).is_ok();
    assert!(rt; before && answered && shows(&board, &mut other, ask, 5));
    assert!(rt; board.look(&mut other, to_actor(0)).is_none());
    Ok(())
}

#[test]
fn another_value_is_handed_back(rt: HostRuntime) -> Result<(), Fail> {
    let board = board_of_two(rt.alloc())?;
    let mut view = board.view()?;
    let ask = to_actor(0);
    let first = board.answer(&mut view, ask, Value::Int(5)).is_ok();
    let second = board.answer(&mut view, ask, Value::Int(5)).is_ok();
    let third = board.answer(&mut view, ask, Value::Int(6));
    assert!(rt; first && second && hands_back(third, 6));
    assert!(rt; shows(&board, &mut view, ask, 5));
    Ok(())
}

// Answers an ask, or finds it answered.
fn answer_once(board: &AskBoard, mut view: AskView, ask: Ask, number: i64) -> AskView
    requires of_board { IsViewOf board.now view }
    requires exists { HasAsk board.now ask }
    ensures { IsViewOf board.now result }
{
    let _answered = board.answer(&mut view, ask, Value::Int(number));
    view
}

#[test]
fn two_threads_that_answer_agree(rt: HostRuntime) -> Result<(), Fail> {
    for _ in 0..20u32 {
        let board = board_of_two(rt.alloc())?;
        let shared = &board;
        let (first, second) = (board.view()?, board.view()?);
        let ask = to_actor(0);
        let (mut first, mut second) = thread::join(
            &rt,
            move || -> AskView
                requires of_board { IsViewOf shared.now first }
                requires exists { HasAsk shared.now ask }
                ensures { IsViewOf shared.entry.now result }
            { answer_once(shared, first, ask, 1) },
            move || -> AskView
                requires of_board { IsViewOf shared.now second }
                requires exists { HasAsk shared.now ask }
                ensures { IsViewOf shared.entry.now result }
            { answer_once(shared, second, ask, 2) },
        );
        let one = shows(&board, &mut first, ask, 1);
        assert!(rt; one == shows(&board, &mut second, ask, 1));
        assert!(rt; one || shows(&board, &mut second, ask, 2));
    }
    Ok(())
}
