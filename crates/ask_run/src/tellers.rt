//! Making answerers for threads, and joining them.
ghost use Rattle.std.specs.Prelude.{◌≡◌, ◌≤◌, ℕ, All, IfOk, length};
ghost use Rattle.fair_semantics.specs.Step.{Setting};
ghost use Rattle.actor_cells.specs.History.{History};
ghost use Rattle.ask_board.specs.Board.{cells_of};
ghost use Rattle.actor_pool.specs.Beside.{FitsOpening};
ghost use Rattle.pool_run.specs.Running.{IsReady};
ghost use Rattle.answerer.specs.Answered.{IsOfBoard};
ghost use Rattle.answerer.specs.Beside.{FitsHistory};
ghost use Rattle.ask_run.specs.Tellers.{FitsOn, IsJoinable};

use crate::one_board::{OneBoard, Teller};
use actor_pool::TicketSource;
use answerer::Answerer;
use ask_board::AskBoard;
use join_base::NoMemory;
use std::alloc::Global;
use std::marker::PhantomData;

/// An answerer of the board that knows nothing.
fn teller<'a, K: OneBoard>(alloc: Global, board: &'a AskBoard) -> Result<Teller<'a, K>, NoMemory>
    requires on { cells_of board.now ≡ K.cells }
    ensures opening { IfOk result (FitsOpening (FitsOn K.cells)) }
{
    let answerer = Answerer::new(alloc, board)?;
    Ok(Teller {
        answerer,
        of: PhantomData,
    })
}

/// So many answerers of the board that know nothing.
pub(crate) fn tellers<'a, K: OneBoard>(
    alloc: Global,
    board: &'a AskBoard,
    count: usize,
) -> Result<Vec<Teller<'a, K>>, NoMemory>
    requires on { cells_of board.now ≡ K.cells }
    ensures count { IfOk result (λ besides. length besides.items ≡ count) }
    ensures opening { IfOk result (λ besides. All (FitsOpening (FitsOn K.cells)) besides.items) }
{
    let mut besides = Vec::new(alloc);
    for _ in 0..count {
        besides.push(teller(alloc, board)?)?;
    }
    Ok(besides)
}

/// An answerer of the board that knows nothing, for each source of tickets.
pub(crate) fn with_tellers<'a, S: TicketSource + Drop, K: OneBoard>(
    alloc: Global,
    board: &'a AskBoard,
    mut sources: Vec<S>,
    actors: u32,
) -> Result<Vec<(S, Teller<'a, K>)>, NoMemory>
    requires on { cells_of board.now ≡ K.cells }
    requires few { length sources.items ≤ 64 }
    requires belong { All (λ source. S.belongs source actors) sources.items }
    ensures few { IfOk result (λ workers. length workers.items ≤ 64) }
    ensures ready { IfOk result (λ workers. All (IsReady S.belongs (FitsOn K.cells) actors) workers.items) }
{
    let mut workers = Vec::new(alloc);
    while let Some(source) = sources.pop() {
        workers.push((source, teller(alloc, board)?))?;
    }
    Ok(workers)
}

/// An answerer of the board with the asks that are on the lists of all of these. It fits what all of them fit.
pub(crate) fn join_tellers<'a, K: OneBoard>(
    alloc: Global,
    board: &'a AskBoard,
    mut tellers: Vec<Teller<'a, K>>,
) -> Result<Answerer<'a>, NoMemory>
    requires on { cells_of board.now ≡ K.cells }
    requires joinable { All (IsJoinable K.cells) tellers.items }
    ensures board { IfOk result (λ joined. joined.answers.board.now ≡ board.now) }
    ensures of_board { IfOk result (λ joined. IsOfBoard joined.answers) }
    ensures fits { IfOk result (λ joined. (actor : ℕ) (setting : Setting) (history : History)
        → All (λ teller. FitsOn K.cells teller actor setting history) tellers.entry.items
        → FitsHistory joined actor setting history) }
{
    let mut joined = Answerer::new(alloc, board)?;
    while let Some(teller) = tellers.pop() {
        let Teller { answerer, .. } = teller;
        joined.join(answerer)?;
    }
    Ok(joined)
}
