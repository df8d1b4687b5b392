//! Reading a run that has ended.
ghost use Rattle.std.specs.Prelude.{◌≡◌, ◌≤◌, IfOk, length};
ghost use Rattle.std.specs.List.{AllByRecursion};
ghost use Rattle.ask_run.specs.Reading.{FitsEntries, HasFewEntries, TriesFirst};

use answerer::Answerer;
use fair_semantics::Run;
use join_base::NoMemory;
use std::alloc::Global;

/// Answers what the actors of a run replied, of which the answerer may have been shown a part.
pub(crate) fn read_run<'a>(
    alloc: Global,
    run: &Run,
    mut answerer: Answerer<'a>,
) -> Result<Answerer<'a>, NoMemory>
    requires few { length run.now.actors ≤ 32 }
    requires small { AllByRecursion HasFewEntries run.now.actors }
    requires fits { FitsEntries run.now answerer }
    ensures board { IfOk result (λ read. read.answers.board.now ≡ answerer.entry.answers.board.now) }
    ensures fits { IfOk result (FitsEntries run.now) }
    ensures tried { IfOk result (TriesFirst (length run.now.actors) run.now) }
{
    let runs = run.actors.as_slice();
    for (place, own) in runs.iter().enumerate() {
        answerer.read(alloc, place as u32, own.entries.as_slice())?;
    }
    Ok(answerer)
}
