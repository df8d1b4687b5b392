//! What holds of the entries of a history.
ghost use Rattle.history_law.specs.History.{EntriesGoOn, RestsAreNoMatter, RunsShowHistories, SourcesAreNoMatter};

/// The entries go on as the history does. The number of sources is no matter to them, and nor are messages behind the
/// history that were not recorded. In a linked run each actor has the entries of its history, but for stamps.
pub fn history_law()
    ensures go_on { EntriesGoOn }
    ensures sources { SourcesAreNoMatter }
    ensures rests { RestsAreNoMatter }
    ensures runs { RunsShowHistories }
{}
