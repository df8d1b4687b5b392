//! What holds of tries and of partial matches.
ghost use Rattle.tree_law.specs.Laws.{AllTriesAreFew, PrefixesArePartial, TriesAreFew};

/// At paths, a number is tried at most as often as there are paths times patterns of its kind. So the steps of one
/// arrival, which are at most its tries at the partial matches of each definition, are at most the sum, over the
/// definitions, of the partial matches before it times the patterns of the new message's kind.
pub fn tries_law()
    ensures tree { TriesAreFew }
    ensures definitions { AllTriesAreFew }
{}

/// A partial match without the numbers that are greater than some number is a partial match too. So each prefix of a
/// path, in the order of arrival, is one.
pub fn prefix_law()
    ensures { PrefixesArePartial }
{}
