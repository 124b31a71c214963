//! Every exploration splits the inputs.
ghost use Rattle.split_laws.specs.Splits.{AttemptsSplit, RootsKeepLeast, MergesSplit, EvaluationsSplit, ExplorationsSplit, AttemptsForkSome, MergesForkSome, ListsHaveSome};

/// What an attempt gives, and what a merge makes of whatever lists of leaves split the inputs of a suspended state, splits the
/// inputs that meet the giver's condition, and keeps the least ones; a recovery begins with the least input too.
pub fn attempts_and_merges_split()
    ensures attempts { AttemptsSplit }
    ensures roots { RootsKeepLeast }
    ensures merges { MergesSplit }
{}

/// The leaves below a state split the inputs that meet its condition, and what each keeps is the least that meets its own; so do
/// the leaves of an exploration.
pub fn explorations_split()
    ensures evaluations { EvaluationsSplit }
    ensures explorations { ExplorationsSplit }
{}

/// No fork is empty, and no list of leaves.
pub fn no_list_is_empty()
    ensures attempts { AttemptsForkSome }
    ensures merges { MergesForkSome }
    ensures lists { ListsHaveSome }
{}
