//! What holds of every exploration.
ghost use Rattle.exploration_laws.specs.Begins.{AttemptsBegin, RootsBegin, MergesBegin, EvaluationsBegin};
ghost use Rattle.exploration_laws.specs.Calls.{FirstsKeepCalls, AttemptsKeepCalls, RootsKeepCalls, MergesKeepCalls, NeedsAreCalls};
ghost use Rattle.exploration_laws.specs.Cuts.{CutsStand};
ghost use Rattle.exploration_laws.specs.Falls.{AttemptsFall, RootsFall, MergesFall};
ghost use Rattle.exploration_laws.specs.Has.{AttemptsHave, RootsHave, MergesHave, EvaluationsHave};
ghost use Rattle.exploration_laws.specs.Open.{NeedsAreOpen, NeedsRise};
ghost use Rattle.exploration_laws.specs.Pending.{FirstsName, AttemptsName, RootsName, MergesName, EvaluationsName, ExplorationsName, ValuesNeed, BytesNeed, AttemptsNeed};
ghost use Rattle.exploration_laws.specs.Exist.{AnswersAreReached, EvaluationsExist, ExplorationsExist};

/// The condition of what an attempt, a root or a merge gives begins with the conjuncts of the state that gave it, and so does that
/// of each leaf below a state.
pub fn conditions_begin_with_the_givers()
    ensures attempts { AttemptsBegin }
    ensures roots { RootsBegin }
    ensures merges { MergesBegin }
    ensures leaves { EvaluationsBegin }
{}

/// Where a state that is in no recovery stands at a node, what it gives does so too; the steps left fall at forks and at calls that
/// are needed, and nothing that is given has more.
pub fn steps_left_fall()
    ensures attempts { AttemptsFall }
    ensures roots { RootsFall }
    ensures merges { MergesFall }
{}

/// Each leaf that isn't open keeps an input; outside of recoveries none is of a recovery, and in one none ends the program. An
/// attempt and a merge stay in the recovery or outside, and a root stands in its own.
pub fn leaves_have_inputs()
    ensures attempts { AttemptsHave }
    ensures roots { RootsHave }
    ensures merges { MergesHave }
    ensures leaves { EvaluationsHave }
{}

/// Each state reaches an answer, and each exploration has its leaves.
pub fn explorations_exist()
    ensures answers { AnswersAreReached }
    ensures evaluations { EvaluationsExist }
    ensures leaves { ExplorationsExist }
{}

/// A log cut before a call's mark stands for the history before what the call changed, its marks as they were.
pub fn cut_logs_stand_for_the_history_before()
    ensures { CutsStand }
{}

/// Each call that is needed for what is wanted of a log has a mark there that may have changed it, and no fill for it; where the
/// marks are numbered in their order, the calls rise, so none is needed twice.
pub fn needed_calls_are_open()
    ensures marks { NeedsAreOpen }
    ensures rise { NeedsRise }
{}

/// Calls are kept by whatever an exploration reaches, in recoveries and through merges too: snapshots are numbered from 1 in their
/// order, the log has a mark of each of their calls and of no other, and each mark has what a call of its function may change. So what
/// is needed for what is wanted of a log are calls of snapshots, each once.
pub fn calls_are_kept()
    ensures first { FirstsKeepCalls }
    ensures attempts { AttemptsKeepCalls }
    ensures roots { RootsKeepCalls }
    ensures merges { MergesKeepCalls }
    ensures needs { NeedsAreCalls }
{}

/// Each pending result in a state names a call that was skipped before, with the type of what its function returns: in registers, in
/// the log, where older than the marks above it, among the arguments and results of skipped calls, and among the loads. This is kept by
/// whatever an exploration reaches, in recoveries and through merges too; and what a recovery gives names older calls than its own, as
/// each recovered result does that a leaf tells.
pub fn pending_results_name_earlier_calls()
    ensures first { FirstsName }
    ensures attempts { AttemptsName }
    ensures roots { RootsName }
    ensures merges { MergesName }
    ensures leaves { EvaluationsName }
    ensures explored { ExplorationsName }
{}

/// What is needed for operands, for bytes that are loaded and by an attempt are skipped calls, each with a location that a call of its
/// function may change and that its mark has no fill for, or with its result, which isn't recovered; and no call is needed twice with
/// one location.
pub fn needs_name_skipped_calls()
    ensures values { ValuesNeed }
    ensures bytes { BytesNeed }
    ensures attempts { AttemptsNeed }
{}
