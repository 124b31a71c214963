//! What holds of every attempt.
ghost use Rattle.state_laws.specs.Explored.{ExploredLeavesFit, ExploredLeavesHaveNoCalls};
ghost use Rattle.state_laws.specs.Kept.{AttemptsKeepFitting};
ghost use Rattle.state_laws.specs.Results.{EvaluatesOneResult, ExploresOneResult};
ghost use Rattle.state_laws.specs.Skipless.{AttemptsNeedNothing};

/// What an attempt of a state that fits gives, fits at as many bytes of input.
pub fn attempts_keep_fitting()
    ensures { AttemptsKeepFitting }
{}

/// Where no function's calls are skipped, an attempt of a state without skipped calls needs none, and gives no such leaf.
pub fn attempts_need_nothing()
    ensures { AttemptsNeedNothing }
{}

/// Children have one list of leaves each, and take one number of tasks.
pub fn evaluating_has_one_result()
    ensures { EvaluatesOneResult }
{}

/// An exploration has one list of leaves, and takes one number of tasks.
pub fn exploring_has_one_result()
    ensures { ExploresOneResult }
{}

/// Each leaf of an exploration fits at the setting's bytes of input.
pub fn explored_leaves_fit()
    ensures { ExploredLeavesFit }
{}

/// Where no function's calls are skipped, no leaf of an exploration is of a skipped call.
pub fn explored_leaves_have_no_calls()
    ensures { ExploredLeavesHaveNoCalls }
{}
