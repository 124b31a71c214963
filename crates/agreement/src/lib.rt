//! How symbolic states agree with moments of runs: definitions, and the law that attempts go along with the run.
#![tactic(auto)]

ghost use Rattle.agreement.specs.Laws.{AttemptsGoAlong};

/// What an attempt of a state gives goes along with the run on each input that meets the state's condition, where no call is
/// skipped.
pub fn attempts_go_along()
    ensures { AttemptsGoAlong }
{}
