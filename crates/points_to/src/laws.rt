//! What the points-to sets say of runs.
ghost use Rattle.points_to.specs.Within.{StepsStayWithin, RunsStayWithin};

/// A step from any state whose registers, of all its frames, and whose memory lie within the points-to sets leads to such a state.
pub fn steps_stay_within()
    ensures { StepsStayWithin }
{}

/// In every run each pointer in a register or in memory points to an object whose site is in the points-to sets.
pub fn runs_stay_within()
    ensures { RunsStayWithin }
{}
