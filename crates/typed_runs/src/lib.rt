//! In each run of a program that passed its checks, each register holds a value of its type. Functions without
//! arguments state the laws; the one with code walks a program, so that what the last laws ask of its numbers is known.
#![tactic(auto)]

mod constants;

ghost use Rattle.typed_runs.specs.Laws.{NodesAreTyped, OperandsAreTyped, RunsAreTyped, RunsCount, RunsFit, StepsCount, StepsKeepFitting, StepsKeepTypes, TracesAreTyped, TracesFit, TypedFramesSuit};

pub use constants::numbers_fit;

/// Where no condition fails in a program, each state of each of its runs is typed.
pub fn runs_are_typed()
    ensures { RunsAreTyped }
{}

/// A step from any typed state of such a program leads to a typed one, or the run is over.
pub fn steps_keep_types()
    ensures { StepsKeepTypes }
{}

/// Its nodes have the types that they need, whatever function and node is named.
pub fn nodes_are_typed()
    ensures { NodesAreTyped }
{}

/// An operand in a typed frame has a value of its type.
pub fn operands_are_typed()
    ensures { OperandsAreTyped }
{}

/// What a typed frame holds suits the node at which it stands.
pub fn typed_frames_suit()
    ensures { TypedFramesSuit }
{}

/// What a run of it shows as loaded or returned has its type.
pub fn traces_are_typed()
    ensures { TracesAreTyped }
{}

/// Each number in each state of a run fits its width, where those of the program and of the input do.
pub fn runs_fit()
    ensures { RunsFit }
{}

/// A step from any such state leads to one, or the run is over.
pub fn steps_keep_fitting()
    ensures { StepsKeepFitting }
{}

/// So it is with each value that such a run shows.
pub fn traces_fit()
    ensures { TracesFit }
{}

/// After n steps of any program each frame has executed each of its nodes at most n times.
pub fn runs_count()
    ensures { RunsCount }
{}

/// A step executes a node at most once more, whatever the state.
pub fn steps_count()
    ensures { StepsCount }
{}
