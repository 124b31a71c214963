//! A slice simulates its call.
#![tactic(auto)]

ghost use Rattle.slice_laws.specs.CallsInRuns.{CallsStandAlone, SlicesSimulateInRuns};
ghost use Rattle.slice_laws.specs.Moments.{ResidualStatesAgree};
ghost use Rattle.slice_laws.specs.OneSlice.{SlicesAreOne};
ghost use Rattle.slice_laws.specs.Simulation.{SlicesSimulate};

/// Where a call ends, the residual run of its slice ends too, with the call's changes in the location.
pub fn slices_simulate()
    ensures { SlicesSimulate }
{}

/// On the way there each state of the residual run agrees with the call, at some moment, on what the slice reads and needs.
pub fn residual_states_agree()
    ensures { ResidualStatesAgree }
{}

/// A call in a run gives and adds what it does alone.
pub fn calls_stand_alone()
    ensures { CallsStandAlone }
{}

/// So the slice of a call simulates what the call does in a run.
pub fn slices_simulate_in_runs()
    ensures { SlicesSimulateInRuns }
{}

/// A function has one slice for a location.
pub fn slices_are_one()
    ensures { SlicesAreOne }
{}
