//! What slices have.
ghost use Rattle.slices.specs.SliceFacts.{SlicesHaveFacts, ResidualRunsGoWhereMet};

/// What each rule of a slice gives for its run.
pub fn slices_have_facts()
    ensures { SlicesHaveFacts }
{}

/// A residual run goes from each node where a whole run that comes to a retained node or the end comes first.
pub fn residual_runs_go_where_met()
    ensures { ResidualRunsGoWhereMet }
{}
