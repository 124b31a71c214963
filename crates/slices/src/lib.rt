//! The slice of a function for a location, and where a run of the slice goes on.
#![tactic(auto)]

mod laws;

pub use laws::{residual_runs_go_where_met, slices_have_facts};
