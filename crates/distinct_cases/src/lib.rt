//! The switches of a tree's program name no number twice: a proof of a law alone.
#![tactic(auto)]

mod laws;

pub use laws::resolved_cases_are_distinct;
