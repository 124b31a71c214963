//! The leaves of an exploration in which no call is skipped are right: proofs of laws alone.
#![tactic(auto)]

mod laws;

pub use laws::{decided_leaves_are_right, leaves_are_right, verdicts_are_right};
