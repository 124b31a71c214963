//! The condition of a path: a list of terms of one bit, each of which is to be 1.
#![tactic(auto)]

mod conditions;

pub use conditions::{Added, Conditions};
