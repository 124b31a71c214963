//! Symbolic states: where a program stands over input bytes, with terms, memory and a condition; definitions of what an attempt
//! of a node gives, and of an exploration.
#![tactic(auto)]

mod callers;
mod frames;
mod laws;

pub use callers::Callers;
pub use frames::{Frame, Place, Target};
pub use laws::{attempts_reach_one_answer, computed_leaves_are_explored, tests_split_inputs};
