//! The concrete machine: it runs a program on an input, node by node.
#![tactic(auto)]

mod calls;
mod control;
mod frames;
mod machine;
mod memory;
mod numbers;
mod returns;
mod running;
mod stepping;
mod turns;

pub use running::{Outcome, RunEnd, run};
