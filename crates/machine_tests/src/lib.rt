//! Tests of runs over the texts of modules: loops, calls, memory, input and output, deep recursion, and each fault.
#![tactic(auto)]

mod programs;
#[cfg(test)]
mod of_faults;
#[cfg(test)]
mod of_runs;

pub use programs::program_of;
