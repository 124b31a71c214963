//! The run of a program, as the line that says how it ended.
#![tactic(auto)]

mod lines;

pub use lines::run_text;
